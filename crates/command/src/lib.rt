// One command carried out on a unit by value: its checks in their order, and then its effect. maps.rt has the commands that map, pairs.rt
// those on a pair or a collection that is mapped. A command that changes the unit gives the next one, and one that only looks gives what it
// found; each gives its refusal where a check fails.
#![tactic(auto)]

pub mod maps;
pub mod pairs;

ghost use Rattle.std.specs.Prelude.{◌≡◌, if◌then◌else◌, Ok, Err};
ghost use Rattle.model.specs.declared.Refusal.TheVariants.{DeviceTooLarge};
ghost use Rattle.model.specs.Step.{too_large, execution};

use model::{Applied, Command, ItsAction, ItsConfig, ItsDeviceId, ItsState, Pair, Refusal};

// In strict, a device number above 65535 is refused.
#[tactic(auto, unfolding(model::specs::Step::too_large))]
fn check_size(config: ItsConfig, device: ItsDeviceId) -> Result<(), Refusal>
    ensures { result ≡ (if too_large config device then Err DeviceTooLarge else Ok tt) }
{
    if config.profile == 1 && 65535 < device.0 {
        return Err(Refusal::DeviceTooLarge);
    }
    Ok(())
}

// A command that only looks leaves the unit.
fn seen(unit: ItsState, executed: Result<Option<ItsAction>, Refusal>) -> Applied
    ensures { result ≡ record { unit = unit; executed = executed } }
{
    Applied { unit, executed }
}

// A command that changes the unit gives the next one. These arms come to one value, `next`: it is as large as a unit, and the compiler clears each such
// value before every command.
#[tactic(auto, unfolding(model::specs::Step::executed, model::specs::Step::stepped, crate::specs::Carried::next))]
pub fn execute(unit: ItsState, x: Command) -> Applied
    ensures { result ≡ execution unit x }
{
    let next = match x {
        Command::Mapd {
            device,
            event_bits,
            valid,
        } => maps::map_device(unit, device, event_bits, valid),
        Command::Mapc {
            collection,
            target,
            valid,
        } => maps::map_collection(unit, collection, target, valid),
        Command::Mapti {
            device,
            event,
            lpi,
            collection,
        } => maps::map_lpi(unit, Pair { device, event }, lpi, collection),
        Command::Mapi {
            device,
            event,
            collection,
        } => maps::map_event(unit, Pair { device, event }, collection),
        Command::Movi {
            device,
            event,
            collection,
        } => pairs::move_translation(unit, Pair { device, event }, collection),
        Command::Discard { device, event } => pairs::discard(unit, Pair { device, event }),
        Command::Int { device, event } => {
            let action = pairs::set_pending(unit, Pair { device, event }, true);
            return seen(unit, action.map(Some));
        }
        Command::Clear { device, event } => {
            let action = pairs::set_pending(unit, Pair { device, event }, false);
            return seen(unit, action.map(Some));
        }
        Command::Inv { device, event } => {
            let known = pairs::invalidate(unit, Pair { device, event });
            return seen(unit, known.map(|()| None));
        }
        Command::Invall { collection } => {
            let known = pairs::invalidate_all(unit, collection);
            return seen(unit, known.map(|()| None));
        }
        Command::Sync => return seen(unit, Ok(None)),
    };
    match next {
        Ok(next) => Applied {
            unit: next,
            executed: Ok(None),
        },
        Err(why) => Applied {
            unit,
            executed: Err(why),
        },
    }
}
