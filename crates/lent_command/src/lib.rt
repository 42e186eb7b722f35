// One command carried out on a unit that is lent as numbers: its checks in their order, and then its effect. maps.rt has the commands that
// map, pairs.rt those on a pair or a collection that is mapped. A command that is refused changes no number.
// Stays: the same functions stand by value in crate `command`. Two texts are a rule of the project (tools/towers.sh): one to hold beside the Rust, one to run.
#![tactic(auto)]

pub mod maps;
pub mod pairs;

ghost use Rattle.std.specs.Prelude.{◌≡◌, if◌then◌else◌, Ok, Err};
ghost use Rattle.model.specs.declared.Refusal.TheVariants.{DeviceTooLarge};
ghost use Rattle.model.specs.Step.{too_large};
ghost use Rattle.lent_tables.specs.Numbers.{config_in, Carries};

use lent_tables::Numbers;
use model::{Command, ItsAction, ItsDeviceId, Pair, Refusal};

// In strict, a device number above 65535 is refused.
#[tactic(auto, unfolding(model::specs::Step::too_large))]
fn check_size(state: &Numbers, device: ItsDeviceId) -> Result<(), Refusal>
    ensures { result ≡ (if too_large (config_in state.now) device then Err DeviceTooLarge else Ok tt) }
{
    if lent_tables::profile_in(state) == 1 && 65535 < device.0 {
        return Err(Refusal::DeviceTooLarge);
    }
    Ok(())
}

#[tactic(auto, unfolding(model::specs::Step::executed, model::specs::Step::stepped))]
pub fn execute(state: &mut Numbers, x: Command) -> Result<Option<ItsAction>, Refusal>
    ensures { Carries state.old x result state.new }
{
    Ok(match x {
        Command::Mapd {
            device,
            event_bits,
            valid,
        } => {
            maps::map_device(state, device, event_bits, valid)?;
            None
        }
        Command::Mapc {
            collection,
            target,
            valid,
        } => {
            maps::map_collection(state, collection, target, valid)?;
            None
        }
        Command::Mapti {
            device,
            event,
            lpi,
            collection,
        } => {
            maps::map_lpi(state, Pair { device, event }, lpi, collection)?;
            None
        }
        Command::Mapi {
            device,
            event,
            collection,
        } => {
            maps::map_event(state, Pair { device, event }, collection)?;
            None
        }
        Command::Movi {
            device,
            event,
            collection,
        } => {
            pairs::move_translation(state, Pair { device, event }, collection)?;
            None
        }
        Command::Int { device, event } => {
            Some(pairs::set_pending(state, Pair { device, event }, true)?)
        }
        Command::Clear { device, event } => {
            Some(pairs::set_pending(state, Pair { device, event }, false)?)
        }
        Command::Discard { device, event } => {
            pairs::discard(state, Pair { device, event })?;
            None
        }
        Command::Inv { device, event } => {
            pairs::invalidate(state, Pair { device, event })?;
            None
        }
        Command::Invall { collection } => {
            pairs::invalidate_all(state, collection)?;
            None
        }
        Command::Sync => None,
    })
}
