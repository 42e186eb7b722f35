// MAPD, MAPC, MAPTI and MAPI on a unit that is lent as numbers.
#![tactic(auto, using(model::proofs::CommandLaws::searches, lent_tables::proofs::RecordsAt::lengths, model::proofs::Effects::cleared_devices), unfolding(model::specs::Step::cleared, model::specs::Step::stepped, model::specs::Step::drop_device, model::specs::Step::store_device, model::specs::Table::room, model::specs::Table::store, model::specs::Step::drop_collection, model::specs::Step::store_collection, model::specs::Step::lpi_in_range, model::specs::Step::check_mapping, model::specs::Step::store_translation))]

ghost use Rattle.std.specs.Prelude.{◌≡◌};
ghost use Rattle.model.specs.declared.Command.TheVariants.{Mapd, Mapc, Mapti, Mapi};
ghost use Rattle.model.specs.Config.{listed};
ghost use Rattle.model.specs.Step.{lpi_in_range, cleared as clearedOf, check, stepped};
ghost use Rattle.lent_tables.specs.Numbers.{config_in, unit_in};

use lent_tables::{Numbers, records};
use model::{
    CollectionId, GicVcpuId, ItsCollection, ItsDevice, ItsDeviceId, LpiId, Pair, Refusal,
    Translation,
};

// In strict, a device that is mapped loses its translations before it is mapped again.
fn cleared(state: &mut Numbers, device: ItsDeviceId)
    ensures { unit_in state.new ≡ clearedOf device (unit_in state.old) }
{
    if lent_tables::profile_in(state) == 1 && records::find_device(state, device).is_some() {
        records::drop_translations_of(state, device);
    }
}

pub fn map_device(
    state: &mut Numbers,
    device: ItsDeviceId,
    event_bits: u8,
    valid: bool,
) -> Result<(), Refusal>
    ensures verdict { result ≡ check (unit_in state.old) (Mapd device event_bits valid) }
    ensures left { unit_in state.new ≡ stepped (unit_in state.old) (Mapd device event_bits valid) }
{
    crate::check_size(state, device)?;
    if !valid {
        records::drop_devices(state, device);
        records::drop_translations_of(state, device);
        return Ok(());
    }
    let at = records::place_of_device(state, device).ok_or(Refusal::TableFull)?;
    cleared(state, device);
    lent_tables::put_device(
        state,
        at,
        ItsDevice {
            device,
            event_bits,
            used: true,
        },
    );
    Ok(())
}

fn is_listed(state: &Numbers, target: GicVcpuId) -> bool
    ensures { result ≡ listed (config_in state.now) target }
{
    registers::sizes::is_listed(lent_tables::config_in(state), target)
}

pub fn map_collection(
    state: &mut Numbers,
    collection: CollectionId,
    target: GicVcpuId,
    valid: bool,
) -> Result<(), Refusal>
    ensures verdict { result ≡ check (unit_in state.old) (Mapc collection target valid) }
    ensures left { unit_in state.new ≡ stepped (unit_in state.old) (Mapc collection target valid) }
{
    if !valid {
        records::drop_collections(state, collection);
        records::drop_translations_in(state, collection);
        return Ok(());
    }
    if !is_listed(state, target) {
        return Err(Refusal::ProcessorUnlisted);
    }
    let at = records::place_of_collection(state, collection).ok_or(Refusal::TableFull)?;
    lent_tables::put_collection(
        state,
        at,
        ItsCollection {
            collection,
            target,
            used: true,
        },
    );
    Ok(())
}

// LPI in 8192..limit.
fn lpi_in_range(state: &Numbers, lpi: LpiId) -> bool
    ensures { result ≡ lpi_in_range (config_in state.now) lpi }
{
    (8192..=lent_tables::lpi_limit_in(state)).contains(&lpi.0)
}

// What MAPTI and MAPI share.
fn map_translation(
    state: &mut Numbers,
    pair: Pair,
    lpi: LpiId,
    collection: CollectionId,
) -> Result<(), Refusal>
    ensures verdict { result ≡ check (unit_in state.old) (Mapti pair.device pair.event lpi collection) }
    ensures left { unit_in state.new ≡ stepped (unit_in state.old) (Mapti pair.device pair.event lpi collection) }
{
    crate::check_size(state, pair.device)?;
    if !lpi_in_range(state, lpi) {
        return Err(Refusal::LpiOutOfRange);
    }
    let held = records::find_device(state, pair.device).ok_or(Refusal::DeviceUnmapped)?;
    let holder = records::device_at(state, held);
    if !words::event_below(holder.event_bits, pair.event) {
        return Err(Refusal::EventBeyondBits);
    }
    records::find_collection(state, collection).ok_or(Refusal::CollectionUnmapped)?;
    let at = records::place_of_pair(state, pair).ok_or(Refusal::TableFull)?;
    lent_tables::put_translation(
        state,
        at,
        Translation {
            device: pair.device,
            event: pair.event,
            lpi,
            collection,
            used: true,
        },
    );
    Ok(())
}

// MAPTI: the pair goes to an LPI that the command names.
pub fn map_lpi(
    state: &mut Numbers,
    pair: Pair,
    lpi: LpiId,
    collection: CollectionId,
) -> Result<(), Refusal>
    ensures verdict { result ≡ check (unit_in state.old) (Mapti pair.device pair.event lpi collection) }
    ensures left { unit_in state.new ≡ stepped (unit_in state.old) (Mapti pair.device pair.event lpi collection) }
{
    map_translation(state, pair, lpi, collection)
}

// MAPI: the LPI has the event's number.
pub fn map_event(state: &mut Numbers, pair: Pair, collection: CollectionId) -> Result<(), Refusal>
    ensures verdict { result ≡ check (unit_in state.old) (Mapi pair.device pair.event collection) }
    ensures left { unit_in state.new ≡ stepped (unit_in state.old) (Mapi pair.device pair.event collection) }
{
    map_translation(state, pair, LpiId(pair.event.0), collection)
}
