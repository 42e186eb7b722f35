// The commands that map: MAPD, MAPC, MAPTI and MAPI. Those that make a unit are functions of their own in the compiled code, here and in pairs.rt: merged
// into `execute`, the values of all of them were cleared before each command.
#![tactic(auto, using(model::proofs::Effects::cleared_devices), unfolding(model::specs::Step::cleared, crate::specs::Carried::next, model::specs::Step::drop_device, model::specs::Step::store_device, model::specs::Table::room, model::specs::Table::store, model::specs::Step::drop_collection, model::specs::Step::store_collection, model::specs::Step::lpi_in_range, model::specs::Step::check_mapping, model::specs::Step::store_translation))]

ghost use Rattle.std.specs.Prelude.{◌≡◌};
ghost use Rattle.model.specs.declared.Command.TheVariants.{Mapd, Mapc, Mapti, Mapi};
ghost use Rattle.model.specs.Step.{lpi_in_range, cleared as clearedOf};
ghost use Rattle.command.specs.Carried.{next};

use model::{
    CollectionId, GicVcpuId, ItsCollection, ItsConfig, ItsDevice, ItsDeviceId, ItsState, LpiId,
    Pair, Refusal, Translation,
};

// In strict, a device that is mapped loses its translations before it is mapped again.
fn cleared(unit: ItsState, device: ItsDeviceId) -> ItsState
    ensures { result ≡ clearedOf device unit }
{
    let mut next = unit;
    if unit.config.profile == 1 && tables::look(&unit.devices, device).is_some() {
        next.translations = tables::drop_all(unit.translations, device);
    }
    next
}

#[inline(never)]
pub fn map_device(
    unit: ItsState,
    device: ItsDeviceId,
    event_bits: u8,
    valid: bool,
) -> Result<ItsState, Refusal>
    ensures { result ≡ next unit (Mapd device event_bits valid) }
{
    crate::check_size(unit.config, device)?;
    if !valid {
        return Ok(ItsState {
            devices: tables::drop_all(unit.devices, device),
            translations: tables::drop_all(unit.translations, device),
            ..unit
        });
    }
    let at = tables::place(&unit.devices, device).ok_or(Refusal::TableFull)?;
    let mut next = cleared(unit, device);
    next.devices[at] = ItsDevice {
        device,
        event_bits,
        used: true,
    };
    Ok(next)
}

#[inline(never)]
pub fn map_collection(
    unit: ItsState,
    collection: CollectionId,
    target: GicVcpuId,
    valid: bool,
) -> Result<ItsState, Refusal>
    ensures { result ≡ next unit (Mapc collection target valid) }
{
    if !valid {
        return Ok(ItsState {
            collections: tables::drop_all(unit.collections, collection),
            translations: tables::drop_translations_in(unit.translations, collection),
            ..unit
        });
    }
    if !registers::sizes::is_listed(unit.config, target) {
        return Err(Refusal::ProcessorUnlisted);
    }
    let at = tables::place(&unit.collections, collection).ok_or(Refusal::TableFull)?;
    let mut next = unit;
    next.collections[at] = ItsCollection {
        collection,
        target,
        used: true,
    };
    Ok(next)
}

// LPI in 8192..limit.
fn lpi_in_range(config: ItsConfig, lpi: LpiId) -> bool
    ensures { result ≡ lpi_in_range config lpi }
{
    (8192..=config.lpi_limit).contains(&lpi.0)
}

// What MAPTI and MAPI share.
// Stays: each has a function of its own below, no plainer as one, since a MAPI has no LPI of its own.
#[inline(never)]
fn map_translation(
    unit: ItsState,
    pair: Pair,
    lpi: LpiId,
    collection: CollectionId,
) -> Result<ItsState, Refusal>
    ensures { result ≡ next unit (Mapti pair.device pair.event lpi collection) }
{
    crate::check_size(unit.config, pair.device)?;
    if !lpi_in_range(unit.config, lpi) {
        return Err(Refusal::LpiOutOfRange);
    }
    let holder = tables::look(&unit.devices, pair.device).ok_or(Refusal::DeviceUnmapped)?;
    if !words::event_below(holder.event_bits, pair.event) {
        return Err(Refusal::EventBeyondBits);
    }
    tables::look(&unit.collections, collection).ok_or(Refusal::CollectionUnmapped)?;
    let at = tables::place(&unit.translations, pair).ok_or(Refusal::TableFull)?;
    let mut next = unit;
    next.translations[at] = Translation {
        device: pair.device,
        event: pair.event,
        lpi,
        collection,
        used: true,
    };
    Ok(next)
}

// MAPTI: the pair goes to an LPI that the command names.
pub fn map_lpi(
    unit: ItsState,
    pair: Pair,
    lpi: LpiId,
    collection: CollectionId,
) -> Result<ItsState, Refusal>
    ensures { result ≡ next unit (Mapti pair.device pair.event lpi collection) }
{
    map_translation(unit, pair, lpi, collection)
}

// MAPI: the LPI has the event's number.
pub fn map_event(unit: ItsState, pair: Pair, collection: CollectionId) -> Result<ItsState, Refusal>
    ensures { result ≡ next unit (Mapi pair.device pair.event collection) }
{
    map_translation(unit, pair, LpiId(pair.event.0), collection)
}
