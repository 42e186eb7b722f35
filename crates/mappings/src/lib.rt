// Which mappings are in force: what each record of the unit's tables stands for. The contracts are equations with specs/Mappings.antt, which lists the
// mappings of a unit in the order of its tables; proofs/ shows that the list is that of the history.
#![tactic(auto)]

ghost use Rattle.std.specs.Prelude.{◌≡◌, eqb, false};
ghost use Rattle.model.specs.Choose.{if_found};
ghost use Rattle.mappings.specs.Mappings.{mapping_at, mapped_at};

use model::{CollectionId, EventId, GicVcpuId, ItsDevice, ItsDeviceId, ItsState, LpiId, Pair};

// A pair in force, with its LPI, its collection and the processor of that.
#[derive(Clone, Copy, Debug, PartialEq, Eq)]
pub struct Mapping {
    pub device: ItsDeviceId,
    pub event: EventId,
    pub lpi: LpiId,
    pub collection: CollectionId,
    pub target: GicVcpuId,
}

// Whether a search that was made for the key of record `i` of a table ended there.
fn is_at(first: Option<usize>, i: usize) -> bool
    ensures { result ≡ if_found first (λ n. eqb n i) false }
{
    first == Some(i)
}

// What record `i` of the translations stands for.
pub fn mapping_at(unit: ItsState, i: usize) -> Option<Mapping>
    ensures { result ≡ mapping_at unit i }
{
    let entry = tables::at(&unit.translations, i);
    let pair = Pair {
        device: entry.device,
        event: entry.event,
    };
    if !is_at(tables::find(&unit.translations, pair), i) {
        return None;
    }
    let home = tables::look(&unit.collections, entry.collection)?;
    Some(Mapping {
        device: entry.device,
        event: entry.event,
        lpi: entry.lpi,
        collection: entry.collection,
        target: home.target,
    })
}

// The device that record `i` of the devices stands for, with its event bits.
pub fn device_at(unit: ItsState, i: usize) -> Option<ItsDevice>
    ensures { result ≡ mapped_at unit i }
{
    let entry = tables::at(&unit.devices, i);
    is_at(tables::find(&unit.devices, entry.device), i).then_some(entry)
}
