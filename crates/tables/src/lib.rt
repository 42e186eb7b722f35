// The three tables: where the record of a key is or would go, and dropping. A table is an array of records. What the records of a table have in
// common is a trait, and the contract of each function says that its answer is that of a definition of the model.
#![tactic(auto)]

ghost use Rattle.std.specs.Prelude.{◌≡◌, Bool, not, get_or};
ghost use Rattle.model.specs.Table.{first_at, among, look, place, drop_all};
ghost use Rattle.model.specs.Keys.{is_device, is_collection, is_pair, of_device, no_device, no_collection, no_translation};
ghost use Rattle.model.specs.Step.{pair_in};

use model::{
    CollectionId, EventId, GicVcpuId, ItsCollection, ItsDevice, ItsDeviceId, LpiId, Pair,
    Translation,
};

// A record is used or free, and a free one holds nothing.
pub trait Record: Copy {
    ghost used: { Self → Bool };

    ghost free: { Self };

    fn is_used(&self) -> bool
        ensures { result ≡ used self.now };

    fn free() -> Self
        ensures { result ≡ free };
}

// A record that is found by a key: whether it is one of that key.
pub trait Keyed<K>: Record {
    ghost is: { K → Self → Bool };

    fn is(&self, key: K) -> bool
        ensures { result ≡ is key self.now };
}

impl Record for ItsDevice {
    ghost used = { λ d. d.used };

    ghost free = { no_device };

    fn is_used(&self) -> bool {
        self.used
    }

    fn free() -> Self {
        ItsDevice {
            device: ItsDeviceId(0),
            event_bits: 0,
            used: false,
        }
    }
}

impl Record for ItsCollection {
    ghost used = { λ k. k.used };

    ghost free = { no_collection };

    fn is_used(&self) -> bool {
        self.used
    }

    fn free() -> Self {
        ItsCollection {
            collection: CollectionId(0),
            target: GicVcpuId(0),
            used: false,
        }
    }
}

impl Record for Translation {
    ghost used = { λ t. t.used };

    ghost free = { no_translation };

    fn is_used(&self) -> bool {
        self.used
    }

    fn free() -> Self {
        Translation {
            device: ItsDeviceId(0),
            event: EventId(0),
            lpi: LpiId(0),
            collection: CollectionId(0),
            used: false,
        }
    }
}

impl Keyed<ItsDeviceId> for ItsDevice {
    ghost is = { is_device };

    fn is(&self, key: ItsDeviceId) -> bool {
        self.used && self.device == key
    }
}

impl Keyed<CollectionId> for ItsCollection {
    ghost is = { is_collection };

    fn is(&self, key: CollectionId) -> bool {
        self.used && self.collection == key
    }
}

impl Keyed<Pair> for Translation {
    ghost is = { λ p. is_pair p.device p.event };

    fn is(&self, pair: Pair) -> bool {
        self.used && self.device == pair.device && self.event == pair.event
    }
}

// The translations of a device, whatever their event.
impl Keyed<ItsDeviceId> for Translation {
    ghost is = { of_device };

    fn is(&self, device: ItsDeviceId) -> bool {
        self.used && self.device == device
    }
}

// The number of the record that counts.
pub fn find<K: Copy, R: Keyed<K>, const N: usize>(table: &[R; N], key: K) -> Option<usize>
    ensures { result ≡ among table.now (first_at (R.is key) table.now) }
{
    table.iter().position(|r| r.is(key))
}

// The record that counts.
pub fn look<K: Copy, R: Keyed<K>, const N: usize>(table: &[R; N], key: K) -> Option<R>
    ensures { result ≡ look (R.is key) table.now }
{
    table.iter().find(|r| r.is(key)).copied()
}

// The number of the first free record.
fn first_free<R: Record, const N: usize>(table: &[R; N]) -> Option<usize>
    ensures { result ≡ among table.now (first_at (λ r. not (R.used r)) table.now) }
{
    table.iter().position(|r| !r.is_used())
}

// The place where the record of a key is or would go: its own, or the lowest-numbered free one.
#[tactic(auto, using(crate::proofs::Laws::place_held, crate::proofs::Laws::place_new))]
pub fn place<K: Copy, R: Keyed<K>, const N: usize>(table: &[R; N], key: K) -> Option<usize>
    ensures { result ≡ among table.now (place (R.is key) R.used table.now) }
{
    match find(table, key) {
        Some(held) => Some(held),
        None => first_free(table),
    }
}

// What stands at a place; beyond the table, a free record.
pub fn at<R: Record, const N: usize>(table: &[R; N], i: usize) -> R
    ensures { result ≡ get_or table.now i R.free }
{
    table.get(i).copied().unwrap_or(R::free())
}

// Dropping frees every record that passes.
#[tactic(auto, using(crate::proofs::Laws::dropping))]
pub fn drop_all<K: Copy, R: Keyed<K>, const N: usize>(table: [R; N], key: K) -> [R; N]
    ensures { result ≡ drop_all (R.is key) R.free table }
{
    let mut left = table;
    for r in &mut left {
        if r.is(key) {
            *r = R::free();
        }
    }
    left
}

// Whether the pair of a record is in the collection: the record of the pair that counts says so.
fn pair_in(translations: &[Translation; 256], t: Translation, collection: CollectionId) -> bool
    ensures { result ≡ pair_in collection translations.now t }
{
    let pair = Pair {
        device: t.device,
        event: t.event,
    };
    t.used && look(translations, pair).is_some_and(|r| r.collection == collection)
}

// Stays: a drop of its own, no plainer as the generic one: what it asks of a record is asked of the whole table, which a key would have to lend.
#[tactic(auto, using(crate::proofs::Laws::dropping))]
pub fn drop_translations_in(
    translations: [Translation; 256],
    collection: CollectionId,
) -> [Translation; 256]
    ensures { result ≡ drop_all (pair_in collection translations) no_translation translations }
{
    let mut left = translations;
    for t in &mut left {
        if pair_in(&translations, *t, collection) {
            *t = Translation::free();
        }
    }
    left
}
