// The three tables of a unit that is lent as numbers: where the record of a key is or would go, and dropping.
ghost use Rattle.std.specs.Prelude.{◌≡◌, ℕ, Bool, not, [], ◌∷◌, ◌+◌, ◌/◌, ◌%◌, ◌^◌, ◌≤◌, ◌<◌, get_or, set};
ghost use Rattle.std.specs.List.{position};
ghost use Rattle.model.specs.declared.Translation.{Translation};
ghost use Rattle.model.specs.Table.{first_at, among, look, place, drop_all};
ghost use Rattle.model.specs.Keys.{is_device, is_collection, is_pair, of_device, no_device, no_collection, no_translation};
ghost use Rattle.model.specs.With.{with_devices, with_collections, with_translations};
ghost use Rattle.model.specs.Step.{pair_in};
ghost use Rattle.lent_tables.specs.Numbers.{device_records, collection_records, pair_records, is_used, device_in, collection_in, translation_in, devices_in, collections_in, translations_in, unit_in};

use crate::{COLLECTIONS, DEVICES, GOALS, KEYS, Numbers, PAIR_RECORDS};
use model::{CollectionId, ItsCollection, ItsDevice, ItsDeviceId, Pair, Translation};

// What the record of a device or of a collection is found by: whether a word is one.
trait Key: Copy {
    ghost is: { Self → ℕ → Bool };

    fn is(&self, w: u64) -> bool
        ensures { result ≡ is self.now w };
}

impl Key for ItsDeviceId {
    ghost is = { λ d w. is_device d (device_in w) };

    fn is(&self, w: u64) -> bool {
        let r = crate::device_in(w);
        r.used && r.device == *self
    }
}

impl Key for CollectionId {
    ghost is = { λ c w. is_collection c (collection_in w) };

    fn is(&self, w: u64) -> bool {
        let r = crate::collection_in(w);
        r.used && r.collection == *self
    }
}

// What the record of a pair is found by: whether its two words are one. Most often the key is another, which is asked first.
trait PairKey: Copy {
    ghost is: { Self → Translation → Bool };

    fn is(self, key: u64, goal: u64) -> bool
        ensures { result ≡ is self (translation_in key goal) };
}

impl PairKey for Pair {
    ghost is = { λ p. is_pair p.device p.event };

    fn is(self, key: u64, goal: u64) -> bool {
        key == crate::key_of(self) && crate::is_used(goal)
    }
}

// The pairs of a device, whatever their event.
impl PairKey for ItsDeviceId {
    ghost is = { of_device };

    #[tactic(auto, unfolding(crate::specs::Numbers::translation_in))]
    fn is(self, key: u64, goal: u64) -> bool {
        key / 0x1_0000_0000 == self.0 as u64 && crate::is_used(goal)
    }
}

// The first of the words that is a record of the key, and the first that is free.
fn find<K: Key>(words: &[u64], key: K) -> Option<usize>
    ensures { result ≡ position (K.is key) words.now }
{
    words.iter().position(|w| key.is(*w))
}

fn first_free(words: &[u64]) -> Option<usize>
    ensures { result ≡ position (λ w. not (is_used w)) words.now }
{
    words.iter().position(|w| !crate::is_used(*w))
}

// The number of the record that counts.
// Stays: one function a table from here on, no plainer as one: each is a line over what is generic, and its contract names its table's part of the unit.
#[tactic(auto, using(crate::proofs::Slices::device_found))]
pub fn find_device(state: &Numbers, device: ItsDeviceId) -> Option<usize>
    ensures { result ≡ among (devices_in state.now) (first_at (is_device device) (devices_in state.now)) }
{
    find(&state[DEVICES..COLLECTIONS], device)
}

#[tactic(auto, using(crate::proofs::Slices::collection_found))]
pub fn find_collection(state: &Numbers, collection: CollectionId) -> Option<usize>
    ensures { result ≡ among (collections_in state.now) (first_at (is_collection collection) (collections_in state.now)) }
{
    find(&state[COLLECTIONS..KEYS], collection)
}

// A function of its own in the compiled code: merged into its callers it made MOVI and MAPTI a fifth to a half slower.
#[inline(never)]
pub fn find_pair(state: &Numbers, pair: Pair) -> Option<usize>
    ensures { result ≡ among (translations_in state.now) (first_at (is_pair pair.device pair.event) (translations_in state.now)) }
{
    state[KEYS..GOALS]
        .iter()
        .zip(&state[GOALS..])
        .position(|(key, goal)| pair.is(*key, *goal))
}

// The place where the record of a key is or would go: its own, or the lowest-numbered free one.
#[tactic(auto, using(crate::proofs::Slices::place_held, crate::proofs::Slices::device_placed))]
pub fn place_of_device(state: &Numbers, device: ItsDeviceId) -> Option<usize>
    ensures { result ≡ among (devices_in state.now) (place (is_device device) (λ a. a.used) (devices_in state.now)) }
{
    match find_device(state, device) {
        Some(held) => Some(held),
        None => first_free(&state[DEVICES..COLLECTIONS]),
    }
}

#[tactic(auto, using(crate::proofs::Slices::place_held, crate::proofs::Slices::collection_placed))]
pub fn place_of_collection(state: &Numbers, collection: CollectionId) -> Option<usize>
    ensures { result ≡ among (collections_in state.now) (place (is_collection collection) (λ a. a.used) (collections_in state.now)) }
{
    match find_collection(state, collection) {
        Some(held) => Some(held),
        None => first_free(&state[COLLECTIONS..KEYS]),
    }
}

#[tactic(auto, using(crate::proofs::Slices::place_held, crate::proofs::Slices::translation_placed))]
pub fn place_of_pair(state: &Numbers, pair: Pair) -> Option<usize>
    ensures { result ≡ among (translations_in state.now) (place (is_pair pair.device pair.event) (λ a. a.used) (translations_in state.now)) }
{
    match find_pair(state, pair) {
        Some(held) => Some(held),
        None => first_free(&state[GOALS..]),
    }
}

// What stands at a place of a table.
#[tactic(auto, using(crate::proofs::RecordsAt::devices_at))]
pub fn device_at(state: &Numbers, at: usize) -> ItsDevice
    requires { at < device_records }
    ensures { result ≡ get_or (devices_in state.now) at no_device }
{
    crate::device_in(state[DEVICES + at])
}

#[tactic(auto, using(crate::proofs::RecordsAt::collections_at))]
pub fn collection_at(state: &Numbers, at: usize) -> ItsCollection
    requires { at < collection_records }
    ensures { result ≡ get_or (collections_in state.now) at no_collection }
{
    crate::collection_in(state[COLLECTIONS + at])
}

#[tactic(auto, using(crate::proofs::RecordsAt::translations_at))]
pub fn translation_at(state: &Numbers, at: usize) -> Translation
    requires { at < pair_records }
    ensures { result ≡ get_or (translations_in state.now) at no_translation }
{
    crate::translation_in(state[KEYS + at], state[GOALS + at])
}

// The record of a key that counts.
#[tactic(auto, using(crate::proofs::Slices::inside, crate::proofs::Slices::look_there, crate::proofs::Slices::look_nowhere, crate::proofs::RecordsAt::devices_length))]
pub fn look_device(state: &Numbers, device: ItsDeviceId) -> Option<ItsDevice>
    ensures { result ≡ look (is_device device) (devices_in state.now) }
{
    let at = find_device(state, device)?;
    Some(device_at(state, at))
}

#[tactic(auto, using(crate::proofs::Slices::inside, crate::proofs::Slices::look_there, crate::proofs::Slices::look_nowhere, crate::proofs::RecordsAt::collections_length))]
pub fn look_collection(state: &Numbers, collection: CollectionId) -> Option<ItsCollection>
    ensures { result ≡ look (is_collection collection) (collections_in state.now) }
{
    let at = find_collection(state, collection)?;
    Some(collection_at(state, at))
}

#[tactic(auto, using(crate::proofs::Slices::inside, crate::proofs::Slices::look_there, crate::proofs::Slices::look_nowhere, crate::proofs::RecordsAt::translations_length))]
pub fn look_pair(state: &Numbers, pair: Pair) -> Option<Translation>
    ensures { result ≡ look (is_pair pair.device pair.event) (translations_in state.now) }
{
    let at = find_pair(state, pair)?;
    Some(translation_at(state, at))
}

// Dropping frees every record that passes. A free record is 0.
#[tactic(auto, using(crate::proofs::Slices::dropping))]
fn drop_words<K: Key>(words: &mut [u64], key: K)
    ensures { words.new ≡ drop_all (K.is key) 0 words.old }
{
    for w in words {
        if key.is(*w) {
            *w = 0;
        }
    }
}

#[tactic(auto, using(crate::proofs::Slices::devices_dropped))]
pub fn drop_devices(state: &mut Numbers, device: ItsDeviceId)
    ensures { unit_in state.new ≡ with_devices (unit_in state.old) (drop_all (is_device device) no_device (devices_in state.old)) }
{
    drop_words(&mut state[DEVICES..COLLECTIONS], device);
}

#[tactic(auto, using(crate::proofs::Slices::collections_dropped))]
pub fn drop_collections(state: &mut Numbers, collection: CollectionId)
    ensures { unit_in state.new ≡ with_collections (unit_in state.old) (drop_all (is_collection collection) no_collection (collections_in state.old)) }
{
    drop_words(&mut state[COLLECTIONS..KEYS], collection);
}

#[tactic(auto, using(crate::proofs::RecordsAt::store_translation_lem, crate::proofs::Fields::zero_translation))]
fn free_pair(state: &mut Numbers, at: usize)
    requires { at < pair_records }
    ensures { unit_in state.new ≡ with_translations (unit_in state.old) (set (translations_in state.old) at no_translation) }
{
    state[KEYS + at] = 0;
    state[GOALS + at] = 0;
}

#[tactic(auto, using(crate::proofs::Drops::dropping))]
fn drop_translations<K: PairKey>(state: &mut Numbers, key: K)
    ensures { unit_in state.new ≡ with_translations (unit_in state.old) (drop_all (K.is key) no_translation (translations_in state.old)) }
{
    for i in 0..PAIR_RECORDS {
        if key.is(state[KEYS + i], state[GOALS + i]) {
            free_pair(state, i);
        }
    }
}

pub fn drop_pairs(state: &mut Numbers, pair: Pair)
    ensures { unit_in state.new ≡ with_translations (unit_in state.old) (drop_all (is_pair pair.device pair.event) no_translation (translations_in state.old)) }
{
    drop_translations(state, pair);
}

pub fn drop_translations_of(state: &mut Numbers, device: ItsDeviceId)
    ensures { unit_in state.new ≡ with_translations (unit_in state.old) (drop_all (of_device device) no_translation (translations_in state.old)) }
{
    drop_translations(state, device);
}

// Whether the pair of a record is in the collection: the record of the pair that counts says so.
fn pair_in(state: &Numbers, at: usize, collection: CollectionId) -> bool
    requires { at < pair_records }
    ensures { result ≡ pair_in collection (translations_in state.now) (get_or (translations_in state.now) at no_translation) }
{
    let t = translation_at(state, at);
    let pair = Pair {
        device: t.device,
        event: t.event,
    };
    t.used && look_pair(state, pair).is_some_and(|r| r.collection == collection)
}

// From the last record down: whether a record goes is asked of the records up to it, which still stand as they did.
pub fn drop_translations_in(state: &mut Numbers, collection: CollectionId)
    ensures { unit_in state.new ≡ with_translations (unit_in state.old) (drop_all (pair_in collection (translations_in state.old)) no_translation (translations_in state.old)) }
{
    for at in (0..PAIR_RECORDS).rev() {
        if pair_in(state, at, collection) {
            free_pair(state, at);
        }
    }
}
