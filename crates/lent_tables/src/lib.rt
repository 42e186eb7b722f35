// The unit as numbers that a host owns and lends: which unit they are is said in specs/Numbers.antt. No word of it is copied to change
// one of them. Here are its parts; records.rt has the searches and drops.
// Stays: numbers at fixed places, the goals apart from their keys, are the layout that the C interface lends (include/its.h); and the same parts stand by
// value in crate `tables`, since two texts are a rule of the project (tools/towers.sh).
#![tactic(auto)]

pub mod records;

ghost use Rattle.std.specs.Prelude.{◌≡◌, true, [], ◌∷◌, ◌*◌, ◌+◌, ◌%◌, ◌^◌, ◌<◌, set, if◌then◌else◌};
ghost use Rattle.model.specs.With.{with_config, with_registers, with_devices, with_collections, with_translations, with_processors};
ghost use Rattle.model.specs.Config.{no_config};
ghost use Rattle.model.specs.Register.{one_if};
ghost use Rattle.model.specs.Queue.{past_command, stall as stallOf};
ghost use Rattle.lent_tables.specs.Numbers.{
  NUMBERS,
  CREADR,
  device_records,
  collection_records,
  pair_records,
  is_used,
  processor_in,
  processor_at,
  device_in,
  collection_in,
  translation_in,
  word,
  rows,
  laid_out,
  setting_at,
  config_at,
  config_in,
  registers_in,
  devices_in,
  collections_in,
  translations_in,
  unit_in,
};

use model::{
    CollectionId, EventId, GicVcpuId, ItsCollection, ItsConfig, ItsDevice, ItsDeviceId,
    ItsRegisters, LpiId, Pair, Translation,
};
use std::array;

// How many numbers there are, and where each part begins. specs/Numbers.antt says what stands there, under the same names.
pub const NUMBERS: usize = 608;

pub const LAYOUT: usize = 0;

pub const LAYOUT_NUMBER: u64 = 2;

pub const LPI_LIMIT: usize = 1;

pub const COMMAND_BUDGET: usize = 2;

pub const FRAME_SIZE: usize = 3;

pub const PROFILE: usize = 4;

pub const PROCESSOR_COUNT: usize = 5;

pub const PROCESSORS: usize = 6;

pub const STALLED: usize = 19;

pub const ENABLED: usize = 20;

pub const CBASER: usize = 21;

pub const CREADR: usize = 22;

pub const CWRITER: usize = 23;

pub const BASERS: usize = 24;

pub const DEVICES: usize = 32;

pub const COLLECTIONS: usize = 64;

pub const KEYS: usize = 96;

pub const GOALS: usize = 352;

// How many records each table has.
pub const DEVICE_RECORDS: usize = 32;

pub const COLLECTION_RECORDS: usize = 32;

pub const PAIR_RECORDS: usize = 256;

pub type Numbers = [u64; NUMBERS];

fn low32(w: u64) -> u32
    ensures { result ≡ w % 2 ^ 32 }
{
    (w % 0x1_0000_0000) as u32
}

fn low16(w: u64) -> u16
    ensures { result ≡ w % 2 ^ 16 }
{
    (w % 0x1_0000) as u16
}

fn processor_in(w: u64) -> GicVcpuId
    ensures { result ≡ processor_in w }
{
    GicVcpuId(low16(w))
}

fn processor_at(w: u64, i: usize) -> GicVcpuId
    requires { i < 4 }
    ensures { result ≡ processor_at w i }
{
    processor_in(w >> (16 * i))
}

// Whether a record is used.
pub fn is_used(w: u64) -> bool
    ensures { result ≡ is_used w }
{
    0x8000_0000_0000_0000 <= w
}

#[tactic(auto, unfolding(crate::specs::Numbers::device_in))]
pub fn device_in(w: u64) -> ItsDevice
    ensures { result ≡ device_in w }
{
    ItsDevice {
        device: ItsDeviceId(low32(w)),
        event_bits: (w / 0x1_0000_0000 % 0x100) as u8,
        used: is_used(w),
    }
}

#[tactic(auto, unfolding(crate::specs::Numbers::collection_in))]
pub fn collection_in(w: u64) -> ItsCollection
    ensures { result ≡ collection_in w }
{
    ItsCollection {
        collection: CollectionId(low16(w)),
        target: processor_in(w / 0x1_0000),
        used: is_used(w),
    }
}

#[tactic(auto, unfolding(crate::specs::Numbers::translation_in))]
pub fn translation_in(key: u64, goal: u64) -> Translation
    ensures { result ≡ translation_in key goal }
{
    Translation {
        device: ItsDeviceId((key / 0x1_0000_0000) as u32),
        event: EventId(low32(key)),
        lpi: LpiId(low32(goal)),
        collection: CollectionId(low16(goal / 0x1_0000_0000)),
        used: is_used(goal),
    }
}

// The words of a record.
fn used_word(used: bool) -> u64
    ensures { result ≡ (if used then 2 ^ 63 else 0) }
{
    u64::from(used) * 0x8000_0000_0000_0000
}

// Four processors in a word, the first lowest.
// Stays: four parameters. Of a part of an array behind a reference the check does not know that each number fits, and its bounds stayed open.
fn packed(a: GicVcpuId, b: GicVcpuId, c: GicVcpuId, d: GicVcpuId) -> u64
    ensures { rows 4 (processor_at result) ≡ (a ∷ b ∷ c ∷ d ∷ []) }
{
    d.0 as u64 * 0x1_0000_0000_0000
        + c.0 as u64 * 0x1_0000_0000
        + b.0 as u64 * 0x1_0000
        + a.0 as u64
}

#[tactic(auto, using(crate::proofs::Fields::device_made))]
fn device_word(r: ItsDevice) -> u64
    ensures { device_in result ≡ r }
{
    used_word(r.used) + r.event_bits as u64 * 0x1_0000_0000 + r.device.0 as u64
}

#[tactic(auto, using(crate::proofs::Fields::collection_made))]
fn collection_word(r: ItsCollection) -> u64
    ensures { collection_in result ≡ r }
{
    used_word(r.used) + r.target.0 as u64 * 0x1_0000 + r.collection.0 as u64
}

pub fn key_of(pair: Pair) -> u64
    ensures { result ≡ pair.device.0 * 2 ^ 32 + pair.event.0 }
{
    pair.device.0 as u64 * 0x1_0000_0000 + pair.event.0 as u64
}

#[tactic(auto, using(crate::proofs::Fields::goal_made))]
fn goal_word(r: Translation) -> u64
    ensures { translation_in (r.device.0 * 2 ^ 32 + r.event.0) result ≡ r }
{
    used_word(r.used) + r.collection.0 as u64 * 0x1_0000_0000 + r.lpi.0 as u64
}

// Configuration and registers. Under another layout the configuration is that of a unit that has none.
pub fn is_laid_out(state: &Numbers) -> bool
    ensures { result ≡ laid_out state.now }
{
    state[LAYOUT] == LAYOUT_NUMBER
}

// A number of the configuration.
fn setting(state: &Numbers, at: usize) -> u32
    requires { at < NUMBERS }
    ensures { result ≡ setting_at state.now at }
{
    if is_laid_out(state) {
        low32(state[at])
    } else {
        0
    }
}

// Stays: a function each, for each promises its field of the configuration; `setting` is what they share.
#[tactic(auto, using(crate::proofs::Parts::limit_is))]
pub fn lpi_limit_in(state: &Numbers) -> u32
    ensures { result ≡ (config_in state.now).lpi_limit }
{
    setting(state, LPI_LIMIT)
}

#[tactic(auto, using(crate::proofs::Parts::budget_is))]
pub fn command_budget_in(state: &Numbers) -> u32
    ensures { result ≡ (config_in state.now).command_budget }
{
    setting(state, COMMAND_BUDGET)
}

#[tactic(auto, using(crate::proofs::Parts::profile_is))]
pub fn profile_in(state: &Numbers) -> u32
    ensures { result ≡ (config_in state.now).profile }
{
    setting(state, PROFILE)
}

fn no_config() -> ItsConfig
    ensures { result ≡ no_config }
{
    ItsConfig {
        lpi_limit: 0,
        command_budget: 0,
        frame_size: 0,
        profile: 0,
        processor_count: 0,
        processors: [GicVcpuId(0); 16],
    }
}

fn config_at(state: &Numbers) -> ItsConfig
    ensures { result ≡ config_at state.now }
{
    ItsConfig {
        lpi_limit: low32(state[LPI_LIMIT]),
        command_budget: low32(state[COMMAND_BUDGET]),
        frame_size: low32(state[FRAME_SIZE]),
        profile: low32(state[PROFILE]),
        processor_count: (state[PROCESSOR_COUNT] % 0x100) as u8,
        processors: array::from_fn(|i| processor_at(state[PROCESSORS + i / 4], i % 4)),
    }
}

#[tactic(auto, using(crate::proofs::Parts::config_there, crate::proofs::Parts::config_none))]
pub fn config_in(state: &Numbers) -> ItsConfig
    ensures { result ≡ config_in state.now }
{
    if is_laid_out(state) {
        config_at(state)
    } else {
        no_config()
    }
}

pub fn registers_in(state: &Numbers) -> ItsRegisters
    ensures { result ≡ registers_in state.now }
{
    ItsRegisters {
        enabled: state[ENABLED] % 2 == 1,
        stalled: state[STALLED] % 2 == 1,
        cbaser: state[CBASER],
        creadr: state[CREADR],
        cwriter: state[CWRITER],
        basers: array::from_fn(|i| state[BASERS + i]),
    }
}

fn put_processors(state: &mut Numbers, processors: [GicVcpuId; 16])
    requires { laid_out state.old ≡ true }
    ensures { unit_in state.new ≡ with_config (unit_in state.old) (with_processors (config_in state.old) processors) }
{
    state[PROCESSORS] = packed(processors[0], processors[1], processors[2], processors[3]);
    state[PROCESSORS + 1] = packed(processors[4], processors[5], processors[6], processors[7]);
    state[PROCESSORS + 2] = packed(processors[8], processors[9], processors[10], processors[11]);
    state[PROCESSORS + 3] = packed(
        processors[12],
        processors[13],
        processors[14],
        processors[15],
    );
}

#[tactic(auto, using(crate::proofs::Parts::begins, crate::proofs::Parts::config_put))]
pub fn put_config(state: &mut Numbers, config: ItsConfig)
    ensures { unit_in state.new ≡ with_config (unit_in state.old) config }
{
    state[LAYOUT] = LAYOUT_NUMBER;
    state[LPI_LIMIT] = config.lpi_limit as u64;
    state[COMMAND_BUDGET] = config.command_budget as u64;
    state[FRAME_SIZE] = config.frame_size as u64;
    state[PROFILE] = config.profile as u64;
    state[PROCESSOR_COUNT] = config.processor_count as u64;
    put_processors(state, config.processors);
}

fn bit_word(set: bool) -> u64
    ensures { result ≡ one_if set }
{
    u64::from(set)
}

// Stays: the eight BASER one by one. Copied as a slice they stand in memory in each part of a write, and its_write needs 300 bytes of stack more.
pub fn put_registers(state: &mut Numbers, registers: ItsRegisters)
    ensures { unit_in state.new ≡ with_registers (unit_in state.old) registers }
{
    state[STALLED] = bit_word(registers.stalled);
    state[ENABLED] = bit_word(registers.enabled);
    state[CBASER] = registers.cbaser;
    state[CREADR] = registers.creadr;
    state[CWRITER] = registers.cwriter;
    state[BASERS] = registers.basers[0];
    state[BASERS + 1] = registers.basers[1];
    state[BASERS + 2] = registers.basers[2];
    state[BASERS + 3] = registers.basers[3];
    state[BASERS + 4] = registers.basers[4];
    state[BASERS + 5] = registers.basers[5];
    state[BASERS + 6] = registers.basers[6];
    state[BASERS + 7] = registers.basers[7];
}

// CREADR passes a command.
#[tactic(auto, using(crate::proofs::Parts::creadr_put), unfolding(crate::specs::Numbers::registers_in))]
pub fn pass_command(state: &mut Numbers)
    requires { word state.old CREADR < 2 ^ 32 }
    ensures { unit_in state.new ≡ with_registers (unit_in state.old) (past_command (registers_in state.old)) }
{
    let size = words::queue_size(state[CBASER]);
    state[CREADR] = (state[CREADR] + 32) % size;
}

// A refused command stalls the unit, in strict.
#[tactic(auto, using(crate::proofs::Parts::stalled_put, crate::proofs::Parts::stalled_not))]
pub fn stall(state: &mut Numbers)
    ensures { unit_in state.new ≡ stallOf (unit_in state.old) }
{
    if profile_in(state) == 1 {
        state[STALLED] = 1;
    }
}

// A record of a table, stored.
#[tactic(auto, using(crate::proofs::RecordsAt::store_device_lem))]
pub fn put_device(state: &mut Numbers, at: usize, r: ItsDevice)
    requires { at < device_records }
    ensures { unit_in state.new ≡ with_devices (unit_in state.old) (set (devices_in state.old) at r) }
{
    state[DEVICES + at] = device_word(r);
}

#[tactic(auto, using(crate::proofs::RecordsAt::store_collection_lem))]
pub fn put_collection(state: &mut Numbers, at: usize, r: ItsCollection)
    requires { at < collection_records }
    ensures { unit_in state.new ≡ with_collections (unit_in state.old) (set (collections_in state.old) at r) }
{
    state[COLLECTIONS + at] = collection_word(r);
}

#[tactic(auto, using(crate::proofs::RecordsAt::store_translation_lem))]
pub fn put_translation(state: &mut Numbers, at: usize, r: Translation)
    requires { at < pair_records }
    ensures { unit_in state.new ≡ with_translations (unit_in state.old) (set (translations_in state.old) at r) }
{
    state[KEYS + at] = key_of(Pair {
        device: r.device,
        event: r.event,
    });
    state[GOALS + at] = goal_word(r);
}
