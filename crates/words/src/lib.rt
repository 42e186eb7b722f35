// The words of the ring, of a command and of the registers, taken apart and put together. The contract of each function says that its
// answer is that of a definition of the model, which names the field of Arm that is read.
#![tactic(auto)]

ghost use Rattle.std.specs.Prelude.{◌≡◌, drop, get_or};
ghost use Rattle.model.specs.Config.{queue_base, queue_size};
ghost use Rattle.model.specs.Decode.{opcode_of, device_field, event_field, event_bits_field, lpi_field, collection_field, processor_field, valid_field};
ghost use Rattle.model.specs.Queue.{little_endian, words_at, distance};
ghost use Rattle.model.specs.Register.{read_part, merged, bits_needed, typer_value};
ghost use Rattle.model.specs.Writing.{baser_after};
ghost use Rattle.model.specs.Step.{event_below};
ghost use Rattle.words.specs.Offsets.{wide_register_base, baser_index};

use model::{CollectionId, EventId, GicVcpuId, ItsDeviceId, LpiId};
use std::array;

// GITS_BASER n as a guest's write leaves it: the entry's size and the type are read only.
#[tactic(auto, unfolding(model::specs::Writing::baser_after))]
pub fn set_baser(present: u64, value: u64) -> u64
    ensures { result ≡ baser_after present value }
{
    let sizeless = value - value / 0x1_0000_0000_0000 % 32 * 0x1_0000_0000_0000;
    let cleared = sizeless - sizeless / 0x100_0000_0000_0000 % 8 * 0x100_0000_0000_0000;
    let typed = cleared + present / 0x100_0000_0000_0000 % 8 * 0x100_0000_0000_0000;
    typed + present / 0x1_0000_0000_0000 % 32 * 0x1_0000_0000_0000
}

// The bytes of the ring from the reader to the writer. No sum is made that could wrap, and no difference is below zero, whatever the numbers.
#[tactic(auto, unfolding(model::specs::Queue::distance))]
pub fn queue_distance(reader: u64, writer: u64, size: u64) -> u64
    ensures { result ≡ distance reader writer size }
{
    if reader <= writer {
        writer - reader
    } else {
        size.saturating_sub(reader - writer)
    }
}

// The bytes from a place on: none where the place is beyond the end.
fn bytes_from(bytes: &[u8], at: usize) -> &[u8]
    ensures { result.now ≡ drop at bytes.now }
{
    bytes.get(at..).unwrap_or(&[])
}

// The byte at a place: 0 beyond the end.
fn byte_at(bytes: &[u8], at: usize) -> u8
    ensures { result ≡ get_or bytes.now at 0 }
{
    bytes.get(at).copied().unwrap_or(0)
}

// The number that the first eight bytes are where fewer are there: a byte beyond the end is 0. It is apart, so that the calls of `word_at` stay small.
#[cold]
fn last_word(bytes: &[u8]) -> u64
    ensures { result ≡ little_endian 8 bytes.now }
{
    u64::from_le_bytes(array::from_fn(|i| byte_at(bytes, i)))
}

// The number that the eight bytes from a place on are, the lowest first: a byte beyond the end is 0.
pub fn word_at(bytes: &[u8], at: usize) -> u64
    ensures { result ≡ little_endian 8 (drop at bytes.now) }
{
    let there = bytes_from(bytes, at);
    match there.first_chunk() {
        Some(eight) => u64::from_le_bytes(*eight),
        None => last_word(there),
    }
}

// The four words that bytes begin with.
fn four_words(bytes: &[u8]) -> [u64; 4]
    ensures { result ≡ words_at bytes.now 0 }
{
    [
        word_at(bytes, 0),
        word_at(bytes, 8),
        word_at(bytes, 16),
        word_at(bytes, 24),
    ]
}

// The four words of the command whose first byte is at a place: a byte beyond the end is 0. Where all 32 are there, as wherever a run reads a command,
// one test serves the four words.
#[tactic(auto, using(crate::proofs::LittleEndian::words_from))]
pub fn decode_words(bytes: &[u8], at: usize) -> [u64; 4]
    ensures { result ≡ words_at bytes.now at }
{
    let there = bytes_from(bytes, at);
    match there.first_chunk::<32>() {
        Some(command) => four_words(command),
        None => four_words(there),
    }
}

// GITS_CBASER: where the ring stands, and its size in bytes.
pub fn queue_base(cbaser: u64) -> u64
    ensures { result ≡ queue_base cbaser }
{
    cbaser / 0x1000 % 0x100_0000_0000 * 0x1000
}

pub fn queue_size(cbaser: u64) -> u64
    ensures { result ≡ queue_size cbaser }
{
    (cbaser % 0x100 + 1) * 0x1000
}

// The fields of a command.
pub fn opcode(words: [u64; 4]) -> u8
    ensures { result ≡ opcode_of words }
{
    (words[0] % 0x100) as u8
}

pub fn device(words: [u64; 4]) -> ItsDeviceId
    ensures { result ≡ device_field words }
{
    ItsDeviceId((words[0] / 0x1_0000_0000 % 0x1_0000_0000) as u32)
}

pub fn event(words: [u64; 4]) -> EventId
    ensures { result ≡ event_field words }
{
    EventId((words[1] % 0x1_0000_0000) as u32)
}

pub fn event_bits(words: [u64; 4]) -> u8
    ensures { result ≡ event_bits_field words }
{
    (words[1] % 32 + 1) as u8
}

pub fn lpi(words: [u64; 4]) -> LpiId
    ensures { result ≡ lpi_field words }
{
    LpiId((words[1] / 0x1_0000_0000 % 0x1_0000_0000) as u32)
}

pub fn collection(words: [u64; 4]) -> CollectionId
    ensures { result ≡ collection_field words }
{
    CollectionId((words[2] % 0x1_0000) as u16)
}

pub fn target(words: [u64; 4]) -> GicVcpuId
    ensures { result ≡ processor_field words }
{
    GicVcpuId((words[2] / 0x1_0000 % 0x1_0000) as u16)
}

pub fn valid(words: [u64; 4]) -> bool
    ensures { result ≡ valid_field words }
{
    words[2] / 0x8000_0000_0000_0000 % 2 == 1
}

// The base of the 64-bit register that an offset lies in.
#[tactic(auto, unfolding(crate::specs::Offsets::wide_register_base))]
pub fn wide_register_base(offset: u64) -> Option<u64>
    ensures { result ≡ wide_register_base offset }
{
    match offset {
        0x8..0x10 => Some(0x8),
        0x80..0x88 => Some(0x80),
        0x88..0x90 => Some(0x88),
        0x90..0x98 => Some(0x90),
        0x100..0x140 => Some(offset / 8 * 8),
        _ => None,
    }
}

// What an access of a width reads of a 64-bit register.
#[tactic(auto, unfolding(model::specs::Register::read_part))]
pub fn read_wide_register(value: u64, offset: u64, width: u8) -> u64
    ensures { result ≡ read_part offset width value }
{
    if width == 8 {
        return value;
    }
    if offset % 8 == 0 {
        value % 0x1_0000_0000
    } else {
        value / 0x1_0000_0000 % 0x1_0000_0000
    }
}

// What a write of a width makes of a 64-bit register: a narrow one leaves the other half.
#[tactic(auto, unfolding(model::specs::Register::merged))]
pub fn merge_wide_register(current: u64, offset: u64, width: u8, value: u64) -> u64
    ensures { result ≡ merged offset width current value }
{
    if width == 8 {
        return value;
    }
    let low = value % 0x1_0000_0000;
    if offset % 8 == 0 {
        current / 0x1_0000_0000 % 0x1_0000_0000 * 0x1_0000_0000 + low
    } else {
        low * 0x1_0000_0000 + current % 0x1_0000_0000
    }
}

// The number of the BASER that an offset lies in.
#[tactic(auto, unfolding(crate::specs::Offsets::baser_index))]
pub fn baser_index(offset: u64) -> Option<usize>
    ensures { result ≡ baser_index offset }
{
    match offset {
        0x100..0x140 => Some(((offset - 0x100) / 8) as usize),
        _ => None,
    }
}

// How many bits a number needs.
fn bits_needed(n: u32) -> u32
    ensures { result ≡ bits_needed 32 n }
{
    32 - n.leading_zeros()
}

// GITS_TYPER: physical LPIs, ITT entries of 8 bytes, the event bits that the limit needs, 16 device bits. Each count is stored minus 1;
// a limit of 0, which no configuration has, needs no bits and is stored as 0.
#[tactic(auto, unfolding(model::specs::Register::typer_value))]
pub fn its_typer(lpi_limit: u32) -> u64
    ensures { result ≡ typer_value lpi_limit }
{
    let id_bits = bits_needed(lpi_limit).saturating_sub(1);
    1 + 7 * 16 + u64::from(id_bits) * 256 + 15 * 8192
}

// Event below 2^bits.
#[tactic(auto, unfolding(model::specs::Step::event_below))]
pub fn event_below(event_bits: u8, event: EventId) -> bool
    ensures { result ≡ event_below event_bits event }
{
    if 32 <= event_bits {
        return true;
    }
    u64::from(event.0) < 1u64 << event_bits
}
