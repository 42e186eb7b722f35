// The parts of a record: its mark, its numbers, and the configuration of a CF.
ghost use Rattle.std.specs.Prelude.{◌≡◌, ◌++◌, ◌+◌, ◌*◌, ◌≤◌, ◌<◌, ◌^◌, length, take, replicate};
ghost use Rattle.model.specs.Trace.{number, numbers, config_read};
ghost use Rattle.trace.specs.Marks.{mark_of};

use crate::Mark;
use model::{GicVcpuId, ItsConfig};

// The mark with which the bytes begin.
#[tactic(auto, unfolding(crate::specs::Marks::mark_of))]
pub fn mark_at(bytes: &[u8]) -> Option<Mark>
    ensures { result ≡ mark_of bytes.now }
{
    match bytes {
        [b'C', b'F', ..] => Some(Mark::Cf),
        [b'G', b'M', ..] => Some(Mark::Gm),
        [b'R', b'D', ..] => Some(Mark::Rd),
        [b'W', b'R', ..] => Some(Mark::Wr),
        [b'T', b'R', ..] => Some(Mark::Tr),
        _ => None,
    }
}

// The number that `count` bytes from a place on are, the lowest first. It is made from the highest down.
pub fn number_at(bytes: &[u8], at: usize, count: usize) -> u64
    requires { (at + count ≤ length bytes.now) × (count ≤ 8) }
    ensures { (result ≡ number at count bytes.now) × (result < 256 ^ count) }
{
    let mut word = 0;
    for i in (0..count).rev() {
        word = 256 * word + u64::from(bytes[at + i]);
    }
    word
}

// The first sixteen of `count` processor numbers, which start at the place 16 of a CF.
fn processors_in(bytes: &[u8], count: usize) -> [GicVcpuId; 16]
    requires { 16 + 2 * count ≤ length bytes.now }
    ensures { result ≡ take 16 (numbers 16 count bytes.now ++ replicate 16 (record { 0 = 0 })) }
{
    let mut processors = [GicVcpuId(0); 16];
    for i in 0..count.min(16) {
        processors[i] = GicVcpuId(number_at(bytes, 16 + 2 * i, 2) as u16);
    }
    processors
}

// The configuration of a CF.
pub fn config_in(bytes: &[u8], count: u8) -> ItsConfig
    requires { (16 + 2 * count ≤ length bytes.now) × (count ≡ number 15 1 bytes.now) }
    ensures { result ≡ config_read bytes.now }
{
    ItsConfig {
        lpi_limit: number_at(bytes, 2, 4) as u32,
        command_budget: number_at(bytes, 6, 4) as u32,
        frame_size: number_at(bytes, 10, 4) as u32,
        profile: number_at(bytes, 14, 1) as u32,
        processor_count: count,
        processors: processors_in(bytes, count as usize),
    }
}
