// The guest's page of commands, the unit of document 01's example, and the calls of its host.
ghost use Rattle.std.specs.Prelude.{◌≡◌, ◌+◌, ◌≤◌};
ghost use Rattle.model.specs.Corners.{with_limit, fresh as fresh_of};
ghost use Rattle.its.specs.Promises.{WritesLent};
ghost use Rattle.showing.specs.Guest.{ring_in, set_to, enabled_with, example_with};

use crate::show::Sheet;
use its::WrittenRow;
use model::{EventId, GicVcpuId, ItsConfig, ItsDeviceId, ItsState};
use std::convert::AsSlice;
use text::Line;

// Where the ring begins: it is one page.
const RING: u64 = 0x4000_0000;

pub const CTLR: u64 = 0;

pub const TYPER: u64 = 0x8;

pub const CBASER: u64 = 0x80;

pub const CWRITER: u64 = 0x88;

pub const CREADR: u64 = 0x90;

pub const BASER: u64 = 0x100;

fn put_word(page: &mut [u8; 4096], at: usize, word: u64)
    requires { at + 8 ≤ 4096 }
{
    page[at..at + 8].copy_from_slice(&word.to_le_bytes());
}

// The command of a number: its first three words. A page that holds 5 in every byte is all SYNC.
pub fn put_command(page: &mut [u8; 4096], number: usize, w0: u64, w1: u64, w2: u64) {
    if number < 127 {
        let at = 32 * number;
        put_word(page, at, w0);
        put_word(page, at + 8, w1);
        put_word(page, at + 16, w2);
    }
}

// MAPD 5 with 4 bits, MAPC 2 to processor 1, MAPTI (5, 9) as 8200 in collection 2, INT (5, 9).
pub fn put_example(page: &mut [u8; 4096]) {
    put_command(page, 0, 0x5_0000_0008, 3, 0x8000_0000_0000_0000);
    put_command(page, 1, 0x9, 0, 0x8000_0000_0001_0002);
    put_command(page, 2, 0x5_0000_000a, 0x2008_0000_0009, 2);
    put_command(page, 3, 0x5_0000_0003, 9, 0);
}

// The configuration of the example, with any limit.
pub fn config(limit: u32) -> ItsConfig
    ensures { result ≡ with_limit limit }
{
    let mut processors = [GicVcpuId(0); 16];
    processors[1] = GicVcpuId(1);
    ItsConfig {
        lpi_limit: limit,
        command_budget: 64,
        frame_size: 65536,
        profile: 0,
        processor_count: 2,
        processors,
    }
}

pub fn fresh(limit: u32) -> ItsState
    ensures { result ≡ fresh_of limit }
{
    its::configure(config(limit)).unit
}

// A write with the page as window and a row of so many records.
pub fn write(
    unit: ItsState,
    page: &[u8; 4096],
    room: usize,
    offset: u64,
    width: u8,
    value: u64,
) -> WrittenRow
    ensures { WritesLent (ring_in page.now) room unit offset width value result }
{
    its::write_lent(unit, RING, page, room, offset, width, value)
}

// A write whose answer is not shown.
#[tactic(auto, unfolding(crate::specs::Guest::set_to))]
pub fn set(unit: ItsState, page: &[u8; 4096], offset: u64, width: u8, value: u64) -> ItsState
    ensures { result ≡ set_to page.now unit offset width value }
{
    write(unit, page, 64, offset, width, value).unit
}

// An enabled unit with its ring, before any command.
#[tactic(auto, unfolding(crate::specs::Guest::enabled_with))]
pub fn enabled(page: &[u8; 4096], limit: u32) -> ItsState
    ensures { result ≡ enabled_with page.now limit }
{
    let unit = fresh(limit);
    let ringed = set(unit, page, CBASER, 8, 0x8000_0000_4000_0000);
    set(ringed, page, CTLR, 4, 1)
}

// The unit after the example.
#[tactic(auto, unfolding(crate::specs::Guest::example_with))]
pub fn example(page: &[u8; 4096]) -> ItsState
    ensures { result ≡ example_with page.now }
{
    let unit = enabled(page, 65535);
    set(unit, page, CWRITER, 8, 128)
}

impl Sheet {
    pub fn reads<const N: usize>(
        &mut self,
        what: impl AsSlice<u8> + Drop,
        unit: ItsState,
        offset: u64,
        width: u8,
        expected: Line<N>,
    ) {
        let answer = its::read_its(unit, offset, width);
        self.show(what, text::lines::of_read(answer), expected);
    }

    #[tactic(auto, unfolding(crate::specs::Guest::set_to))]
    pub fn writes<const N: usize>(
        &mut self,
        what: impl AsSlice<u8> + Drop,
        unit: ItsState,
        page: &[u8; 4096],
        offset: u64,
        value: u64,
        expected: Line<N>,
    ) -> ItsState
        ensures { result ≡ set_to page.now unit offset 8 value }
    {
        let w = write(unit, page, 64, offset, 8, value);
        self.show(what, text::lines::of_write(w.answer), expected);
        w.unit
    }

    pub fn translates<const N: usize>(
        &mut self,
        what: impl AsSlice<u8> + Drop,
        unit: ItsState,
        device: u32,
        event: u32,
        expected: Line<N>,
    ) {
        let answer = its::translate(unit, ItsDeviceId(device), EventId(event));
        self.show(what, text::lines::of_translation(answer), expected);
    }
}
