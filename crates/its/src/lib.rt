// The unit as a host calls it, by value: configuration, reads, writes, translation. Every contract is an equation with a definition of the model, and
// none asks anything of the caller.
#![tactic(auto)]

ghost use Rattle.std.specs.Prelude.{◌≡◌};
ghost use Rattle.model.specs.Config.{fresh_unit, no_config, fresh_registers};
ghost use Rattle.model.specs.Trace.{lent_row};
ghost use Rattle.decoding.specs.Reading.{lent};
ghost use Rattle.its.specs.Promises.{NoUnit, Configures, Reads, Writes, WritesLent, beside_row, lent_of, Translates};
ghost use Rattle.its.specs.Prepared.{prepared};

use model::{
    Configured, Delivery, EventId, ItsAction, ItsCollection, ItsConfig, ItsDevice, ItsDeviceId,
    ItsRegisters, ItsState, Pair, Refusal, Translation, WriteAnswer, Written,
};
use queue::Progress;
use registers::Frame;
use window::GuestWindow;

// What a write answers, with the row as it is left.
#[derive(Clone, Copy)]
pub struct WrittenRow {
    pub unit: ItsState,
    pub answer: WriteAnswer,
    pub row: [ItsAction; 1024],
}

// A unit that no access has touched.
fn fresh_registers() -> ItsRegisters
    ensures { result ≡ fresh_registers }
{
    ItsRegisters {
        enabled: false,
        stalled: false,
        cbaser: 0,
        creadr: 0,
        cwriter: 0,
        basers: [
            0x0107_0000_0000_0000,
            0x0407_0000_0000_0000,
            0,
            0,
            0,
            0,
            0,
            0,
        ],
    }
}

fn fresh(config: ItsConfig) -> ItsState
    ensures { result ≡ fresh_unit config }
{
    ItsState {
        config,
        registers: fresh_registers(),
        devices: [ItsDevice::default(); 32],
        collections: [ItsCollection::default(); 32],
        translations: [Translation::default(); 256],
    }
}

fn no_config() -> ItsConfig
    ensures { result ≡ no_config }
{
    ItsConfig::default()
}

// The unit that answers 1 to everything.
pub fn no_unit() -> ItsState
    ensures { NoUnit result }
{
    fresh(no_config())
}

pub fn configure(config: ItsConfig) -> Configured
    ensures { Configures config result }
{
    if registers::sizes::sound_config(config) {
        Configured {
            unit: fresh(config),
            verdict: Ok(()),
        }
    } else {
        Configured {
            unit: no_unit(),
            verdict: Err(Refusal::Unsound),
        }
    }
}

// What the unit shows of itself, without its tables.
fn frame(unit: ItsState) -> Frame
    ensures { result ≡ record { config = unit.config; registers = unit.registers } }
{
    Frame {
        config: unit.config,
        registers: unit.registers,
    }
}

pub fn read_its(unit: ItsState, offset: u64, width: u8) -> Result<u64, Refusal>
    ensures { Reads unit offset width result }
{
    frame(unit).read(offset, width)
}

// A disabled unit translates too.
pub fn translate(unit: ItsState, device: ItsDeviceId, event: EventId) -> Result<Delivery, Refusal>
    ensures { Translates unit device event result }
{
    if !frame(unit).is_sound() {
        return Err(Refusal::Unsound);
    }
    command::pairs::deliver(unit, Pair { device, event })
}

// Everything of a write up to its run.
pub fn prepare(unit: ItsState, room: usize, offset: u64, width: u8, value: u64) -> Progress
    ensures { result ≡ prepared unit room offset width value }
{
    let write = frame(unit).write(room, offset, width, value);
    let next = ItsState {
        registers: write.registers,
        ..unit
    };
    match write.answer {
        Some(answer) => queue::settled(next, answer),
        None => queue::start(next),
    }
}

// A write, with any window and any row.
pub fn write_its<'w, 'r>(
    unit: ItsState,
    window: GuestWindow<'w>,
    row: &'r mut [ItsAction],
    offset: u64,
    width: u8,
    value: u64,
) -> Written
    ensures { Writes (lent window.entry.address window.entry.bytes.now) row.old unit offset width value result row.new }
{
    let begun = prepare(unit, row.len(), offset, width, value);
    queue::process_commands(begun, window, row)
}

// A row of 1,024 records, which is enough for any budget.
fn fresh_row() -> [ItsAction; 1024]
    ensures { result ≡ lent_row }
{
    [ItsAction::default(); 1024]
}

fn with_row(w: Written, row: [ItsAction; 1024]) -> WrittenRow
    ensures { result ≡ beside_row w row }
{
    WrittenRow {
        unit: w.unit,
        answer: w.answer,
        row,
    }
}

// How many of the 1,024 records are lent.
fn lent_of(room: usize) -> usize
    ensures { result ≡ lent_of room }
{
    room.min(1024)
}

// The same entry for a caller that has no row: window and row are made here, the first `room` of the row's 1,024 records are lent, and the row comes
// back by value.
pub fn write_lent(
    unit: ItsState,
    address: u64,
    bytes: &[u8],
    room: usize,
    offset: u64,
    width: u8,
    value: u64,
) -> WrittenRow
    ensures { WritesLent (lent address bytes.now) room unit offset width value result }
{
    let mut row = fresh_row();
    let window = GuestWindow { address, bytes };
    let lent = &mut row[..lent_of(room)];
    let written = write_its(unit, window, lent, offset, width, value);
    with_row(written, row)
}
