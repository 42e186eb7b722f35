// The unit for a host: calls over a unit that the host owns as numbers (specs/Numbers.antt of crate `lent_tables`), with the window and the row lent.
// Each call puts the numbers of its answer, those of the line that `itstrace` would write, into `told`, and returns the first of them, the
// refusal. What each promises is said in specs/Calls.antt. Crate `host_c` exports them as C calls.
// Stays: settings, refusals and answers are numbers, and an address stands beside its bytes, as the C interface has them.
#![tactic(auto)]

ghost use Rattle.std.specs.Prelude.{◌≡◌, replicate};
ghost use Rattle.model.specs.Config.{answers_no_unit};
ghost use Rattle.model.specs.Entry.{configure as configureOf, translate as translateOf};
ghost use Rattle.lent_tables.specs.Numbers.{NUMBERS, config_in, registers_in, unit_in};
ghost use Rattle.lent_queue.specs.Turns.{lent};
ghost use Rattle.host.specs.Calls.{Tells, processors_given, setting, none_further, CallConfigures, CallReads, CallWrites, LeftAlone, CallTranslates};
ghost use Rattle.host.specs.Parts.{count_given, limit_given, Wrote};

use decoding::GuestWindow;
use lent_tables::Numbers;
use model::{
    Delivery, EventId, GicVcpuId, ItsConfig, ItsDeviceId, Pair, Refusal, WriteAnswer, WriteRefusal,
};
use registers::Frame;

// The five numbers of an answer.
fn tell(told: &mut [u64; 5], numbers: [u64; 5]) -> u64
    ensures { Tells numbers result told.new }
{
    *told = numbers;
    numbers[0]
}

fn zero(state: &mut Numbers)
    ensures { state.new ≡ replicate NUMBERS 0 }
{
    state.fill(0);
}

// The unit that no access has touched and that has no configuration.
fn clear(state: &mut Numbers)
    ensures { unit_in state.new ≡ answers_no_unit }
{
    zero(state);
    state[lent_tables::BASERS] = 0x0107_0000_0000_0000;
    state[lent_tables::BASERS + 1] = 0x0407_0000_0000_0000;
}

// The first sixteen of the processors' numbers.
fn processors_given(numbers: &[u16]) -> [GicVcpuId; 16]
    ensures { result ≡ processors_given numbers.now }
{
    let mut processors = [GicVcpuId(0); 16];
    for i in 0..numbers.len().min(16) {
        processors[i] = GicVcpuId(numbers[i]);
    }
    processors
}

// How many there are, of which any count above sixteen is refused.
fn count_given(numbers: &[u16]) -> u8
    ensures { result ≡ count_given numbers.now }
{
    numbers.len().min(17) as u8
}

// A fresh unit of a configuration that is accepted, or one that answers 1 to everything.
fn configure(state: &mut Numbers, config: ItsConfig) -> Result<(), Refusal>
    ensures { (unit_in state.new ≡ (configureOf config).unit) × (result ≡ (configureOf config).verdict) }
{
    clear(state);
    if !registers::sizes::sound_config(config) {
        return Err(Refusal::Unsound);
    }
    lent_tables::put_config(state, config);
    Ok(())
}

// A setting: one that is left out is 0.
fn setting_given(settings: &[u32], at: usize) -> u32
    ensures { result ≡ setting settings.now at }
{
    settings.get(at).copied().unwrap_or(0)
}

// Whether every setting behind the four is 0.
#[tactic(auto, unfolding(crate::specs::Calls::none_further))]
fn none_further(settings: &[u32]) -> bool
    ensures { result ≡ none_further settings.now }
{
    settings.iter().skip(4).all(|setting| *setting == 0)
}

// The highest LPI; 0, with which no configuration is accepted, where there is a setting that this unit does not know.
fn limit_given(settings: &[u32]) -> u32
    ensures { result ≡ limit_given settings.now }
{
    if none_further(settings) {
        setting_given(settings, 0)
    } else {
        0
    }
}

pub fn its_configure(
    state: &mut Numbers,
    settings: &[u32],
    processors: &[u16],
    told: &mut [u64; 5],
) -> u64
    ensures { CallConfigures settings.now processors.now (unit_in state.new) result told.new }
{
    let config = ItsConfig {
        lpi_limit: limit_given(settings),
        command_budget: setting_given(settings, 1),
        frame_size: setting_given(settings, 2),
        profile: setting_given(settings, 3),
        processor_count: count_given(processors),
        processors: processors_given(processors),
    };
    let verdict = configure(state, config);
    tell(told, [answers::verdict_number(verdict), 0, 0, 0, 0])
}

// What the unit shows of itself, without its tables.
fn frame_in(state: &Numbers) -> Frame
    ensures { result ≡ record { config = config_in state.now; registers = registers_in state.now } }
{
    Frame {
        config: lent_tables::config_in(state),
        registers: lent_tables::registers_in(state),
    }
}

pub fn its_read(state: &Numbers, offset: u64, width: u8, told: &mut [u64; 5]) -> u64
    ensures { CallReads (unit_in state.now) offset width result told.new }
{
    let answer = frame_in(state).read(offset, width);
    tell(told, answers::read_numbers(answer))
}

// A write, with any window and any row. Numbers of another layout stay as they are.
fn write(
    state: &mut Numbers,
    window: GuestWindow,
    row: &mut [u64],
    offset: u64,
    width: u8,
    value: u64,
) -> WriteAnswer
    ensures { Wrote (lent window.entry.address window.entry.bytes.now) row.old state.old offset width value result state.new row.new }
{
    if !lent_tables::is_laid_out(state) {
        return Err(WriteRefusal {
            refusal: Refusal::Unsound,
            opcode: 0,
            offset: 0,
            done: 0,
            actions: 0,
        });
    }
    let write = frame_in(state).write(row.len(), offset, width, value);
    lent_tables::put_registers(state, write.registers);
    match write.answer {
        Some(answer) => answer,
        None => lent_queue::process_commands(state, window, row),
    }
}

pub fn its_write(
    state: &mut Numbers,
    address: u64,
    bytes: &[u8],
    row: &mut [u64],
    offset: u64,
    width: u8,
    value: u64,
    told: &mut [u64; 5],
) -> u64
    ensures { CallWrites (lent address bytes.now) row.old (unit_in state.old) offset width value (unit_in state.new) row.new result told.new × LeftAlone state.old state.new }
{
    let window = GuestWindow { address, bytes };
    let answer = write(state, window, row, offset, width, value);
    tell(told, answers::write_numbers(answer))
}

// A disabled unit translates too.
fn translate(state: &Numbers, pair: Pair) -> Result<Delivery, Refusal>
    ensures { result ≡ translateOf (unit_in state.now) pair.device pair.event }
{
    if !frame_in(state).is_sound() {
        return Err(Refusal::Unsound);
    }
    lent_command::pairs::deliver(state, pair)
}

pub fn its_translate(state: &Numbers, device: u32, event: u32, told: &mut [u64; 5]) -> u64
    ensures { CallTranslates (unit_in state.now) device event result told.new }
{
    let pair = Pair {
        device: ItsDeviceId(device),
        event: EventId(event),
    };
    let answer = translate(state, pair);
    tell(told, answers::translate_numbers(answer))
}
