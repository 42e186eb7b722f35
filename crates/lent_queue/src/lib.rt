// The bounded run of the queue of a unit that is lent as numbers: 5 is tested once, then each command in turn, and its action goes to the row.
// Stays: the same run stands by value in crate `queue`. Two texts are a rule of the project (tools/towers.sh).
#![tactic(auto)]

ghost use Rattle.std.specs.Prelude.{◌≡◌, true, ◌≤◌, ◌<◌, ◌^◌, length};
ghost use Rattle.model.specs.Config.{sound_unit};
ghost use Rattle.model.specs.Step.{check};
ghost use Rattle.model.specs.Queue.{Stands, waiting as waitingOf, judged, turn as turn_of, run as run_of, may_run, run_queue};
ghost use Rattle.lent_tables.specs.Numbers.{config_in, registers_in, unit_in};
ghost use Rattle.lent_queue.specs.Actions.{action_word};
ghost use Rattle.lent_queue.specs.Turns.{lent, Turns, Leaves};

use answers::Halt;
use decoding::GuestWindow;
use lent_tables::Numbers;
use model::{Command, ItsAction, Refusal, WriteAnswer, WriteDone};

// An action as a number.
fn action_word(a: ItsAction) -> u64
    ensures { result ≡ action_word a }
{
    u64::from(a.pending) * 0x1_0000_0000_0000
        + u64::from(a.target.0) * 0x1_0000_0000
        + u64::from(a.lpi.0)
}

// How many commands wait.
#[tactic(auto, unfolding(model::specs::Queue::waiting, lent_tables::specs::Numbers::registers_in))]
fn waiting(state: &Numbers) -> u64
    ensures { result ≡ waitingOf (registers_in state.now) }
{
    let size = words::queue_size(state[lent_tables::CBASER]);
    words::queue_distance(
        state[lent_tables::CREADR],
        state[lent_tables::CWRITER],
        size,
    ) / 32
}

// The queue runs in an enabled unit; in strict only where CBASER's bit 63 is set and the unit is not stalled.
#[tactic(auto, unfolding(model::specs::Queue::may_run, model::specs::Queue::held, lent_tables::specs::Numbers::registers_in))]
fn may_run(state: &Numbers) -> bool
    ensures { result ≡ may_run (config_in state.now) (registers_in state.now) }
{
    let valid = state[lent_tables::CBASER] / 0x8000_0000_0000_0000 % 2;
    let stalled = state[lent_tables::STALLED] % 2 == 1;
    let held = lent_tables::profile_in(state) == 1 && (valid == 0 || stalled);
    let enabled = state[lent_tables::ENABLED] % 2 == 1;
    enabled && !held
}

// A command that was read, carried out; its action goes to the place `at` of the row. The answer says whether there was one.
fn carry_out(
    state: &mut Numbers,
    row: &mut [u64],
    at: usize,
    x: Command,
    opcode: u8,
) -> Result<bool, Halt>
    requires { Stands (unit_in state.old) × (at < length row.old) }
    ensures { Turns (judged (check (unit_in state.old) x) x opcode) state.old row.old at result state.new row.new }
{
    let action = lent_command::execute(state, x).map_err(|refusal| Halt { refusal, opcode })?;
    let Some(a) = action else {
        lent_tables::pass_command(state);
        return Ok(false);
    };
    row[at] = action_word(a);
    lent_tables::pass_command(state);
    Ok(true)
}

// One command; `at` is the number of actions made so far.
// Stays: what a turn asks of the numbers and of the row is no ghost field, since `Numbers` is the array that the C interface lends.
fn turn(state: &mut Numbers, window: GuestWindow, row: &mut [u64], at: usize) -> Result<bool, Halt>
    requires { Stands (unit_in state.old) × (at < length row.old) }
    ensures { Turns (turn_of (lent window.entry.address window.entry.bytes.now) (unit_in state.old)) state.old row.old at result state.new row.new }
{
    let wanted = words::queue_base(state[lent_tables::CBASER]) + state[lent_tables::CREADR];
    let words = window
        .command(wanted)
        .ok_or(Halt::unread(Refusal::NotInWindow))?;
    let opcode = words::opcode(words);
    let x = decoding::decode(words).map_err(|_| Halt {
        refusal: Refusal::OpcodeUnknown,
        opcode,
    })?;
    carry_out(state, row, at, x, opcode)
}

// `count` commands, each in turn.
fn run(state: &mut Numbers, window: GuestWindow, row: &mut [u64], count: u64) -> WriteAnswer
    requires { Stands (unit_in state.old) × (count ≤ length row.old) × (count < 2 ^ 32) }
    ensures { Leaves (run_of (lent window.entry.address window.entry.bytes.now) count (unit_in state.old)) row.old result state.new row.new }
{
    let mut made = WriteDone {
        done: 0,
        actions: 0,
    };
    for _ in 0..count {
        let turned = turn(state, window, row, made.actions);
        let acted = turned.map_err(|halt| halt.refused(made, state[lent_tables::CREADR]))?;
        made.done += 1;
        made.actions += usize::from(acted);
    }
    Ok(made)
}

// A queue that may run is run: 5 is tested once, then each command in turn; one that is refused stalls the unit in strict.
#[tactic(auto, using(crate::proofs::Queued::may_run_lem))]
pub fn process_commands(state: &mut Numbers, window: GuestWindow, row: &mut [u64]) -> WriteAnswer
    requires { (sound_unit (unit_in state.old) ≡ true) × ((config_in state.old).command_budget ≤ length row.old) }
    ensures { Leaves (run_queue (lent window.entry.address window.entry.bytes.now) (unit_in state.old)) row.old result state.new row.new }
{
    let nothing = WriteDone {
        done: 0,
        actions: 0,
    };
    if !may_run(state) {
        return Ok(nothing);
    }
    let count = waiting(state);
    let budget = u64::from(lent_tables::command_budget_in(state));
    if budget < count {
        let over = Halt::unread(Refusal::BudgetExceeded);
        return Err(over.refused(nothing, state[lent_tables::CREADR]));
    }
    let answer = run(state, window, row, count);
    if answer.is_err() {
        lent_tables::stall(state);
    }
    answer
}
