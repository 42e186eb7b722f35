// The command queue, by value: the guest window, the action row, and the bounded run over both. Behaviour is in `start` and `turn`, which go by
// value; `process_commands` holds window and row, reads each command through the window, hands its words to `turn`, and has `store_action`
// store the action.
#![tactic(auto)]

ghost use Rattle.std.specs.Prelude.{◌≡◌, [], ◌<◌, length};
ghost use Rattle.model.specs.Config.{queue_size};
ghost use Rattle.model.specs.Step.{check};
ghost use Rattle.model.specs.Queue.{Stands, waiting as waitingOf, stays, judged, past_command, may_run};
ghost use Rattle.decoding.specs.Reading.{lent};
ghost use Rattle.queue.specs.Ongoing.{Ready, Begun, goes_on, progress_with, first_counts, start_of, settled_of, turned_on, turn_of, finish_of, end_of};

use answers::{Counts, Halt, Stopped};
use model::{Command, ItsAction, ItsConfig, ItsRegisters, ItsState, Refusal, WriteAnswer, Written};
use window::GuestWindow;

// A write between two commands of its run: the action of the last command, if it made one, and its place in the row, the guest address of the command
// on which CREADR stands, the counts, the answer if nothing more is done, and the unit.
// Stays: what `Ready` and `Stands` say is no ghost field. The model's own values of this type, as `start_of` of any unit, would each need a proof of it.
#[derive(Clone, Copy)]
pub struct Progress {
    pub action: Option<ItsAction>,
    pub at: usize,
    pub wanted: u64,
    pub counts: Counts,
    pub answer: WriteAnswer,
    pub unit: ItsState,
}

// How many commands wait.
#[tactic(auto, unfolding(model::specs::Queue::waiting))]
fn waiting(registers: ItsRegisters) -> u64
    ensures { result ≡ waitingOf registers }
{
    let size = words::queue_size(registers.cbaser);
    words::queue_distance(registers.creadr, registers.cwriter, size) / 32
}

// The unit and the counts after a turn, with its action.
fn stand(unit: ItsState, counts: Counts, action: Option<ItsAction>, at: usize) -> Progress
    requires { Stands unit }
    ensures { result ≡ progress_with unit counts action at }
{
    let creadr = unit.registers.creadr;
    Progress {
        action,
        at,
        wanted: words::queue_base(unit.registers.cbaser) + creadr,
        counts,
        answer: counts.answer(creadr),
        unit,
    }
}

// The queue runs in an enabled unit; in strict only where CBASER's bit 63 is set and the unit is not stalled.
#[tactic(auto, unfolding(model::specs::Queue::may_run, model::specs::Queue::held))]
fn may_run(config: ItsConfig, registers: ItsRegisters) -> bool
    ensures { result ≡ may_run config registers }
{
    let valid = registers.cbaser / 0x8000_0000_0000_0000 % 2;
    let held = config.profile == 1 && (valid == 0 || registers.stalled);
    registers.enabled && !held
}

#[tactic(auto, unfolding(crate::specs::Ongoing::first_counts))]
fn first_counts(unit: ItsState) -> Counts
    ensures { result ≡ first_counts unit }
{
    if !may_run(unit.config, unit.registers) {
        return Counts::begun(0);
    }
    let count = waiting(unit.registers);
    let budget = u64::from(unit.config.command_budget);
    if budget < count {
        return Counts {
            stopped: Stopped::Over,
            ..Counts::begun(0)
        };
    }
    Counts::begun(count)
}

// A queue that may run is run: 5 is tested once.
#[tactic(auto, unfolding(crate::specs::Ongoing::start_of))]
pub fn start(unit: ItsState) -> Progress
    requires { Stands unit }
    ensures { result ≡ start_of unit }
{
    let counts = first_counts(unit);
    stand(unit, counts, None, 0)
}

// A write whose queue is not to run: the unit that it leaves, and its answer.
pub fn settled(unit: ItsState, answer: WriteAnswer) -> Progress
    ensures { result ≡ settled_of unit answer }
{
    Progress {
        action: None,
        at: 0,
        wanted: 0,
        counts: Counts::begun(0),
        answer,
        unit,
    }
}

// CREADR passes a command that was carried out.
fn pass_command(registers: ItsRegisters) -> ItsRegisters
    requires { registers.creadr < queue_size registers.cbaser }
    ensures { result ≡ past_command registers }
{
    let size = words::queue_size(registers.cbaser);
    let next = registers.creadr + 32;
    ItsRegisters {
        creadr: next % size,
        ..registers
    }
}

impl Progress {
    // Whether a command is left.
    fn goes_on(&self) -> bool
        ensures { result ≡ goes_on self.now }
    {
        0 < self.counts.left
    }

    // The command on which CREADR stands is refused: CREADR stays, and nothing is left to do.
    #[tactic(auto, unfolding(crate::specs::Ongoing::turned_on))]
    fn halt(self, why: Halt) -> Progress
        requires { Ready self }
        ensures { result ≡ turned_on self (stays why.refusal why.opcode) }
    {
        let next = self.counts.counted(Err(why));
        stand(self.unit, next, None, self.counts.made.actions)
    }

    // A command that was read, carried out.
    #[tactic(auto, using(model::proofs::RunLaws::stands_stepped))]
    fn carry_out(self, x: Command, opcode: u8) -> Progress
        requires { Ready self }
        ensures { result ≡ turned_on self (judged (check self.unit x) x opcode) }
    {
        let applied = command::execute(self.unit, x);
        let action = match applied.executed {
            Ok(action) => action,
            Err(refusal) => return self.halt(Halt { refusal, opcode }),
        };
        let next = self.counts.counted(Ok(action.is_some()));
        let mut unit = applied.unit;
        unit.registers = pass_command(unit.registers);
        stand(unit, next, action, self.counts.made.actions)
    }

    // One command.
    #[tactic(auto, using(decoding::proofs::Turning::unread, decoding::proofs::Turning::unknown, decoding::proofs::Turning::known))]
    pub fn turn(self, words: Option<[u64; 4]>) -> Progress
        requires { Ready self }
        ensures { result ≡ turn_of self words }
    {
        let Some(words) = words else {
            return self.halt(Halt::unread(Refusal::NotInWindow));
        };
        let opcode = words::opcode(words);
        let Ok(x) = decoding::decode(words) else {
            return self.halt(Halt {
                refusal: Refusal::OpcodeUnknown,
                opcode,
            });
        };
        self.carry_out(x, opcode)
    }

    // The end: in strict a refused command stalls the unit.
    #[tactic(auto, unfolding(model::specs::Queue::stall))]
    pub fn finish(self) -> Written
        ensures { result ≡ finish_of self }
    {
        let halted = self.counts.stopped.is_halted();
        let mut unit = self.unit;
        if halted && unit.config.profile == 1 {
            unit.registers.stalled = true;
        }
        Written {
            unit,
            answer: self.answer,
        }
    }
}

// The waiting commands of a write, at most as many as the budget, each in turn; the row gets their actions, the first first.
#[tactic(auto, using(crate::proofs::Ongoing::running_begins, crate::proofs::Ongoing::running_stored, crate::proofs::Ongoing::running_kept, crate::proofs::Ongoing::running_ends))]
pub fn process_commands<'w, 'r>(
    begun: Progress,
    window: GuestWindow<'w>,
    row: &'r mut [ItsAction],
) -> Written
    requires { Begun begun (length row.old) }
    ensures { (result ≡ (end_of (lent window.entry.address window.entry.bytes.now) begun row.old).written)
        × (row.new ≡ (end_of (lent window.entry.address window.entry.bytes.now) begun row.old).row) }
{
    let mut t = begun;
    // Stays: no range counts the turns. A command that is refused leaves none to do, and `counted` says so of the counts.
    while t.goes_on() {
        t = t.turn(window::read_command(window, t.wanted));
        if let Some(action) = t.action {
            window::store_action(row, t.at, action);
        }
    }
    t.finish()
}
