// What both texts of the unit answer: the paper's number of each refusal and the values that go with each case of an answer; and the counts of a run,
// one command after the other, up to the answer that they come to.
#![tactic(auto)]

ghost use Rattle.std.specs.Prelude.{◌≡◌, ◌∷◌, [], ◌+◌, ◌<◌, ◌^◌};
ghost use Rattle.model.specs.Refusal.{number_of, verdict_number, read_numbers, write_numbers, translate_numbers};
ghost use Rattle.answers.specs.Counting.{begun, counted_on, is_halted, refused_at, answering};

use model::{Delivery, Refusal, WriteAnswer, WriteDone, WriteRefusal};

// The number of a refusal.
// Stays: it is no `From<Refusal> for u64`, both of whose types are of other crates.
pub fn refusal_number(refusal: Refusal) -> u64
    ensures { result ≡ number_of refusal }
{
    match refusal {
        Refusal::Unsound => 1,
        Refusal::RowTooShort => 10,
        Refusal::InvalidAccess => 2,
        Refusal::Identification => 3,
        Refusal::BaseZero => 4,
        Refusal::WriterRefused => 7,
        Refusal::BudgetExceeded => 5,
        Refusal::NotInWindow => 6,
        Refusal::OpcodeUnknown => 20,
        Refusal::LpiOutOfRange => 21,
        Refusal::DeviceUnmapped => 22,
        Refusal::EventBeyondBits => 23,
        Refusal::CollectionUnmapped => 24,
        Refusal::PairUnmapped => 25,
        Refusal::ProcessorUnlisted => 26,
        Refusal::DeviceTooLarge => 27,
        Refusal::ResourceNotFound => 8,
        Refusal::TableFull => 9,
        Refusal::LineDoesNotFit => 11,
    }
}

// The number of a verdict: 0 for what was accepted.
pub fn verdict_number(verdict: Result<(), Refusal>) -> u64
    ensures { result ≡ verdict_number verdict }
{
    verdict.err().map_or(0, refusal_number)
}

// The numbers of a read: refusal and value.
pub fn read_numbers(answer: Result<u64, Refusal>) -> [u64; 5]
    ensures { result ≡ (read_numbers answer).refusal ∷ (read_numbers answer).value ∷ 0 ∷ 0 ∷ 0 ∷ [] }
{
    match answer {
        Ok(value) => [0, value, 0, 0, 0],
        Err(why) => [refusal_number(why), 0, 0, 0, 0],
    }
}

// The numbers of a write: refusal, opcode, offset, done, actions.
pub fn write_numbers(answer: WriteAnswer) -> [u64; 5]
    ensures { result ≡ (write_numbers answer).refusal ∷ (write_numbers answer).opcode ∷ (write_numbers answer).offset ∷ (write_numbers answer).done ∷ (write_numbers answer).actions ∷ [] }
{
    match answer {
        Ok(taken) => [0, 0, 0, taken.done as u64, taken.actions as u64],
        Err(why) => {
            [
                refusal_number(why.refusal),
                u64::from(why.opcode),
                why.offset,
                why.done as u64,
                why.actions as u64,
            ]
        }
    }
}

// The numbers of a translation: refusal, LPI, processor.
pub fn translate_numbers(answer: Result<Delivery, Refusal>) -> [u64; 5]
    ensures { result ≡ (translate_numbers answer).refusal ∷ (translate_numbers answer).lpi ∷ (translate_numbers answer).processor ∷ 0 ∷ 0 ∷ [] }
{
    match answer {
        Ok(Delivery { lpi, target }) => [0, u64::from(lpi.0), u64::from(target.0), 0, 0],
        Err(why) => [refusal_number(why), 0, 0, 0, 0],
    }
}

// How many actions a write hands over, refused or not.
pub fn handed(answer: WriteAnswer) -> usize
    ensures { result ≡ (write_numbers answer).actions }
{
    match answer {
        Ok(taken) => taken.actions,
        Err(why) => why.actions,
    }
}

// A command that is refused: why, and its opcode, which is 0 where it was not read.
#[derive(Clone, Copy, Debug, PartialEq, Eq)]
pub struct Halt {
    pub refusal: Refusal,
    pub opcode: u8,
}

impl Halt {
    // One that concerns no command that was read.
    pub fn unread(refusal: Refusal) -> Halt
        ensures { result ≡ record { refusal = refusal; opcode = 0 } }
    {
        Halt { refusal, opcode: 0 }
    }

    // The refusal of a write that stops here, after what was done, CREADR standing at this offset.
    pub fn refused(self, made: WriteDone, offset: u64) -> WriteRefusal
        ensures { result ≡ refused_at self made offset }
    {
        WriteRefusal {
            refusal: self.refusal,
            opcode: self.opcode,
            offset,
            done: made.done,
            actions: made.actions,
        }
    }
}

// Why a run ended: nothing was left to carry out; more commands wait than the budget; or a command was refused.
#[derive(Clone, Copy, Debug, PartialEq, Eq)]
pub enum Stopped {
    Ended,
    Over,
    Halted(Halt),
}

impl Stopped {
    // Whether a command was refused.
    pub fn is_halted(self) -> bool
        ensures { result ≡ is_halted self }
    {
        matches!(self, Stopped::Halted(_))
    }
}

// The run between two commands: how many are left, how many were carried out and how many actions they made, and why the run ended.
#[derive(Clone, Copy, Debug, PartialEq, Eq)]
pub struct Counts {
    pub left: u64,
    pub made: WriteDone,
    pub stopped: Stopped,
}

impl Counts {
    // The counts before the first of so many turns.
    pub fn begun(left: u64) -> Counts
        ensures { result ≡ begun left }
    {
        Counts {
            left,
            made: WriteDone {
                done: 0,
                actions: 0,
            },
            stopped: Stopped::Ended,
        }
    }

    // The counts after a turn: CREADR passed a command, which made an action or none, or the run stops where it stands.
    pub fn counted(self, turned: Result<bool, Halt>) -> Counts
        requires { (0 < self.left) × (self.made.done + self.left < 2 ^ 32) × (self.made.actions + self.left < 2 ^ 32) }
        ensures { result ≡ counted_on self turned }
    {
        match turned {
            Ok(acted) => Counts {
                left: self.left - 1,
                made: WriteDone {
                    done: self.made.done + 1,
                    actions: self.made.actions + usize::from(acted),
                },
                stopped: Stopped::Ended,
            },
            Err(halt) => Counts {
                left: 0,
                stopped: Stopped::Halted(halt),
                ..self
            },
        }
    }

    // What a run answers, CREADR being where it stands after it.
    pub fn answer(self, creadr: u64) -> WriteAnswer
        ensures { result ≡ answering self creadr }
    {
        let halt = match self.stopped {
            Stopped::Ended => return Ok(self.made),
            Stopped::Over => Halt::unread(Refusal::BudgetExceeded),
            Stopped::Halted(halt) => halt,
        };
        Err(halt.refused(self.made, creadr))
    }
}
