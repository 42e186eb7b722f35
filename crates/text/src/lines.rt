// The line of each answer: the paper's number of its refusal, and its values.
// Stays: a function each, no plainer as one, since each says what its numbers are.
#![tactic(auto, unfolding(model::specs::Trace::line, crate::specs::Laying::line_of))]

ghost use Rattle.std.specs.Prelude.{◌≡◌, ◌∷◌, []};
ghost use Rattle.model.specs.Refusal.{verdict_number, read_numbers, write_numbers, translate_numbers};
ghost use Rattle.model.specs.Trace.{line as lineWith, action_line, read_line, write_line, translate_line};
ghost use Rattle.text.specs.Laying.{line_of};

use crate::Line;
use model::{Delivery, ItsAction, Refusal, WriteAnswer};

// `CF refusal`
pub fn of_configuration(verdict: Result<(), Refusal>) -> Line<1>
    ensures { line_of result ≡ lineWith "CF" (verdict_number verdict ∷ []) }
{
    Line {
        mark: *b"CF",
        numbers: [answers::verdict_number(verdict)],
    }
}

// `GM 0`
pub fn of_window() -> Line<1>
    ensures { line_of result ≡ lineWith "GM" (0 ∷ []) }
{
    Line {
        mark: *b"GM",
        numbers: [0],
    }
}

// `RD refusal value`
pub fn of_read(answer: Result<u64, Refusal>) -> Line<2>
    ensures { line_of result ≡ read_line (read_numbers answer) }
{
    let [refusal, value, _, _, _] = answers::read_numbers(answer);
    Line {
        mark: *b"RD",
        numbers: [refusal, value],
    }
}

// `WR refusal opcode offset done actions`
pub fn of_write(answer: WriteAnswer) -> Line<5>
    ensures { line_of result ≡ write_line (write_numbers answer) }
{
    Line {
        mark: *b"WR",
        numbers: answers::write_numbers(answer),
    }
}

// `TR refusal lpi processor`
pub fn of_translation(answer: Result<Delivery, Refusal>) -> Line<3>
    ensures { line_of result ≡ translate_line (translate_numbers answer) }
{
    let [refusal, lpi, processor, _, _] = answers::translate_numbers(answer);
    Line {
        mark: *b"TR",
        numbers: [refusal, lpi, processor],
    }
}

// `AC processor lpi pending`
pub fn of_action(action: ItsAction) -> Line<3>
    ensures { line_of result ≡ action_line action }
{
    let ItsAction {
        target,
        lpi,
        pending,
    } = action;
    Line {
        mark: *b"AC",
        numbers: [u64::from(target.0), u64::from(lpi.0), u64::from(pending)],
    }
}

// `??` and the offset of a bad mark, a short record or a long GM.
pub fn of_broken(at: usize) -> Line<1>
    ensures { line_of result ≡ lineWith "??" (at ∷ []) }
{
    Line {
        mark: *b"??",
        numbers: [at as u64],
    }
}
