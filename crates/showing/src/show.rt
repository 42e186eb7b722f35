// A line for each corner: what it is, what came, and what is expected.
#![tactic(auto, unfolding(model::specs::Trace::line, text::specs::Laying::line_of))]

ghost use Rattle.std.specs.Prelude.{◌≡◌, ◌∷◌, []};
ghost use Rattle.model.specs.Trace.{line as lineWith};
ghost use Rattle.text.specs.Laying.{line_of};

use std::convert::AsSlice;
use std::io;
use std::io::Stdout;
use text::Line;

// Where the lines go, and whether all of them went. After a write that failed no more is written. What a corner computes does not hang on it: whoever
// shows one goes on, and `end` says it.
#[derive(Drop)]
pub struct Sheet {
    to: Stdout,
    written: io::Result<()>,
}

impl Sheet {
    pub fn new(to: Stdout) -> Sheet {
        Sheet {
            to,
            written: Ok(()),
        }
    }

    pub fn end(self) -> io::Result<()> {
        self.written
    }

    fn put(&mut self, bytes: &[u8]) {
        if self.written.is_ok() {
            self.written = self.to.write_all(bytes);
        }
    }

    fn put_number(&mut self, n: u64) {
        if self.written.is_ok() {
            self.written = self.to.print(n);
        }
    }

    fn put_line<const N: usize>(&mut self, line: Line<N>) {
        self.put(&line.mark);
        for n in line.numbers {
            self.put(b" ");
            self.put_number(n);
        }
    }

    // A line above those of one unit.
    pub fn heading(&mut self, what: impl AsSlice<u8> + Drop) {
        self.put(what.as_slice());
        self.put(b":\n");
    }

    pub fn show<const M: usize, const N: usize>(
        &mut self,
        what: impl AsSlice<u8> + Drop,
        came: Line<M>,
        expected: Line<N>,
    ) {
        self.put(what.as_slice());
        self.put(b": ");
        self.put_line(came);
        self.put(b", expected ");
        self.put_line(expected);
        if came.mark != expected.mark || came.numbers.as_slice() != expected.numbers.as_slice() {
            self.put(b", WRONG");
        }
        self.put(b"\n");
    }
}

// Stays: these differ in a mark and in what their numbers are. One function of a mark and numbers would be the struct's own form, and name no number.
pub fn rd(refusal: u64, value: u64) -> Line<2>
    ensures { line_of result ≡ lineWith "RD" (refusal ∷ value ∷ []) }
{
    Line {
        mark: *b"RD",
        numbers: [refusal, value],
    }
}

pub fn wr(refusal: u64, opcode: u64, offset: u64, done: u64, actions: u64) -> Line<5>
    ensures { line_of result ≡ lineWith "WR" (refusal ∷ opcode ∷ offset ∷ done ∷ actions ∷ []) }
{
    Line {
        mark: *b"WR",
        numbers: [refusal, opcode, offset, done, actions],
    }
}

pub fn tr(refusal: u64, lpi: u64, processor: u64) -> Line<3>
    ensures { line_of result ≡ lineWith "TR" (refusal ∷ lpi ∷ processor ∷ []) }
{
    Line {
        mark: *b"TR",
        numbers: [refusal, lpi, processor],
    }
}

pub fn ac(processor: u64, lpi: u64, pending: u64) -> Line<3>
    ensures { line_of result ≡ lineWith "AC" (processor ∷ lpi ∷ pending ∷ []) }
{
    Line {
        mark: *b"AC",
        numbers: [processor, lpi, pending],
    }
}

pub fn cf(refusal: u64) -> Line<1>
    ensures { line_of result ≡ lineWith "CF" (refusal ∷ []) }
{
    Line {
        mark: *b"CF",
        numbers: [refusal],
    }
}

// What a command carried out by itself came to: the number of its refusal.
pub fn ex(refusal: u64) -> Line<1>
    ensures { line_of result ≡ lineWith "EX" (refusal ∷ []) }
{
    Line {
        mark: *b"EX",
        numbers: [refusal],
    }
}

// A record of a device: used, its number, its event bits.
pub fn dv(used: u64, device: u64, bits: u64) -> Line<3>
    ensures { line_of result ≡ lineWith "DV" (used ∷ device ∷ bits ∷ []) }
{
    Line {
        mark: *b"DV",
        numbers: [used, device, bits],
    }
}

// A record of a collection: used, its number, its processor.
pub fn cl(used: u64, collection: u64, processor: u64) -> Line<3>
    ensures { line_of result ≡ lineWith "CL" (used ∷ collection ∷ processor ∷ []) }
{
    Line {
        mark: *b"CL",
        numbers: [used, collection, processor],
    }
}

// A record of a pair of device 5: used, its event, its LPI, its collection.
pub fn pr(used: u64, event: u64, lpi: u64, collection: u64) -> Line<4>
    ensures { line_of result ≡ lineWith "PR" (used ∷ event ∷ lpi ∷ collection ∷ []) }
{
    Line {
        mark: *b"PR",
        numbers: [used, event, lpi, collection],
    }
}
