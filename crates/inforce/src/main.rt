// Reads a trace from standard input and prints which mappings are in force at its end; with a plus sign before the trace, after each of its records.
#![tactic(auto)]

mod lines;
mod runs;

ghost use Rattle.std.specs.Prelude.{◌≡◌, false, ◌≤◌, length, get_or, eqb};
ghost use Rattle.text.specs.Laying.{output, lay_all};
ghost use Rattle.inforce.specs.Shown.{shown_lines, shown};

use std::io;
use text::Laid;

// Whether the mappings are asked for after each record.
fn asks_each(input: &[u8]) -> bool
    ensures { result ≡ eqb (get_or input.now 0 0) 43 }
{
    if input.len() == 0 {
        return false;
    }
    input[0] == b'+'
}

// The lines of an input, laid into the output.
fn lay(input: &[u8], out: &mut [u8]) -> Laid
    ensures { output out.new result ≡ lay_all (output out.old (record { at = 0; full = false })) (shown_lines input.now) }
{
    if asks_each(input) {
        let trace = &input[1..];
        return runs::list_each(trace, out);
    }
    let unit = runs::unit_at_end(input);
    let laid = Laid { at: 0, full: false };
    lines::put_unit(out, laid, unit)
}

// What is printed of an input, at the start of the output.
fn print<'a>(input: &[u8], out: &'a mut [u8]) -> &'a [u8]
    requires { length out.old ≡ 65536 }
    ensures bytes { result.now ≡ shown input.now }
    ensures fits { length result.now ≤ length out.old }
{
    if 32768 < input.len() {
        return b"LONG\n";
    }
    let laid = lay(input, out);
    &out[..laid.at]
}

fn main(rt: HostRuntime) -> io::Result<()> {
    let mut room = [0u8; 32769];
    let (input, read) = input::read_full(&mut rt.stdin(), &mut room);
    read?;
    let mut out = [0u8; 65536];
    rt.write_all(print(input, &mut out))
}
