// Reads a trace from standard input and prints its lines.
#![tactic(auto)]

ghost use Rattle.std.specs.Prelude.{◌≡◌, ◌≤◌, length};
ghost use Rattle.model.specs.Trace.{printed};

use std::io;

// What is printed of an input, at the start of the output: its lines as far as they fit, or of too long an input the line LONG only.
fn print<'a>(input: &[u8], out: &'a mut [u8]) -> &'a [u8]
    requires { length out.old ≡ 32768 }
    ensures bytes { result.now ≡ printed input.now }
    ensures fits { length result.now ≤ length out.old }
{
    if 32768 < input.len() {
        return b"LONG\n";
    }
    let number = trace::run_trace(input, out);
    &out[..(number / 16) as usize]
}

fn main(rt: HostRuntime) -> io::Result<()> {
    let mut room = [0u8; 32769];
    let (input, read) = input::read_full(&mut rt.stdin(), &mut room);
    read?;
    let mut out = [0u8; 32768];
    rt.write_all(print(input, &mut out))
}
