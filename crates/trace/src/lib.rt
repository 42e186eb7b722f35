// The trace: records in, lines out, through the entries that a host calls. What a run over a trace writes and returns says the model; specs/Records.antt
// takes the run one record at a time, and proofs/Rest.antt shows that the records add up to the model's run.
#![tactic(auto)]

mod parts;
// For a program that looks at the unit between two records; a host calls `run_trace`.
pub mod records;

ghost use Rattle.std.specs.Prelude.{◌≡◌, ◌≤◌};
ghost use Rattle.trace.specs.Traced.{Traced};
ghost use Rattle.trace.specs.Records.{run_at_start, number_returned, goes_on};

use model::ItsState;
use text::Laid;

// The mark of a record.
#[derive(Clone, Copy, Debug, PartialEq, Eq)]
pub enum Mark {
    Cf,
    Gm,
    Rd,
    Wr,
    Tr,
}

// The run between two records: how far the trace is read, how far the output is written, the window, which is a part of the trace and the guest
// address of its first byte, and the unit.
// Stays: the window is a place and a length, no plainer as a slice, whose lifetime every function here and in `inforce` would carry.
#[derive(Clone, Copy)]
pub struct Run {
    pub at: usize,
    pub laid: Laid,
    pub address: u64,
    pub from: usize,
    pub size: usize,
    pub unit: ItsState,
}

// Until an accepted CF calls answer 1; the first window is empty at address 0.
pub fn start() -> Run
    ensures { result ≡ run_at_start }
{
    Run {
        at: 0,
        laid: Laid { at: 0, full: false },
        address: 0,
        from: 0,
        size: 0,
        unit: its::no_unit(),
    }
}

// Whether there is a record to run, and a line could still be written.
fn goes_on(at: usize, end: usize, laid: Laid) -> bool
    ensures { result ≡ goes_on at end laid }
{
    at < end && !laid.full
}

// 16 times the bytes written, plus 11 if a line did not fit.
fn number_returned(laid: Laid) -> u64
    requires { laid.at ≤ 65536 }
    ensures { result ≡ number_returned laid }
{
    let n = laid.at as u64;
    if laid.full { 16 * n + 11 } else { 16 * n }
}

// The run over a trace: the lines go into the output.
pub fn run_trace(trace: &[u8], out: &mut [u8]) -> u64
    ensures { Traced trace.now out.old result out.new }
{
    let end = trace.len();
    let mut run = start();
    while goes_on(run.at, end, run.laid) {
        run = records::step(trace, out, run);
    }
    number_returned(run.laid)
}

// The same under the name of the C call, which crate `trace_c` exports.
// Stays: the C interface has it under this name.
pub fn its_trace(trace: &[u8], out: &mut [u8]) -> u64
    ensures { Traced trace.now out.old result out.new }
{
    run_trace(trace, out)
}
