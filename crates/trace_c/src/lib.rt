// The trace as a C call: the export calls the function of crate `trace` that has its name, and promises the same. include/its.h declares it.
#![tactic(auto)]

ghost use Rattle.trace.specs.Traced.{Traced};

#[unsafe(no_mangle)]
pub extern "C" fn its_trace(trace: &[u8], out: &mut [u8]) -> u64
    ensures { Traced trace.now out.old result out.new }
{
    trace::its_trace(trace, out)
}
