// The calls for hosts as C calls: each export calls the function of crate `host` that has its name, and promises the same. A static library is no
// library for other crates, so what is proved of the calls is said of those functions; include/its.h declares these.
#![tactic(auto)]

ghost use Rattle.lent_tables.specs.Numbers.{unit_in};
ghost use Rattle.lent_queue.specs.Turns.{lent};
ghost use Rattle.host.specs.Calls.{CallConfigures, CallReads, CallWrites, LeftAlone, CallTranslates};

use lent_tables::Numbers;

#[unsafe(no_mangle)]
pub extern "C" fn its_configure(
    state: &mut Numbers,
    settings: &[u32],
    processors: &[u16],
    told: &mut [u64; 5],
) -> u64
    ensures { CallConfigures settings.now processors.now (unit_in state.new) result told.new }
{
    host::its_configure(state, settings, processors, told)
}

#[unsafe(no_mangle)]
pub extern "C" fn its_read(state: &Numbers, offset: u64, width: u8, told: &mut [u64; 5]) -> u64
    ensures { CallReads (unit_in state.now) offset width result told.new }
{
    host::its_read(state, offset, width, told)
}

#[unsafe(no_mangle)]
pub extern "C" fn its_write(
    state: &mut Numbers,
    address: u64,
    bytes: &[u8],
    row: &mut [u64],
    offset: u64,
    width: u8,
    value: u64,
    told: &mut [u64; 5],
) -> u64
    ensures { CallWrites (lent address bytes.now) row.old (unit_in state.old) offset width value (unit_in state.new) row.new result told.new × LeftAlone state.old state.new }
{
    host::its_write(state, address, bytes, row, offset, width, value, told)
}

#[unsafe(no_mangle)]
pub extern "C" fn its_translate(
    state: &Numbers,
    device: u32,
    event: u32,
    told: &mut [u64; 5],
) -> u64
    ensures { CallTranslates (unit_in state.now) device event result told.new }
{
    host::its_translate(state, device, event, told)
}
