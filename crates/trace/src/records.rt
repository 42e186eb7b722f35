// One record carried out: what it does to the run, and its lines. `bytes` is the trace from the record's mark on.
ghost use Rattle.std.specs.Prelude.{◌≡◌, [], ◌∷◌, map, take, drop};
ghost use Rattle.model.specs.Refusal.{write_numbers};
ghost use Rattle.model.specs.Trace.{broken, parse, action_line, write_line};
ghost use Rattle.text.specs.Laying.{line_of, output, lay_all};
ghost use Rattle.trace.specs.Records.{stand, Within, stretch_of, onward, stand_after, CarriesRecord};

use crate::{Mark, Run};
use model::{EventId, ItsAction, ItsDeviceId, WriteAnswer};
use text::{Laid, Line};

// One line more, and the trace read up to a place.
fn moved<const N: usize>(out: &mut [u8], run: Run, at: usize, line: Line<N>) -> Run
    ensures { stand out.new result ≡ onward (stand out.old run) at (stretch_of run) run.unit (line_of line.entry ∷ []) }
{
    Run {
        at,
        laid: text::put_line(out, run.laid, line),
        ..run
    }
}

// A bad mark, a short record or a long GM: its line is the last, for nothing is left to read.
fn broken_off(trace: &[u8], out: &mut [u8], run: Run) -> Run
    ensures { stand out.new result ≡ stand_after trace.now (stand out.old run) broken }
{
    moved(out, run, trace.len(), text::lines::of_broken(run.at))
}

// CF starts a fresh unit and keeps the window.
fn configured(trace: &[u8], bytes: &[u8], out: &mut [u8], run: Run) -> Run
    requires { Within trace.now bytes.now run }
    ensures { CarriesRecord Mark.Cf trace.now bytes.now out.old run out.new result }
{
    if bytes.len() < 16 {
        return broken_off(trace, out, run);
    }
    let count = crate::parts::number_at(bytes, 15, 1) as u8;
    let size = 16 + 2 * (count as usize);
    if bytes.len() < size {
        return broken_off(trace, out, run);
    }
    let config = crate::parts::config_in(bytes, count);
    let configured = its::configure(config);
    let line = text::lines::of_configuration(configured.verdict);
    Run {
        unit: configured.unit,
        ..moved(out, run, run.at + size, line)
    }
}

// GM replaces the window.
fn windowed(trace: &[u8], bytes: &[u8], out: &mut [u8], run: Run) -> Run
    requires { Within trace.now bytes.now run }
    ensures { CarriesRecord Mark.Gm trace.now bytes.now out.old run out.new result }
{
    if bytes.len() < 14 {
        return broken_off(trace, out, run);
    }
    let size = crate::parts::number_at(bytes, 10, 4) as usize;
    if 4096 < size {
        return broken_off(trace, out, run);
    }
    let whole = 14 + size;
    if bytes.len() < whole {
        return broken_off(trace, out, run);
    }
    let address = crate::parts::number_at(bytes, 2, 8);
    let line = text::lines::of_window();
    Run {
        address,
        from: run.at + 14,
        size,
        ..moved(out, run, run.at + whole, line)
    }
}

// RD and TR change neither the unit nor the window.
fn read(trace: &[u8], bytes: &[u8], out: &mut [u8], run: Run) -> Run
    requires { Within trace.now bytes.now run }
    ensures { CarriesRecord Mark.Rd trace.now bytes.now out.old run out.new result }
{
    if bytes.len() < 11 {
        return broken_off(trace, out, run);
    }
    let offset = crate::parts::number_at(bytes, 2, 8);
    let width = crate::parts::number_at(bytes, 10, 1) as u8;
    let answer = its::read_its(run.unit, offset, width);
    moved(out, run, run.at + 11, text::lines::of_read(answer))
}

fn translated(trace: &[u8], bytes: &[u8], out: &mut [u8], run: Run) -> Run
    requires { Within trace.now bytes.now run }
    ensures { CarriesRecord Mark.Tr trace.now bytes.now out.old run out.new result }
{
    if bytes.len() < 10 {
        return broken_off(trace, out, run);
    }
    let device = ItsDeviceId(crate::parts::number_at(bytes, 2, 4) as u32);
    let event = EventId(crate::parts::number_at(bytes, 6, 4) as u32);
    let answer = its::translate(run.unit, device, event);
    moved(out, run, run.at + 10, text::lines::of_translation(answer))
}

// The line of a write, and one for each action that it hands over.
fn put_written(out: &mut [u8], laid: Laid, answer: WriteAnswer, row: [ItsAction; 1024]) -> Laid
    ensures { output out.new result ≡ lay_all (output out.old laid) (write_line (write_numbers answer) ∷ map action_line (take (write_numbers answer).actions row)) }
{
    let mut next = text::put_line(out, laid, text::lines::of_write(answer));
    let handed = answers::handed(answer).min(row.len());
    for action in &row[..handed] {
        next = text::put_line(out, next, text::lines::of_action(*action));
    }
    next
}

// WR gives the next unit.
fn written(trace: &[u8], bytes: &[u8], out: &mut [u8], run: Run) -> Run
    requires { Within trace.now bytes.now run }
    ensures { CarriesRecord Mark.Wr trace.now bytes.now out.old run out.new result }
{
    if bytes.len() < 19 {
        return broken_off(trace, out, run);
    }
    let offset = crate::parts::number_at(bytes, 2, 8);
    let width = crate::parts::number_at(bytes, 10, 1) as u8;
    let value = crate::parts::number_at(bytes, 11, 8);
    let window = &trace[run.from..run.from + run.size];
    let w = its::write_lent(run.unit, run.address, window, 1024, offset, width, value);
    Run {
        at: run.at + 19,
        laid: put_written(out, run.laid, w.answer, w.row),
        unit: w.unit,
        ..run
    }
}

// The record whose mark is next.
pub fn step(trace: &[u8], out: &mut [u8], run: Run) -> Run
    requires { Within trace.now (drop run.at trace.now) run }
    ensures { stand out.new result ≡ stand_after trace.now (stand out.old run) (parse (drop run.at trace.now)) }
{
    let bytes = &trace[run.at..];
    match crate::parts::mark_at(bytes) {
        Some(Mark::Cf) => configured(trace, bytes, out, run),
        Some(Mark::Gm) => windowed(trace, bytes, out, run),
        Some(Mark::Rd) => read(trace, bytes, out, run),
        Some(Mark::Wr) => written(trace, bytes, out, run),
        Some(Mark::Tr) => translated(trace, bytes, out, run),
        None => broken_off(trace, out, run),
    }
}
