// The records of a trace, carried out by the crate `trace`: to their end, or with the lines of the unit after each.
ghost use Rattle.std.specs.Prelude.{◌≡◌, false, drop};
ghost use Rattle.text.specs.Laying.{output, lay_all};
ghost use Rattle.trace.specs.Records.{stand, Within};
ghost use Rattle.inforce.specs.Shown.{unit_at_end, each_lines};
ghost use Rattle.inforce.specs.Listing.{listed_after};

use model::ItsState;
use text::Laid;
use trace::Run;

// The unit to which a trace leads. The lines of the records go nowhere: a byte is lent for them, into which none fits.
pub fn unit_at_end(trace: &[u8]) -> ItsState
    ensures { result ≡ unit_at_end trace.now }
{
    let end = trace.len();
    let mut unseen = [0u8; 1];
    let mut run = trace::start();
    while run.at < end {
        run = trace::records::step(trace, &mut unseen, run);
    }
    run.unit
}

// One record, and then the lines of the unit.
fn step_listed(trace: &[u8], out: &mut [u8], run: Run) -> Run
    requires { Within trace.now (drop run.at trace.now) run }
    ensures { stand out.new result ≡ listed_after trace.now (stand out.old run) }
{
    let mut r = trace::records::step(trace, out, run);
    let laid = r.laid;
    let unit = r.unit;
    let next = crate::lines::put_unit(out, laid, unit);
    r.laid = next;
    r
}

// The lines of every record, each with those of the unit after it. Where a line does not fit, no more are laid.
pub fn list_each(trace: &[u8], out: &mut [u8]) -> Laid
    ensures { output out.new result ≡ lay_all (output out.old (record { at = 0; full = false })) (each_lines trace.now) }
{
    let end = trace.len();
    let mut run = trace::start();
    while run.at < end {
        run = step_listed(trace, out, run);
    }
    run.laid
}
