// Lines in decimal, laid into an output that the caller lends. A line goes in whole, and after one that does not fit nothing more does.
// What a line is says the model; what an output becomes is said in specs/Laying.antt.
#![tactic(auto)]

pub mod lines;

ghost use Rattle.std.specs.Prelude.{◌≡◌, ◌+◌, ◌≤◌, suc, ◌∷◌, length, MatchOption, ◌<◌};
ghost use Rattle.model.specs.Trace.{digit_count, digits, decimal, spaced, space};
ghost use Rattle.text.specs.Laying.{line_of, laid_at, full_at, Lays};

// A line: the two bytes of its mark, and its numbers.
#[derive(Clone, Copy, Debug, PartialEq, Eq)]
pub struct Line<const N: usize> {
    pub mark: [u8; 2],
    pub numbers: [u64; N],
}

// How many bytes of the output are written, and whether a line did not fit.
// Stays: the place and the flag are read together, for the number that a run returns, so a result would hold the place in both its cases.
#[derive(Clone, Copy, Debug, PartialEq, Eq)]
pub struct Laid {
    pub at: usize,
    pub full: bool,
}

// How many decimal digits a number has.
fn digit_count(n: u64) -> usize
    ensures { (result ≡ digit_count 20 n) × (result ≤ 21) }
{
    match n.checked_ilog10() {
        Some(power) => power as usize + 1,
        None => 1,
    }
}

// The last k digits of a number, from a place on, the last first.
fn lay_digits(out: &mut [u8], at: usize, k: usize, n: u64)
    requires { at + k ≤ length out.old }
    ensures { out.new ≡ laid_at out.old at (digits k n) }
{
    let mut m = n;
    for i in (0..k).rev() {
        out[at + i] = b'0' + (m % 10) as u8;
        m /= 10;
    }
}

// One space and a number; it answers the place after them.
fn lay_number(out: &mut [u8], at: usize, n: u64) -> usize
    requires { at + suc (length (decimal n)) ≤ length out.old }
    ensures { (result ≡ at + suc (length (decimal n))) × (out.new ≡ laid_at out.old at (32 ∷ decimal n)) }
{
    let k = digit_count(n);
    out[at] = b' ';
    lay_digits(out, at + 1, k, n);
    at + 1 + k
}

// The numbers of a line, each after one space; it answers the place after them.
fn lay_numbers(out: &mut [u8], at: usize, numbers: &[u64]) -> usize
    requires { at + length (spaced numbers.now) ≤ length out.old }
    ensures { (result ≡ at + length (spaced numbers.now)) × (out.new ≡ laid_at out.old at (spaced numbers.now)) }
{
    let mut place = at;
    for n in numbers {
        place = lay_number(out, place, *n);
    }
    place
}

// A whole line: its mark, its numbers, a newline.
fn lay_line<const N: usize>(out: &mut [u8], at: usize, line: &Line<N>)
    requires { at + length (line_of line.now) ≤ length out.old }
    ensures { out.new ≡ laid_at out.old at (line_of line.now) }
{
    out[at] = line.mark[0];
    out[at + 1] = line.mark[1];
    let end = lay_numbers(out, at + 2, &line.numbers);
    out[end] = b'\n';
}

// Where a line ends that begins at a place, if that is within the room.
#[tactic(auto, using(crate::proofs::WholeLine::line_length, crate::proofs::Spaced::left_length, crate::proofs::Spaced::left_out, crate::proofs::Digits::decimal_length))]
fn end_within<const N: usize>(room: usize, at: usize, line: &Line<N>) -> Option<usize>
    ensures { MatchOption result (room < at + length (line_of line.now)) (λ end. (end ≡ at + length (line_of line.now)) × (end ≤ room)) }
{
    let mut left = room.checked_sub(at)?.checked_sub(3)?;
    for n in line.numbers {
        left = left.checked_sub(1 + digit_count(n))?;
    }
    Some(room - left)
}

// At most the first 65,536 bytes of an output are used.
fn room(out: &[u8]) -> usize
    ensures { result ≡ space out.now }
{
    out.len().min(65536)
}

// A line did not fit: nothing more is written.
fn full_at(at: usize) -> Laid
    ensures { result ≡ full_at at }
{
    Laid { at, full: true }
}

// A line after those that are laid.
// Stays: the output and `laid` are no struct, since a run keeps `laid` from record to record and is lent the output for each.
pub fn put_line<const N: usize>(out: &mut [u8], laid: Laid, line: Line<N>) -> Laid
    ensures { Lays out.old laid (line_of line.entry) out.new result }
{
    if laid.full {
        return laid;
    }
    match end_within(room(out), laid.at, &line) {
        Some(end) => {
            lay_line(out, laid.at, &line);
            Laid {
                at: end,
                full: false,
            }
        }
        None => full_at(laid.at),
    }
}
