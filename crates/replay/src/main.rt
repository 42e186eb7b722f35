// Replays recorded traces: the arguments name files in pairs, a trace and the lines that are expected of it. Each trace goes through the plain
// function of the C call, and every line is compared. A difference is printed with the trace's name, the line's number and both lines; at the
// end stands how many traces and lines agreed.
//
// Every function here is proved safe and ending, and no more.
#![tactic(auto)]

ghost use Rattle.std.specs.Prelude.{◌≤◌, length};

use std::env::{Env, FillError};
use std::fs::File;
use std::io;
use std::rt::Files;

#[derive(Clone, Copy)]
struct Tally {
    traces: u64,
    lines: u64,
    other: u64,
}

// An argument, put at the start of the room: nothing where it is missing, or longer than the room.
fn named<'a>(rt: &impl Env, argument: usize, room: &'a mut [u8]) -> &'a [u8]
    ensures { length result.now ≤ length room.old }
{
    let n = rt.arg(argument, room).unwrap_or(0);
    &room[..n]
}

// How many arguments there are, the program's own name among them.
fn argument_count(rt: &impl Env) -> usize {
    let mut name = [0u8; 4096];
    for i in 0..usize::MAX {
        if matches!(rt.arg(i, &mut name), Err(FillError::NotPresent)) {
            return i;
        }
    }
    usize::MAX
}

// A path is text here: a name that is none counts as a file that is not there.
fn open_named<R: Files>(rt: &R, name: &[u8]) -> Option<R::File> {
    let path = std::str::from_utf8(name).ok()?;
    File::open(rt, path).ok()
}

// Reads the file that an argument names, as far as there is room. A file that does not open has no bytes, and one that fails ends there.
fn read_named<'a>(rt: &(impl Env + Files), argument: usize, room: &'a mut [u8]) -> &'a [u8]
    ensures { length result.now ≤ length room.old }
{
    let mut name = [0u8; 4096];
    match open_named(rt, named(rt, argument, &mut name)) {
        Some(mut file) => input::read_full(&mut file, room).0,
        None => b"",
    }
}

// What is expected, up to the first byte that differs.
fn agreeing<'a>(expected: &'a [u8], lines: &[u8]) -> &'a [u8] {
    let n = expected
        .iter()
        .zip(lines)
        .take_while(|(a, b)| a == b)
        .count();
    &expected[..n]
}

// Where the last line starts of bytes that agree: it is the first that may differ.
fn last_start(agreed: &[u8]) -> usize {
    agreed
        .iter()
        .rposition(|byte| *byte == b'\n')
        .map_or(0, |i| i + 1)
}

fn line_count(agreed: &[u8]) -> u64 {
    agreed.iter().filter(|byte| **byte == b'\n').count() as u64
}

// The last whole line that is no `AC` line.
fn last_other(agreed: &[u8]) -> Option<&[u8]> {
    agreed
        .split_inclusive(|byte| *byte == b'\n')
        .rev()
        .find(|line| line.ends_with(b"\n") && !line.starts_with(b"AC"))
}

// Whether the lines are those expected, as far as these go. A recording of the Rust ends with the line of a write refused with 9 and its `AC` lines,
// since the Rust's tables are never full.
fn as_expected(lines: &[u8], expected: &[u8], agreed: &[u8]) -> bool {
    agreed.len() == expected.len()
        && (lines.len() == expected.len()
            || last_other(agreed).unwrap_or(expected).starts_with(b"WR 9 "))
}

// The line that starts at a place.
fn print_line(rt: &impl Print, bytes: &[u8], start: usize) -> io::Result<()> {
    let line = bytes
        .get(start..)
        .unwrap_or(b"")
        .split(|byte| *byte == b'\n')
        .next()
        .unwrap_or(b"");
    rt.write_all(if line.is_empty() { b"no line" } else { line })
}

fn report(
    rt: &(impl Env + Print),
    argument: usize,
    lines: &[u8],
    expected: &[u8],
    agreed: &[u8],
) -> io::Result<()> {
    let mut name = [0u8; 4096];
    rt.write_all(named(rt, argument, &mut name))?;
    let number = line_count(agreed).wrapping_add(1);
    print!(rt; ": line {number} is `")?;
    let start = last_start(agreed);
    print_line(rt, lines, start)?;
    print!(rt; "`, expected `")?;
    print_line(rt, expected, start)?;
    println!(rt; "`")
}

fn compare(
    rt: &(impl Env + Print),
    argument: usize,
    lines: &[u8],
    expected: &[u8],
    tally: &mut Tally,
) -> io::Result<()> {
    let agreed = agreeing(expected, lines);
    tally.lines = tally.lines.wrapping_add(line_count(agreed));
    // An empty file would agree with everything.
    if !expected.is_empty() && as_expected(lines, expected, agreed) {
        tally.traces = tally.traces.wrapping_add(1);
        return Ok(());
    }
    report(rt, argument, lines, expected, agreed)?;
    tally.other = tally.other.wrapping_add(1);
    Ok(())
}

// The trace that an argument names, and the lines that the next one names.
fn replay(rt: &(impl Env + Files + Print), argument: usize, tally: &mut Tally) -> io::Result<()> {
    let mut trace_room = [0u8; 65536];
    let trace = read_named(rt, argument, &mut trace_room);
    let mut expected_room = [0u8; 65536];
    let expected = read_named(rt, argument.wrapping_add(1), &mut expected_room);
    let mut out = [0u8; 65536];
    let number = trace::run_trace(trace, &mut out);
    let end = ((number / 16) as usize).min(out.len());
    compare(rt, argument, &out[..end], expected, tally)
}

fn replay_all(rt: &(impl Env + Files + Print)) -> io::Result<Tally> {
    let mut tally = Tally {
        traces: 0,
        lines: 0,
        other: 0,
    };
    for argument in (1..argument_count(rt)).step_by(2) {
        replay(rt, argument, &mut tally)?;
    }
    Ok(tally)
}

fn main(rt: HostRuntime) -> io::Result<()> {
    let Tally {
        traces,
        lines,
        other,
    } = replay_all(&rt)?;
    println!(rt; "{traces} traces with {lines} lines agree, {other} differ")
}
