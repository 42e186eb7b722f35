// The corners of document 01: each is run through the entries that a host calls, and has a line with what came and what is expected. Every function
// here is proved safe and ending; that the lines are the right ones is for the file `stdout` to say.
#![tactic(auto)]

mod paper;

use showing::show::Sheet;
use std::io;

fn main(rt: HostRuntime) -> io::Result<()> {
    let mut sheet = Sheet::new(rt.stdout());
    paper::registers(&mut sheet);
    paper::rings(&mut sheet);
    paper::mappings(&mut sheet);
    paper::queue(&mut sheet);
    paper::tempting(&mut sheet);
    sheet.end()
}
