// What no trace reaches: units that configuration and commands never make, the row after a refused write, and, in `twice`, one command at a time. Each
// has a line with what came and what is expected. Every function here is proved safe and ending; that the lines are the right ones is for the file
// `stdout` to say.
#![tactic(auto)]

mod twice;
mod units;

use showing::show::Sheet;
use std::io;

fn main(rt: HostRuntime) -> io::Result<()> {
    let mut sheet = Sheet::new(rt.stdout());
    units::configurations(&mut sheet);
    units::rings(&mut sheet);
    units::stalled(&mut sheet);
    units::tables(&mut sheet);
    units::row(&mut sheet);
    twice::commands(&mut sheet);
    sheet.end()
}
