// A whole input, read into a room that the caller lends.
#![tactic(auto)]

ghost use Rattle.std.specs.Prelude.{◌≤◌, length};

use std::io;
use std::io::Read;

// Reads until the room is full, the input ends or a read fails. It answers what was read, and whether a read failed.
// Stays: the loop goes on by as much as each read gave, and no method of the library reads into a lent room up to an end that may come before.
pub fn read_full<'a>(from: &mut impl Read, room: &'a mut [u8]) -> (&'a [u8], io::Result<()>)
    ensures { length result.0.now ≤ length room.old }
{
    let mut at = 0;
    while at < room.len() {
        match from.read(&mut room[at..]) {
            Ok(0) => break,
            Ok(n) => at += n,
            Err(error) => return (&room[..at], Err(error)),
        }
    }
    (&room[..at], Ok(()))
}
