// Reads a saved list from standard input, opens it, writes the opened set again, and prints those bytes, or the refusal: `stdout` is
// `stdin`, which was made from 01's format and not by this code. The two round trips, from a set to its file and back and from a
// file to its set and back, are theorems over the promises of writing and opening (specs/RoundTrip.antt, proofs/RoundTrips.antt).
// Assumes that std's read and write do what they say, and that the file has at most 4,096 bytes: more are not read.
#![tactic(auto)]

ghost use Rattle.std.specs.Prelude.{length};
ghost use Rattle.round_trip.specs.RoundTrip.{Agrees};

use ledger::{Ledger, NotOpened};
use std::io;
use std::io::{Read, Write};

// Opens a file and writes what was opened into a buffer: buffer and file agree.
fn open_and_write(
    file: &[u8],
    limit: usize,
    storage: &mut [u64],
    journal: &[u32],
    buffer: &mut [u8],
) -> Result<u32, NotOpened>
    ensures { Agrees file.now limit (length storage.old) (length journal.now) buffer.old result buffer.new }
{
    let head = Ledger::open(file, limit, storage, journal)?;
    let length = list_writer::write(head.set, storage, buffer)?;
    Ok(length)
}

// A refusal is printed by its number alone, and a bad run too, whose index no `Display` would leave out.
fn main(rt: HostRuntime) -> io::Result<()> {
    let mut file = Vec::new(rt.alloc());
    rt.stdin().take(4096).read_to_end(&mut file)?;
    let mut storage = [0x5555555555555555u64; 4290];
    let journal = [0x55555555u32; 4];
    let mut buffer = [0u8; 4096];
    match open_and_write(file.as_slice(), 4, &mut storage, &journal, &mut buffer) {
        Ok(length) => rt.stdout().write_all(&buffer[..length as usize]),
        Err(NotOpened::Refused(refusal)) => print!(rt; "refused {}", u8::from(refusal)),
        Err(NotOpened::BadRun(_)) => print!(rt; "refused 8"),
    }
}
