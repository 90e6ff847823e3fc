// Reads each saved list that its arguments name, and prints what the reader gives, in the order of opening: the name, then
// refusal 7 for the header, 7 for the length, or 8 with the first bad run's index, or else W, n and the runs.
// What it prints is held to `stdout`, which was made from 01's format and not by this code. Assumes that the kit's arguments, open,
// read and write do what they say, and that a file has at most 4,096 bytes: more are not read.
#![tactic(auto)]

use saved_list::{BadRun, Header, Run, Runs};
use std::io::Read;
use std::rt::Files;
use std::{env, fs, io};

// The run rule, and where no run is bad, W, n and each run as start..end.
fn print_checked(rt: &impl Print, file: &[u8], header: Header) -> io::Result<()> {
    if let Err(BadRun { index }) = saved_list::check_runs(file) {
        return print!(rt; "refused 8, run {index}");
    }
    let Header { words, runs } = header;
    print!(rt; "W {words}, n {runs}")?;
    for Run { start, end } in Runs::new(file) {
        print!(rt; ", {start}..{end}")?;
    }
    Ok(())
}

// What opening the file gives, but for refusals 1 and 3: by number, with the place of it, which a `Display` of a refusal does not know.
fn print_file(rt: &impl Print, file: &[u8]) -> io::Result<()> {
    match saved_list::read_header(file) {
        Err(refusal) => print!(rt; "refused {}, header", u8::from(refusal)),
        Ok(header) => match saved_list::check_length(file) {
            Err(refusal) => print!(rt; "refused {}, length", u8::from(refusal)),
            Ok(()) => print_checked(rt, file, header),
        },
    }
}

// The file of a name, on one line. One that cannot be opened is told apart, and the next one is taken; of one that cannot be read to
// its end there is what was read.
fn print_named(rt: &(impl Files + Alloc + Print + Eprint), name: &str) -> io::Result<()> {
    let file = match fs::open(rt, name) {
        Ok(file) => file,
        Err(error) => return eprintln!(rt; "{name}: {error}"),
    };
    let mut bytes = Vec::new(rt.alloc());
    let _ = file.take(4096).read_to_end(&mut bytes);
    print!(rt; "{name}: ")?;
    print_file(rt, bytes.as_slice())?;
    println!(rt)
}

fn main(rt: HostRuntime) -> io::Result<()> {
    for name in env::args(&rt)?.skip(1) {
        print_named(&rt, name.as_str())?;
    }
    Ok(())
}
