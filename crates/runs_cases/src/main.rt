// Reads the runs of a small saved list through the reader that holds the bytes and a run index, lent to two steps in turn, and
// prints each run, what stands past the last one, the index there, and what stands far past it. `stdout` has the answers that
// 01's format gives. Assumes that the kit's write does what it says.
#![tactic(auto)]

use saved_list::Run;
use std::io;

fn say_run(rt: &impl Print, found: Option<Run>) -> io::Result<()> {
    match found {
        Some(Run { start, end }) => println!(rt; "{start}..{end}"),
        None => println!(rt; "none"),
    }
}

// Prints the two runs from an index on, and answers the index after them: all as the lent reader left them.
fn say_two(rt: &impl Print, file: &[u8], at: usize) -> io::Result<usize> {
    let runs = saved_list::two_steps(file, at);
    say_run(rt, runs.first)?;
    say_run(rt, runs.second)?;
    Ok(runs.at)
}

fn main(rt: HostRuntime) -> io::Result<()> {
    // W 4, 3 runs: 1..5, 10..20, 64..256
    let file =
        *b"MSL\x00\x01\x00\x04\x00\x00\x00\x03\x00\x00\x00\x01\x00\x00\x00\x05\x00\x00\x00\x0a\x00\x00\x00\x14\x00\x00\x00\x40\x00\x00\x01\x00";
    let at = say_two(&rt, &file, 0)?;
    let at = say_two(&rt, &file, at)?;
    println!(rt; "{at}")?;
    say_run(&rt, saved_list::two_steps(&file, usize::MAX).first)
}
