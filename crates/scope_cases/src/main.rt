// Runs 01's cases that have no star, by the set and then by the ledger, and prints each answer. `stdout` has the answers that
// 01 gives, written from 01 and not by this code. The storage and the journal start with numbers that mean nothing: a fresh
// set or ledger believes none of them. Assumes that the kit's write does what it says.
#![tactic(auto)]

use answers::{Changed, Refusal};
use command_lines::Answer;
use ledger::Ledger;
use range_bitset::RangeBitset;
use std::fmt::Display;
use std::io::{self, Write};
use std::ops::Range;

// Says a call and its answer, as `sheetmark` prints it.
fn tell(
    out: &mut impl Write,
    call: impl Display + Drop,
    answer: impl Into<Answer> + Drop,
) -> io::Result<()> {
    write!(out, "{call}: ")?;
    say::print(out, answer.into()).1
}

// The run that a search finds, or none. 01 gives its start; its end is read off the calls before it.
fn tell_found(
    out: &mut impl Write,
    call: impl Display + Drop,
    found: Result<Option<Range<usize>>, Refusal>,
) -> io::Result<()> {
    match found {
        Ok(Some(run)) => writeln!(out, "{call}: {} to {}", run.start, run.end),
        other => tell(out, call, other),
    }
}

// A call that changes something: the head becomes the one that it gives, and stays where it is refused.
fn tell_changed<T: Into<u32>, H: Copy>(
    out: &mut impl Write,
    call: impl Display + Drop,
    done: Result<Changed<T, H>, Refusal>,
    head: &mut H,
) -> io::Result<()> {
    let answer = done.map(|done| -> u32 { done.store(head).into() });
    tell(out, call, answer)
}

// ---- the set

// Says the capacity of a new set. A refused one gives the default head, which every call refuses.
fn new(out: &mut impl Write, capacity: usize) -> io::Result<RangeBitset> {
    let made = RangeBitset::new(capacity);
    tell(
        out,
        format_args!("new {capacity}"),
        made.and_then(RangeBitset::capacity),
    )?;
    Ok(made.unwrap_or_default())
}

fn assign(
    out: &mut impl Write,
    head: &mut RangeBitset,
    storage: &mut [u64],
    range: Range<usize>,
    value: bool,
) -> io::Result<()> {
    let name = if value { "set" } else { "clear" };
    let Range { start, end } = range;
    let done = head.assign(storage, start, end, value);
    tell_changed(out, format_args!("{name} {start}..{end}"), done, head)
}

// The positions with these ordinals.
fn select(
    out: &mut impl Write,
    head: RangeBitset,
    storage: &[u64],
    ordinals: &[usize],
) -> io::Result<()> {
    for &n in ordinals {
        tell(out, format_args!("select {n}"), head.select(storage, n))?;
    }
    Ok(())
}

// A range over a border of blocks. By ordinal: the first position, those beside the border, the last, and one past it.
fn over_a_border(out: &mut impl Write, storage: &mut [u64]) -> io::Result<()> {
    let mut head = new(out, 8192)?;
    assign(out, &mut head, storage, 4032..4160, true)?;
    tell(out, "count 4095..4097", head.count(storage, 4095, 4097))?;
    select(out, head, storage, &[0, 63, 64, 128])
}

// One block of a full set cleared. By ordinal: the last position before the block, the first after it, the last of all, and one
// past it.
fn a_block_cleared(out: &mut impl Write, storage: &mut [u64]) -> io::Result<()> {
    let mut head = new(out, 16384)?;
    assign(out, &mut head, storage, 0..16384, true)?;
    assign(out, &mut head, storage, 4096..8192, false)?;
    tell_found(out, "next_zero 0..16384", head.next_zero(storage, 0, 16384))?;
    tell_found(
        out,
        "next_one 4096..16384",
        head.next_one(storage, 4096, 16384),
    )?;
    select(out, head, storage, &[4095, 4096, 12287, 12288])
}

// The largest set, filled and emptied, and one position of it set: numbers that were left from before are not believed.
fn set_again(out: &mut impl Write, storage: &mut [u64]) -> io::Result<()> {
    let mut head = new(out, 262144)?;
    assign(out, &mut head, storage, 0..262144, true)?;
    assign(out, &mut head, storage, 0..262144, false)?;
    tell_changed(out, "set 4095", head.set(storage, 4095, true), &mut head)?;
    tell(out, "population", head.len())?;
    select(out, head, storage, &[0, 1])
}

// One capacity that is 32 off, and one that is too large.
fn not_allowed(out: &mut impl Write) -> io::Result<()> {
    for capacity in [96, 524288] {
        new(out, capacity)?;
    }
    Ok(())
}

// ---- the ledger

// Says 0 for a new ledger. A refused one gives the default head, which every call refuses.
fn began(out: &mut impl Write, name: &str, made: Result<Ledger, Refusal>) -> io::Result<Ledger> {
    tell(out, name, made.map(|_| 0))?;
    Ok(made.unwrap_or_default())
}

// The range over a border of blocks; no room for another call; the one call taken back, and none left.
fn border_taken_back(
    out: &mut impl Write,
    storage: &mut [u64],
    journal: &mut [u32],
) -> io::Result<()> {
    let mut head = began(out, "ledger 8192", Ledger::new(8192, 3, storage, journal))?;
    let done = head.mark(storage, journal, 4032, 4160);
    tell_changed(out, "mark 4032..4160", done, &mut head)?;
    tell(out, "count 4095..4097", head.set.count(storage, 4095, 4097))?;
    let done = head.mark(storage, journal, 0, 1);
    tell_changed(out, "mark 0..1", done, &mut head)?;
    for _ in 0..2 {
        let done = head.take_back(storage, journal);
        tell_changed(out, "back", done, &mut head)?;
    }
    Ok(())
}

// The largest ledger, filled and emptied, and one position of it marked; all of it wiped.
fn wiped(out: &mut impl Write, storage: &mut [u64], journal: &mut [u32]) -> io::Result<()> {
    let mut head = began(
        out,
        "ledger 262144",
        Ledger::new(262144, 9, storage, journal),
    )?;
    let done = head.mark(storage, journal, 0, 262144);
    tell_changed(out, "mark 0..262144", done, &mut head)?;
    let done = head.clear(storage, journal, 0, 262144);
    tell_changed(out, "clear 0..262144", done, &mut head)?;
    let done = head.mark_point(storage, journal, 4095);
    tell_changed(out, "mark point 4095", done, &mut head)?;
    tell(out, "population", head.set.len())?;
    tell_changed(out, "wipe", head.wipe(storage), &mut head)
}

// A capacity that is 32 off, one that is too large, and a journal that is too long.
fn no_ledger(out: &mut impl Write, storage: &[u64], journal: &[u32]) -> io::Result<()> {
    began(out, "ledger 96", Ledger::new(96, 9, storage, journal))?;
    began(
        out,
        "ledger 524288",
        Ledger::new(524288, 9, storage, journal),
    )?;
    began(
        out,
        "journal 16385",
        Ledger::new(64, 16385, storage, journal),
    )?;
    Ok(())
}

fn main(rt: HostRuntime) -> io::Result<()> {
    let mut storage = [0x5555555555555555; 4290];
    let mut journal = [0x55555555; 16];
    let out = &mut rt.stdout();
    over_a_border(out, &mut storage)?;
    a_block_cleared(out, &mut storage)?;
    set_again(out, &mut storage)?;
    not_allowed(out)?;
    border_taken_back(out, &mut storage, &mut journal)?;
    wiped(out, &mut storage, &mut journal)?;
    no_ledger(out, &storage, &journal)
}
