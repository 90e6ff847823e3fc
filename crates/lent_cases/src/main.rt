// 01's listing of the ledger with every call in the form where the head is lent, then a wipe. Prints each answer. `stdout` has
// the answers that 01 gives, written from 01 and not by this code, then the wipe's. Assumes that the kit's write does what it says.
#![tactic(auto)]

use answers::{Changed, Refusal};
use command_lines::Answer;
use ledger::Ledger;
use std::io;
use std::io::Write;

fn print(out: &mut impl Write, answer: Answer) -> io::Result<()> {
    say::print(out, answer).1
}

// Says a call's answer and gives the head after it.
fn said(
    out: &mut impl Write,
    head: Ledger,
    done: Result<Changed<u32, Ledger>, Refusal>,
) -> io::Result<Ledger> {
    print(out, done.map(|changed| changed.answer).into())?;
    Ok(done.map_or(head, |changed| changed.head))
}

// A refused `new` gives a head that every call refuses.
fn new(
    out: &mut impl Write,
    capacity: usize,
    limit: usize,
    storage: &[u64],
    journal: &[u32],
) -> io::Result<Ledger> {
    let made = Ledger::new(capacity, limit, storage, journal);
    print(out, made.map(|_| 0).into())?;
    Ok(made.unwrap_or_default())
}

fn assigned(
    out: &mut impl Write,
    head: Ledger,
    storage: &mut [u64],
    journal: &mut [u32],
    start: usize,
    end: usize,
    value: bool,
) -> io::Result<Ledger> {
    let done = ledger_lent::assign_through(head, storage, journal, start, end, value);
    said(out, head, done)
}

fn taken_back(
    out: &mut impl Write,
    head: Ledger,
    storage: &mut [u64],
    journal: &[u32],
) -> io::Result<Ledger> {
    let done = ledger_lent::take_back_through(head, storage, journal);
    said(out, head, done)
}

// The listing up to its first take-back.
fn first_half(
    out: &mut impl Write,
    storage: &mut [u64],
    journal: &mut [u32],
) -> io::Result<Ledger> {
    let head = new(out, 128, 20, storage, journal)?;
    let head = assigned(out, head, storage, journal, 10, 70, true)?;
    let head = assigned(out, head, storage, journal, 20, 30, false)?;
    let head = assigned(out, head, storage, journal, 0, 128, true)?;
    print(out, head.set.next_zero(storage, 0, 128).into())?;
    print(out, head.set.count(storage, 64, 128).into())?;
    Ok(head)
}

// Its take-backs, the last of which is refused.
fn second_half(
    out: &mut impl Write,
    head: Ledger,
    storage: &mut [u64],
    journal: &[u32],
) -> io::Result<Ledger> {
    let head = taken_back(out, head, storage, journal)?;
    print(out, head.set.next_one(storage, 0, 128).into())?;
    print(out, head.set.next_zero(storage, 10, 128).into())?;
    print(out, head.set.count(storage, 0, 128).into())?;
    let head = taken_back(out, head, storage, journal)?;
    let head = taken_back(out, head, storage, journal)?;
    taken_back(out, head, storage, journal)
}

// Both forms in one chain, then a marking.
fn mixed(
    out: &mut impl Write,
    head: Ledger,
    storage: &mut [u64],
    journal: &mut [u32],
) -> io::Result<Ledger> {
    let two = ledger_lent::assign_then_back(head, storage, journal, 5, 9, true);
    print(out, two.first.into())?;
    print(out, two.second.into())?;
    assigned(out, two.head, storage, journal, 1, 4, true)
}

// A wipe, after which no call stands.
fn wiped(
    out: &mut impl Write,
    head: Ledger,
    storage: &mut [u64],
    journal: &[u32],
) -> io::Result<()> {
    let done = ledger_lent::wipe_through(head, storage);
    let head = said(out, head, done)?;
    taken_back(out, head, storage, journal)?;
    Ok(())
}

fn main(rt: HostRuntime) -> io::Result<()> {
    // 2 words, 1 block
    let mut storage = [7u64; 7];
    let mut journal = [9u32; 20];
    let out = &mut rt.stdout();
    let head = first_half(out, &mut storage, &mut journal)?;
    let head = second_half(out, head, &mut storage, &journal)?;
    let head = mixed(out, head, &mut storage, &mut journal)?;
    wiped(out, head, &mut storage, &journal)
}
