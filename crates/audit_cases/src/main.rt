// Asks the audit about memories that differ in one number from a sound one, rule by rule, and prints yes, no or the refusal.
// What it prints is held to `stdout`, which was made from 01's rules and not by this code. Assumes that the kit's write does what it
// says.
//
// Most cases have 2 words, in one block. The storage is then: word 0, word 1, the block's nonzero mask, its full mask, its
// population, the top nonzero mask, the top full mask. Word 0 is 11, three positions; word 1 is full, so what stands there is
// stale; the population is 67.
#![tactic(auto)]

use command_lines::Answer;
use range_bitset::{ALL, RangeBitset};
use std::io::{self, Write};

const SOUND: [u64; 7] = [11, 5, 3, 2, 67, 1, 0];

// A case of 2 words whose flag is set: its name, the head's population, and the storage.
type Case = (&'static str, u32, &'static [u64]);

const STALE_NUMBERS: [Case; 5] = [
    ("sound", 67, &SOUND),
    (
        "a word under a full mark is stale",
        67,
        &[11, 0, 3, 2, 67, 1, 0],
    ),
    ("all set", 128, &[1, 2, 3, 4, 5, 1, 1]),
    ("all clear", 0, &[1, 2, 3, 4, 5, 0, 0]),
    (
        "a number past those needed",
        67,
        &[11, 5, 3, 2, 67, 1, 0, 9],
    ),
];

const TOP_MASKS: [Case; 4] = [
    ("a top nonzero bit at B", 67, &[11, 5, 3, 2, 67, 3, 0]),
    (
        "the last top nonzero bit",
        67,
        &[11, 5, 3, 2, 67, 1 << 63 | 1, 0],
    ),
    ("a top full bit at B", 67, &[11, 5, 3, 2, 67, 1, 2]),
    ("top full outside top nonzero", 128, &[1, 2, 3, 4, 5, 0, 1]),
];

const BLOCK_MASKS: [Case; 5] = [
    ("a nonzero bit past the words", 67, &[11, 5, 7, 2, 67, 1, 0]),
    ("a full bit past the words", 67, &[11, 5, 3, 6, 67, 1, 0]),
    ("full outside nonzero", 67, &[11, 5, 1, 2, 67, 1, 0]),
    ("a mixed block with no word", 0, &[11, 5, 0, 0, 0, 1, 0]),
    (
        "a mixed block with all words full",
        128,
        &[11, 5, 3, 3, 128, 1, 0],
    ),
];

const STORED_WORDS: [Case; 3] = [
    ("a stored word of one position", 65, &[1, 5, 3, 2, 65, 1, 0]),
    ("a stored word that is 0", 64, &[0, 5, 3, 2, 64, 1, 0]),
    (
        "a stored word that is all ones",
        128,
        &[ALL, 5, 3, 2, 128, 1, 0],
    ),
];

// Word 1 is stored too, or is clear, so that its number is stale.
const SECOND_WORDS: [Case; 5] = [
    ("two stored words", 5, &[11, 5, 3, 0, 5, 1, 0]),
    ("a second stored word that is 0", 3, &[11, 0, 3, 0, 3, 1, 0]),
    (
        "a second stored word that is all ones",
        67,
        &[11, ALL, 3, 0, 67, 1, 0],
    ),
    (
        "a word outside the nonzero mask is stale",
        3,
        &[11, 5, 1, 0, 3, 1, 0],
    ),
    (
        "a stale word in the populations",
        5,
        &[11, 5, 1, 0, 5, 1, 0],
    ),
];

const POPULATIONS: [Case; 4] = [
    (
        "a block's population one less",
        67,
        &[11, 5, 3, 2, 66, 1, 0],
    ),
    (
        "a block's population one more",
        67,
        &[11, 5, 3, 2, 68, 1, 0],
    ),
    ("the head's population one less", 66, &SOUND),
    ("the head's population one more", 68, &SOUND),
];

// Prints what the audit says of a head and its storage: a name and yes or no, or the refusal, as `sheetmark` prints it.
fn say_audit(
    out: &mut impl Write,
    name: &str,
    head: RangeBitset,
    storage: &[u64],
) -> io::Result<()> {
    write!(out, "{name}: ")?;
    match audit::audit(head, storage) {
        Ok(true) => writeln!(out, "yes"),
        Ok(false) => writeln!(out, "no"),
        Err(refusal) => say::print(out, Answer::Refused(refusal.into())).1,
    }
}

// A head whose flag is set.
fn begun(words: u32, len: u32) -> RangeBitset {
    RangeBitset {
        words,
        len,
        allocated: true,
    }
}

fn say_cases(out: &mut impl Write, cases: &[Case]) -> io::Result<()> {
    for &(name, len, storage) in cases {
        say_audit(out, name, begun(2, len), storage)?;
    }
    Ok(())
}

fn flag_clear(out: &mut impl Write) -> io::Result<()> {
    let fresh = RangeBitset {
        words: 2,
        ..RangeBitset::default()
    };
    say_audit(out, "flag clear, population 0", fresh, &SOUND)?;
    let one = RangeBitset { len: 1, ..fresh };
    say_audit(out, "flag clear, population 1", one, &SOUND)
}

// 128 words: block 0 is full, block 1 has position 4,096 alone.
fn two_blocks(out: &mut impl Write) -> io::Result<()> {
    let mut storage = [0; 136];
    storage[64] = 1;
    storage[129] = 1;
    storage[133] = 1;
    storage[134] = 3;
    storage[135] = 1;
    say_audit(out, "two blocks", begun(128, 4097), &storage)?;
    storage[133] = 2;
    say_audit(
        out,
        "two blocks, the second's population",
        begun(128, 4097),
        &storage,
    )?;
    storage[133] = 1;
    say_audit(
        out,
        "two blocks, the head's population",
        begun(128, 4096),
        &storage,
    )
}

fn refusals(out: &mut impl Write) -> io::Result<()> {
    say_audit(out, "3 words", begun(3, 67), &SOUND)?;
    say_audit(out, "population above the capacity", begun(2, 129), &SOUND)?;
    say_audit(out, "storage one short", begun(2, 67), &SOUND[..6])?;
    say_audit(out, "both, the head first", begun(3, 67), &[11])
}

fn main(rt: HostRuntime) -> io::Result<()> {
    let out = &mut rt.stdout();
    say_cases(out, &STALE_NUMBERS)?;
    say_cases(out, &TOP_MASKS)?;
    say_cases(out, &BLOCK_MASKS)?;
    say_cases(out, &STORED_WORDS)?;
    say_cases(out, &SECOND_WORDS)?;
    say_cases(out, &POPULATIONS)?;
    flag_clear(out)?;
    two_blocks(out)?;
    refusals(out)
}
