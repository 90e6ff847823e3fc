// Replays a recorded list of calls on the set and prints each answer, one a line: a number, or `-` for none. Standard input
// is the list, one call a line (oracle/src/lists.rs has the format), and the file `stdout` has the Rust's own answers. A refused
// call prints `refused` and the number, and a line with another letter `bad line`: the Rust answers neither.
//
// The list is read byte by byte, so that a line is never longer than its four parts. Assumes that the kit's read and write do
// what they say, and that a list's numbers have at most nine digits.
#![tactic(auto)]

use answers::Refusal;
use command_lines::Answer;
use range_bitset::RangeBitset;
use std::io::{self, Read, Write};

// What a line asks for.
#[derive(Clone, Copy)]
enum Call {
    New(usize),
    Assign(usize, usize, bool),
    Set(usize, bool),
    Clear,
    Get(usize),
    Count(usize, usize),
    NextOne(usize, usize),
    NextZero(usize, usize),
    Len,
    Capacity,
}

// The line under way: its letter, the number that the next digit belongs to, and its numbers. What a line leaves out is 0.
#[derive(Clone, Copy, Default)]
struct Line {
    letter: u8,
    field: u8,
    first: usize,
    second: usize,
    third: usize,
}

// `number` with one more digit. The digits' bytes are 48 to 57, so their last four bits are the digit; of a number
// with more than nine digits the first ones are lost.
fn grown(number: usize, byte: u8) -> usize {
    number % 100000000 * 10 + (byte % 16) as usize
}

impl Line {
    // One byte more: a space starts the next number; any other byte is the letter, or a digit of the present number.
    fn take(&mut self, byte: u8) {
        match (byte, self.field) {
            (b' ', field) => self.field = field.saturating_add(1).min(3),
            (letter, 0) => self.letter = letter,
            (digit, 1) => self.first = grown(self.first, digit),
            (digit, 2) => self.second = grown(self.second, digit),
            (digit, _) => self.third = grown(self.third, digit),
        }
    }

    // The call of a line: its letter, and its numbers.
    fn call(self) -> Option<Call> {
        let Line {
            letter,
            field: _,
            first,
            second,
            third,
        } = self;
        let call = match letter {
            b'n' => Call::New(first),
            b'a' => Call::Assign(first, second, third != 0),
            b's' => Call::Set(first, second != 0),
            b'x' => Call::Clear,
            b'g' => Call::Get(first),
            b'c' => Call::Count(first, second),
            b'o' => Call::NextOne(first, second),
            b'z' => Call::NextZero(first, second),
            b'l' => Call::Len,
            b'k' => Call::Capacity,
            _ => return None,
        };
        Some(call)
    }
}

// A new set: its capacity.
fn renewed(head: &mut RangeBitset, capacity: usize) -> Result<u32, Refusal> {
    *head = RangeBitset::new(capacity)?;
    head.capacity()
}

// Makes a call; gives what is printed for it, of the run that a search finds the start, as the Rust does.
fn perform(head: &mut RangeBitset, storage: &mut [u64], call: Call) -> Answer {
    match call {
        Call::New(capacity) => renewed(head, capacity).into(),
        Call::Assign(start, end, value) => {
            let done = head.assign(storage, start, end, value);
            done.map(|changed| changed.store(head)).into()
        }
        Call::Set(index, value) => {
            let done = head.set(storage, index, value);
            done.map(|changed| changed.store(head)).into()
        }
        Call::Clear => {
            let done = head.clear(storage);
            done.map(|changed| changed.store(head)).into()
        }
        Call::Get(index) => head.get(storage, index).into(),
        Call::Count(start, end) => head.count(storage, start, end).into(),
        Call::NextOne(from, end) => head.next_one(storage, from, end).into(),
        Call::NextZero(from, end) => head.next_zero(storage, from, end).into(),
        Call::Len => head.len().into(),
        Call::Capacity => head.capacity().into(),
    }
}

// Answers a line. The Rust's list has `-` where an answer's text is `none`.
fn answer(
    out: &mut impl Write,
    head: &mut RangeBitset,
    storage: &mut [u64],
    line: Line,
) -> io::Result<()> {
    let Some(call) = line.call() else {
        return say::print(out, Answer::BadLine).1;
    };
    match perform(head, storage, call) {
        Answer::Nothing => writeln!(out, "-"),
        answer => say::print(out, answer).1,
    }
}

// Answers the lines that end in a part of the list; gives the line that goes on after it.
fn answer_part(
    out: &mut impl Write,
    head: &mut RangeBitset,
    storage: &mut [u64],
    line: Line,
    text: &[u8],
) -> io::Result<Line> {
    let mut line = line;
    for &byte in text {
        if byte == b'\n' {
            answer(out, head, storage, line)?;
            line = Line::default();
        } else {
            line.take(byte);
        }
    }
    Ok(line)
}

// A proved loop has to end, and nothing says that the input does: the reads are counted up to a number that no run uses up.
fn main(rt: HostRuntime) -> io::Result<()> {
    let mut storage = [0; 4290];
    let mut head = RangeBitset::default();
    let mut line = Line::default();
    let mut buffer = [0; 4096];
    let (mut input, mut out) = (rt.stdin(), rt.stdout());
    for _ in 0..u64::MAX {
        let n = input.read(&mut buffer)?;
        if n == 0 {
            break;
        }
        line = answer_part(&mut out, &mut head, &mut storage, line, &buffer[..n])?;
    }
    Ok(())
}
