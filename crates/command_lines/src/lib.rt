// The lines of `sheetmark`: what a command line means, the text of an answer, and lines gathered from input in parts.
// Every buffer is lent by the caller. Nothing here knows of a ledger, and nothing reads or writes a file. Assumes nothing of its
// callers: no entry has a `requires`.
#![tactic(auto)]

ghost use Rattle.std.specs.Prelude.{◌≡◌, ◌++◌, ◌+◌, ◌≤◌, ◌<◌, cond, length, take, position, MatchOption, option_copied, ◌==◌};
ghost use Rattle.std.proofs.lemmas.List.Edits.{sets};
ghost use Rattle.positions.specs.Positions.{one};
ghost use Rattle.positions.specs.Replies.{number};
ghost use Rattle.answers.specs.Refusals.{of_result, of_position, of_range};
ghost use Rattle.command_lines.specs.Lines.{fields, is_number, value, pair, alone, with, meaning};
ghost use Rattle.command_lines.specs.Inner.{SplitsAt};
ghost use Rattle.command_lines.specs.Answers.{answer_of, low32, text, printed, out_after, used_after, pushed};
ghost use Rattle.command_lines.specs.Input.{Splits, Gathers, kept_after, Pushes};

use answers::Refusal;
use arrayvec::ArrayVec;
use itoa::Buffer;
use std::ops::Range;

// What a line asks for: `new` with capacity and journal length, or a call, most with start and end.
#[derive(Clone, Copy, Debug, PartialEq, Eq)]
pub enum Command {
    New(u32, u32),
    Mark(u32, u32),
    Clear(u32, u32),
    Count(u32, u32),
    One(u32, u32),
    Zero(u32, u32),
    Back,
    Wipe,
}

// What is printed. A refusal is the number that stands in its line, so that any can be printed: `Refusal` has no 8, which comes with an index.
#[derive(Clone, Copy, Debug, PartialEq, Eq)]
pub enum Answer {
    Number(u32),
    Nothing,
    Refused(u8),
    BadLine,
}

// What is printed for what the library answers: a count.
impl From<Result<u32, Refusal>> for Answer {
    ghost from_gives = { λ counted printed. printed ≡ answer_of (of_result number counted) };

    fn from(counted: Result<u32, Refusal>) -> Answer {
        match counted {
            Ok(n) => Answer::Number(n),
            Err(refusal) => Answer::Refused(refusal.into()),
        }
    }
}

// A truth: 1 for yes, 0 for no.
impl From<Result<bool, Refusal>> for Answer {
    ghost from_gives = { λ tested printed. printed ≡ answer_of (of_result (λ b. number (one b)) tested) };

    fn from(tested: Result<bool, Refusal>) -> Answer {
        Answer::from(tested.map(u32::from))
    }
}

// A run's start alone. A position is below the capacity, so that 32 bits hold it; any other number is cut to them.
impl From<Result<Option<Range<usize>>, Refusal>> for Answer {
    ghost from_gives = { λ found printed. printed ≡ answer_of (low32 (of_result of_range found)) };

    fn from(found: Result<Option<Range<usize>>, Refusal>) -> Answer {
        match found {
            Ok(Some(run)) => Answer::Number((run.start % 0x1_0000_0000) as u32),
            Ok(None) => Answer::Nothing,
            Err(refusal) => Answer::Refused(refusal.into()),
        }
    }
}

// A place, cut in the same way.
impl From<Result<Option<usize>, Refusal>> for Answer {
    ghost from_gives = { λ placed printed. printed ≡ answer_of (low32 (of_result of_position placed)) };

    fn from(placed: Result<Option<usize>, Refusal>) -> Answer {
        match placed {
            Ok(Some(at)) => Answer::Number((at % 0x1_0000_0000) as u32),
            Err(refusal) => Answer::Refused(refusal.into()),
            _ => Answer::Nothing,
        }
    }
}

// ---- what a line means

// The index of the first such byte.
fn find(text: &[u8], byte: u8) -> Option<usize>
    ensures { result ≡ position (λ b. b == byte) text.now }
{
    text.iter().position(|b| *b == byte)
}

// The text before the first such byte, and the text behind it.
fn split_once(text: &[u8], byte: u8) -> Option<(&[u8], &[u8])>
    ensures { MatchOption result (position (λ b. b == byte) text.now ≡ None) (λ p. SplitsAt byte text.now p.0.now p.1.now) }
{
    let at = find(text, byte)?;
    Some((&text[..at], &text[at + 1..]))
}

// The number that a field is. By hand, since `parse` takes a sign and digits without end.
fn number(field: &[u8]) -> Option<u32>
    ensures { result ≡ cond (is_number field.now) (Some (value field.now)) None }
{
    if field.is_empty() || field.len() > 10 {
        return None;
    }
    let mut value = 0u64;
    for b in field {
        if !b.is_ascii_digit() {
            return None;
        }
        value = value * 10 + u64::from(b - b'0');
    }
    u32::try_from(value).ok()
}

// The two numbers that a text consists of.
fn two_numbers(text: &[u8]) -> Option<(u32, u32)>
    ensures { result ≡ pair (fields text.now) }
{
    let (first, second) = split_once(text, b' ')?;
    Some((number(first)?, number(second)?))
}

// The command of a keyword alone.
fn lone_command(keyword: &[u8]) -> Option<Command>
    ensures { result ≡ alone keyword.now }
{
    match keyword {
        b"back" => Some(Command::Back),
        b"wipe" => Some(Command::Wipe),
        _ => None,
    }
}

// The command of a keyword with its two numbers.
fn command_with(keyword: &[u8], a: u32, b: u32) -> Option<Command>
    ensures { result ≡ with keyword.now (Some (a, b)) }
{
    match keyword {
        b"new" => Some(Command::New(a, b)),
        b"mark" => Some(Command::Mark(a, b)),
        b"clear" => Some(Command::Clear(a, b)),
        b"count" => Some(Command::Count(a, b)),
        b"one" => Some(Command::One(a, b)),
        b"zero" => Some(Command::Zero(a, b)),
        _ => None,
    }
}

// What a line means; None where it is bad. The line comes without its newline.
pub fn parse(line: &[u8]) -> Option<Command>
    ensures { result ≡ meaning line.now }
{
    let Some((keyword, rest)) = split_once(line, b' ') else {
        return lone_command(line);
    };
    let (a, b) = two_numbers(rest)?;
    command_with(keyword, a, b)
}

// ---- what is printed

// Puts the bytes of `text` behind what the output holds.
fn put<const N: usize>(out: &mut ArrayVec<u8, N>, text: &[u8])
    requires { length out.old.items + length text.now ≤ N }
    ensures { out.new.items ≡ out.old.items ++ text.now }
{
    let _ = out.try_extend_from_slice(text);
}

// Puts an answer's text behind what the output holds. The longest is `refused 255`.
#[tactic(auto, using(crate::proofs::Decimals::digits_decimal, std::proofs::Common::append_assoc))]
fn put_text<const N: usize>(out: &mut ArrayVec<u8, N>, answer: Answer)
    requires { length out.old.items + 11 ≤ N }
    ensures stored { out.new.items ≡ out.old.items ++ text answer }
    ensures bounded { length out.new.items ≤ length out.old.items + 11 }
{
    let mut digits = Buffer::new();
    match answer {
        Answer::Number(n) => put(out, digits.format(n).as_bytes()),
        Answer::Nothing => put(out, b"none"),
        Answer::Refused(k) => {
            put(out, b"refused ");
            put(out, digits.format(k).as_bytes());
        }
        Answer::BadLine => put(out, b"bad line"),
    }
}

// Puts an answer's line behind what the output holds. The longest line is `refused 255` and a newline, 12 bytes. Where fewer are
// free, nothing is put.
pub fn push_answer<const N: usize>(out: &mut ArrayVec<u8, N>, answer: Answer)
    ensures stored { out.new.items ≡ pushed N out.old.items answer }
    ensures bounded { length out.new.items ≤ length out.old.items + 12 }
{
    if out.remaining_capacity() < 12 {
        return;
    }
    put_text(out, answer);
    put(out, b"\n");
}

// An answer's line by itself, for a buffer of any kind.
pub fn answer_line(answer: Answer) -> ArrayVec<u8, 12>
    ensures { result.items ≡ printed answer }
{
    let mut line = ArrayVec::new();
    push_answer(&mut line, answer);
    line
}

// Stores bytes at a place.
fn store(out: &mut [u8], at: usize, bytes: &[u8])
    requires { at + length bytes.now ≤ length out.old }
    ensures { out.new ≡ sets out.old at bytes.now }
{
    out[at..at + bytes.len()].copy_from_slice(bytes);
}

// Puts an answer's line into the output, which is filled up to `used`, and answers up to where it is filled then. The longest
// line is `refused 255` and a newline, 12 bytes. Where fewer are free, nothing is put.
pub fn put_answer(out: &mut [u8], used: usize, answer: Answer) -> usize
    ensures filled { result ≡ used_after out.old used answer }
    ensures stored { out.new ≡ out_after out.old used answer }
    ensures bounded { result ≤ used + 12 }
{
    if out.len() < 12 || used > out.len() - 12 {
        return used;
    }
    let line = answer_line(answer);
    store(out, used, line.as_slice());
    used + line.len()
}

// ---- lines from input in parts

// The bytes before the first newline, and what follows it; where there is none all bytes, and None.
pub fn split_line(text: &[u8]) -> (&[u8], Option<&[u8]>)
    ensures { Splits text.now result.0.now (option_copied result.1) }
{
    match split_once(text, b'\n') {
        Some((part, rest)) => (part, Some(rest)),
        None => (text, None),
    }
}

// Moves the bytes of the input into the line, up to a newline or the input's end; those that the line has no room for are lost.
// Answers what follows the newline, or None where the line has not ended.
pub fn push_line<'a, const N: usize>(text: &'a [u8], line: &mut ArrayVec<u8, N>) -> Option<&'a [u8]>
    ensures { Pushes N text.now line.old.items line.new.items (option_copied result) }
{
    let (part, rest) = split_line(text);
    keep(line, part);
    rest
}

// Stores the bytes behind the kept ones, as many as there is room for.
fn keep<const N: usize>(line: &mut ArrayVec<u8, N>, part: &[u8])
    ensures { line.new.items ≡ take N (line.old.items ++ part.now) }
{
    let room = part.len().min(line.remaining_capacity());
    let _ = line.try_extend_from_slice(&part[..room]);
}

// Where gathering stopped: the next byte of the input, how far the buffer is filled, and whether the line has ended.
#[derive(Clone, Copy, Debug, PartialEq, Eq)]
pub struct Gathered {
    pub at: usize,
    pub kept: usize,
    pub ended: bool,
}

// Moves the bytes of the input from `from` on into the line buffer, which is filled up to `kept`, up to a newline or the input's
// end; those that do not fit are lost.
pub fn gather(text: &[u8], from: usize, line: &mut [u8], kept: usize) -> Gathered
    ensures { Gathers text.now from line.old kept result line.new }
{
    let Some(left) = text.get(from..) else {
        return Gathered {
            at: from,
            kept,
            ended: false,
        };
    };
    let (part, rest) = split_line(left);
    Gathered {
        at: from + part.len() + usize::from(rest.is_some()),
        kept: store_kept(line, kept, part),
        ended: rest.is_some(),
    }
}

// Stores the bytes behind the first `kept`, as many as the buffer reaches for, and answers how many are kept then.
fn store_kept(line: &mut [u8], kept: usize, part: &[u8]) -> usize
    ensures kept { result ≡ kept_after (length line.old) kept part.now }
    ensures stored { line.new ≡ sets line.old kept part.now }
{
    if kept >= line.len() {
        return kept;
    }
    let room = (line.len() - kept).min(part.len());
    store(line, kept, &part[..room]);
    kept + room
}
