// `sheetmark`: reads commands, one a line, and prints one answer a line. What a line means and what is printed are
// command_lines', what a command does is the ledger's. Memory is fixed: a line buffer, one input and one output buffer, the
// largest set's storage and the longest journal. Assumes that std's read and write do what they say.
#![tactic(auto)]

ghost use Rattle.std.specs.Prelude.{◌≡◌, List, [], ℕ, ◌+◌, ◌≤◌, length};
ghost use Rattle.answers.specs.Refusals.{head_after};
ghost use Rattle.ledger.specs.Entries.{of_called};
ghost use Rattle.sheetmark.specs.Performing.{Leaves};
ghost use Rattle.command_lines.specs.Answers.{answer_of};
ghost use Rattle.sheetmark.specs.Answering.{state, Kept, PartAnswered, End, ReadAnswered};
ghost use Rattle.sheetmark.specs.Program.{Served};
ghost use Rattle.sheetmark.specs.Inner.{LineAnswered};
ghost use Rattle.command_lines.specs.declared.Command.TheVariants.{New};

use answers::{Changed, Refusal};
use arrayvec::ArrayVec;
use command_lines::{Answer, Command};
use ledger::Ledger;
use std::io::{Read, Write};

// What a command leaves: what is printed, and the ledger, where there is one.
#[derive(Clone, Copy, Debug, PartialEq, Eq)]
pub struct Performed {
    pub answer: Answer,
    pub ledger: Option<Ledger>,
}

// What a call of a ledger leaves: a refused one leaves the ledger as it was.
fn of_call(head: Ledger, done: Result<Changed<u32, Ledger>, Refusal>) -> Performed
    ensures { (result.answer ≡ answer_of (of_called done)) × (result.ledger ≡ Some (head_after head done)) }
{
    Performed {
        answer: done.map(|changed| changed.answer).into(),
        ledger: Some(done.map_or(head, |changed| changed.head)),
    }
}

// `new`: a fresh ledger, or the present one kept.
fn new_ledger(
    ledger: Option<Ledger>,
    storage: &[u64],
    journal: &[u32],
    capacity: u32,
    limit: u32,
) -> Performed
    ensures { Leaves (Some (New capacity limit)) ledger storage.now journal.now result storage.now journal.now }
{
    let made = Ledger::new(capacity as usize, limit as usize, storage, journal);
    Performed {
        answer: made.map(|_| 0).into(),
        ledger: made.ok().or(ledger),
    }
}

// A command to the present ledger.
fn perform_live(
    head: Ledger,
    storage: &mut [u64],
    journal: &mut [u32],
    command: Command,
) -> Performed
    ensures { Leaves (Some command) (Some head) storage.old journal.old result storage.new journal.new }
{
    let set = head.set;
    let ledger = Some(head);
    match command {
        Command::New(capacity, limit) => new_ledger(ledger, storage, journal, capacity, limit),
        Command::Mark(a, e) => of_call(head, head.mark(storage, journal, a as usize, e as usize)),
        Command::Clear(a, e) => of_call(head, head.clear(storage, journal, a as usize, e as usize)),
        Command::Count(a, e) => Performed {
            answer: Answer::from(set.count(storage, a as usize, e as usize)),
            ledger,
        },
        Command::One(a, e) => Performed {
            answer: Answer::from(set.next_one(storage, a as usize, e as usize)),
            ledger,
        },
        Command::Zero(a, e) => Performed {
            answer: Answer::from(set.next_zero(storage, a as usize, e as usize)),
            ledger,
        },
        Command::Back => of_call(head, head.take_back(storage, journal)),
        Command::Wipe => of_call(head, head.wipe(storage)),
    }
}

// A command before an accepted `new`.
fn perform_before_new(storage: &[u64], journal: &[u32], command: Command) -> Performed
    ensures { Leaves (Some command) None storage.now journal.now result storage.now journal.now }
{
    if let Command::New(capacity, limit) = command {
        return new_ledger(None, storage, journal, capacity, limit);
    }
    Performed {
        answer: Answer::BadLine,
        ledger: None,
    }
}

// A line's command to the present ledger, or before there is one; None is a bad line.
fn perform(
    ledger: Option<Ledger>,
    storage: &mut [u64],
    journal: &mut [u32],
    command: Option<Command>,
) -> Performed
    ensures { Leaves command ledger storage.old journal.old result storage.new journal.new }
{
    let Some(command) = command else {
        return Performed {
            answer: Answer::BadLine,
            ledger,
        };
    };
    match ledger {
        Some(head) => perform_live(head, storage, journal, command),
        None => perform_before_new(storage, journal, command),
    }
}

// Room for the bytes of a line.
type Line = ArrayVec<u8, 32>;

// Room for the answers to any part of the input: 12 bytes for each of the input buffer's 65,536.
type Output = ArrayVec<u8, 786432>;

// Answers a line, of which `line` is all bytes but the newline.
fn answer_line(
    ledger: Option<Ledger>,
    line: &[u8],
    out: &mut Output,
    storage: &mut [u64],
    journal: &mut [u32],
) -> Option<Ledger>
    requires { length out.old.items + 12 ≤ 786432 }
    ensures { LineAnswered line.now (state ledger storage.old journal.old) (state result storage.new journal.new) out.old.items out.new.items }
{
    let command = command_lines::parse(line);
    let done = perform(ledger, storage, journal, command);
    command_lines::push_answer(out, done.answer);
    done.ledger
}

// Line, output, storage and journal are lent one by one, here and below: of a struct with a `&mut` to each, every function would have
// to promise that it still holds the four.
//
// Answers the lines that end in a part of the input. The output has room for all answers: a line has a byte at least, its
// newline, and an answer at most 12.
fn answer_part(
    ledger: Option<Ledger>,
    text: &[u8],
    line: &mut Line,
    out: &mut Output,
    storage: &mut [u64],
    journal: &mut [u32],
) -> Option<Ledger>
    requires empty { out.old.items ≡ [] }
    requires room { length text.now ≤ 65536 }
    ensures { (l : List ℕ) → Kept line.old.items l → PartAnswered text.now l (state ledger storage.old journal.old) (state result storage.new journal.new) out.new.items line.new.items }
{
    let mut current = ledger;
    let mut rest = text;
    // no iterator: each turn lends the line to the next gathering
    while let Some(next) = command_lines::push_line(rest, line) {
        current = answer_line(current, line.as_slice(), out, storage, journal);
        line.clear();
        rest = next;
    }
    current
}

// At the input's end: what no newline ended is a line, unless there is nothing. It gets the newline that it lacks.
fn answer_last_line(
    ledger: Option<Ledger>,
    line: &mut Line,
    out: &mut Output,
    storage: &mut [u64],
    journal: &mut [u32],
) -> Option<Ledger>
    requires { out.old.items ≡ [] }
    ensures { (l : List ℕ) → Kept line.old.items l → End l (state ledger storage.old journal.old) (state result storage.new journal.new) out.new.items }
{
    if line.is_empty() {
        return ledger;
    }
    answer_part(ledger, b"\n", line, out, storage, journal)
}

// Answers what a read gave: a part of the input or, where it gave nothing, the input's end. The output is filled anew.
fn answer_read(
    ledger: Option<Ledger>,
    text: &[u8],
    line: &mut Line,
    out: &mut Output,
    storage: &mut [u64],
    journal: &mut [u32],
) -> Option<Ledger>
    requires { length text.now ≤ 65536 }
    ensures { (l : List ℕ) → Kept line.old.items l → ReadAnswered text.now l (state ledger storage.old journal.old) (state result storage.new journal.new) out.new.items line.new.items }
{
    out.clear();
    if text.len() == 0 {
        answer_last_line(ledger, line, out, storage, journal)
    } else {
        answer_part(ledger, text, line, out, storage, journal)
    }
}

// Reads a part of the input, and answers how many bytes it has. A read that fails gives nothing, as at the input's end.
fn read_part(input: &mut impl Read, buffer: &mut [u8]) -> usize
    ensures { result ≤ length buffer.new }
{
    input.read(buffer).unwrap_or(0)
}

// Reads, answers and writes the answers out, until a read gives nothing. That, and no count of reads, is the end: each read
// that is counted gave a byte at least, and no input has 2^64 - 1. Answers that cannot be written are lost.
fn serve(
    input: &mut impl Read,
    output: &mut impl Write,
    buffer: &mut [u8],
    out: &mut Output,
    storage: &mut [u64],
    journal: &mut [u32],
) -> Option<Ledger>
    requires buffer_room { length buffer.old ≤ 65536 }
    requires storage_room { 4290 ≤ length storage.old }
    requires journal_room { 16384 ≤ length journal.old }
    ensures { Served storage.old journal.old (state result storage.new journal.new) }
{
    let mut ledger = None;
    let mut line = Line::new();
    for _ in 0..u64::MAX {
        let n = read_part(input, buffer);
        ledger = answer_read(ledger, &buffer[..n], &mut line, out, storage, journal);
        let _ = output.write_all(out.as_slice());
        if n == 0 {
            return ledger;
        }
    }
    ledger
}

// Room for a part of the input.
fn input_buffer() -> [u8; 65536]
    ensures { 65536 ≡ length result }
{
    [0; 65536]
}

fn main(rt: HostRuntime) {
    let mut buffer = input_buffer();
    let mut out = Output::new();
    let mut storage = [0u64; 4290];
    let mut journal = [0u32; 16384];
    serve(
        &mut rt.stdin(),
        &mut rt.stdout(),
        &mut buffer,
        &mut out,
        &mut storage,
        &mut journal,
    );
}
