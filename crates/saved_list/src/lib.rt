// The saved list (`MSL`): a reader over borrowed bytes. Each entry is total on any bytes, writes nothing, and answers what
// the definitions of specs/ say of the bytes. Opening calls `read_header`, then `check_length`, then `check_runs`.
// Assumes nothing of its callers: no entry has a `requires`.
#![tactic(auto)]

ghost use Rattle.std.specs.Prelude.{◌≡◌, ◌+◌, ◌-◌, ◌≤◌, length};
ghost use Rattle.std.specs.Iterator.{at_most};
ghost use Rattle.positions.specs.Runs.{run};
ghost use Rattle.saved_list.specs.Format.{be16 as big16, be32 as big32, ruled, held_count};
ghost use Rattle.saved_list.specs.Answers.{of_header, header_reply, of_length_check, length_reply, of_run_check, runs_reply, of_found_run, run_reply, index_after};

use answers::Refusal;

// The letters that a saved list begins with: compared on opening, and written by list_writer.
pub const MARK: [u8; 3] = *b"MSL";

pub const VERSION: u16 = 1;

// Bytes of the header, and of one run.
pub const HEADER_SIZE: usize = 11;

pub const RUN_SIZE: usize = 8;

// The 16-bit number at a place. Two functions for two sizes, since `from_be_bytes` is of each integer and of no trait.
fn be16(file: &[u8], at: usize) -> u16
    requires { at + 2 ≤ length file.now }
    ensures { result ≡ big16 file.now at }
{
    u16::from_be_bytes([file[at], file[at + 1]])
}

// The 32-bit number at a place.
fn be32(file: &[u8], at: usize) -> u32
    requires { at + 4 ≤ length file.now }
    ensures { result ≡ big32 file.now at }
{
    u32::from_be_bytes([file[at], file[at + 1], file[at + 2], file[at + 3]])
}

// The header's numbers: W and the run count n.
#[derive(Clone, Copy, Debug, PartialEq, Eq)]
pub struct Header {
    pub words: u16,
    pub runs: u32,
}

// The header of a file, or refusal 7 but for the length 11 + 8 * n: under 11 bytes, or mark or version wrong.
#[tactic(auto, unfolding(crate::specs::Answers::header_reply))]
pub fn read_header(file: &[u8]) -> Result<Header, Refusal>
    ensures { of_header result ≡ header_reply file.now }
{
    if file.len() < HEADER_SIZE || !file.starts_with(&MARK) || be16(file, 3) != VERSION {
        return Err(Refusal::BadFile);
    }
    Ok(Header {
        words: be16(file, 5),
        runs: be32(file, 7),
    })
}

// The length rule: 11 + 8 * n bytes, or refusal 7 for the length. No file under 11 bytes has it.
#[tactic(auto, unfolding(crate::specs::Answers::length_reply))]
pub fn check_length(file: &[u8]) -> Result<(), Refusal>
    ensures { of_length_check result ≡ length_reply file.now }
{
    if file.len() < HEADER_SIZE || file.len() != HEADER_SIZE + RUN_SIZE * be32(file, 7) as usize {
        return Err(Refusal::BadFile);
    }
    Ok(())
}

// A run of the file.
#[derive(Clone, Copy, Debug, PartialEq, Eq)]
pub struct Run {
    pub start: u32,
    pub end: u32,
}

impl Run {
    // The run rule at one run: `low` is the least start allowed.
    fn keeps_rule(self, low: u32, capacity: u32) -> bool
        ensures { result ≡ ruled low capacity (run self.start self.end) }
    {
        low <= self.start && self.start < self.end && self.end <= capacity
    }
}

// The run of an index. None where the bytes do not hold it whole.
#[tactic(auto, unfolding(crate::specs::Answers::run_reply, crate::specs::Format::run_at))]
pub fn run_at(file: &[u8], index: usize) -> Option<Run>
    ensures { of_found_run result ≡ run_reply file.now index }
{
    let held = file.len().saturating_sub(HEADER_SIZE) / RUN_SIZE;
    if held <= index {
        return None;
    }
    let at = HEADER_SIZE + RUN_SIZE * index;
    Some(Run {
        start: be32(file, at),
        end: be32(file, at + 4),
    })
}

// A reader: the borrowed bytes and the index of the run that comes next.
#[derive(Clone, Copy, Debug)]
pub struct Runs<'a> {
    pub file: &'a [u8],
    pub at: usize,
}

impl<'a> Runs<'a> {
    // A reader from the first run on.
    pub fn new(file: &'a [u8]) -> Self
        ensures file { result.file.now ≡ file.now }
        ensures at { result.at ≡ 0 }
    {
        Runs { file, at: 0 }
    }
}

impl<'a> Iterator for Runs<'a> {
    type Item = Run;

    // One step: gives the run of the index, or none, and moves the reader on by one where there is a run.
    ghost next_gives = { λ old result new. (of_found_run result ≡ run_reply old.file.now old.at)
        × (new.file ≡ old.file)
        × (new.at ≡ index_after old.file.now old.at) };

    ghost remaining = { λ r. at_most (held_count r.file.now - r.at) };

    #[tactic(auto, unfolding(crate::specs::Answers::run_reply, crate::specs::Answers::index_after))]
    fn next(&mut self) -> Option<Run> {
        let run = run_at(self.file, self.at)?;
        self.at += 1;
        Some(run)
    }
}

// Refusal 8: the first bad run's index, counted from 0.
#[derive(Clone, Copy, Debug, PartialEq, Eq)]
pub struct BadRun {
    pub index: usize,
}

// The run rule over every run held, in one pass over the bytes after the header.
#[tactic(auto, using(crate::proofs::Turns::turns), unfolding(crate::specs::Answers::runs_reply))]
pub fn check_runs(file: &[u8]) -> Result<(), BadRun>
    ensures { of_run_check result ≡ runs_reply file.now }
{
    if file.len() < HEADER_SIZE {
        return Ok(());
    }
    let capacity = 64 * be16(file, 5) as u32;
    let mut low = 0;
    for (index, run) in Runs::new(file).enumerate() {
        if !run.keeps_rule(low, capacity) {
            return Err(BadRun { index });
        }
        low = run.end + 1;
    }
    Ok(())
}

// Two runs in turn, and the index that follows them: named, where a tuple would not say which of two equal types comes first.
#[derive(Clone, Copy, Debug, PartialEq, Eq)]
pub struct TwoRuns {
    pub first: Option<Run>,
    pub second: Option<Run>,
    pub at: usize,
}

// The run of an index and the one after it: one reader in a local, lent to two steps, the second from where the first left
// it.
pub fn two_steps(file: &[u8], index: usize) -> TwoRuns
    ensures { (of_found_run result.first ≡ run_reply file.now index)
        × (of_found_run result.second ≡ run_reply file.now (index_after file.now index))
        × (result.at ≡ index_after file.now (index_after file.now index)) }
{
    let mut reader = Runs { file, at: index };
    let first = reader.next();
    let second = reader.next();
    TwoRuns {
        first,
        second,
        at: reader.at,
    }
}
