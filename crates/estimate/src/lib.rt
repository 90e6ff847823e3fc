// The estimate: what it costs to scan the clear positions of a range, priced by the longest edge of each sheet. Not the Rust's.
//
// The clear positions are gone through run by run, by the iterator of set_runs, so that no set position is looked at one by one.
// Assumes nothing of its callers: the entry has no `requires`.
#![tactic(auto)]

ghost use Rattle.std.specs.Prelude.{◌≡◌, ◌≤◌, length};
ghost use Rattle.answers.specs.Refusals.{refused_by};
ghost use Rattle.estimate.specs.Entry.{AddsUp, estimate_refusal, EstimateEnsures};
ghost use Rattle.estimate.specs.Inner.{AddsRun};

mod class;

use answers::Refusal;
pub use class::{Class, PRICES};
use range_bitset::RangeBitset;
use set_runs::Runs;

// What an order costs in pence, how many sheets it has, and how many of each class, in the order of the classes.
#[derive(Clone, Copy, Debug, Default, PartialEq, Eq)]
pub struct Estimate {
    pub pence: u32,
    pub sheets: u32,
    pub classes: [u32; 5],
}

// Why an order is not priced: refused, or by 13 with the first clear position of the range whose sheet has no edge.
#[derive(Clone, Copy, Debug, PartialEq, Eq)]
pub enum NotPriced {
    Refused(Refusal),
    Unmeasured(usize),
}

impl From<Refusal> for NotPriced {
    ghost use Rattle.std.specs.Prelude.{◌≡◌};
    ghost use Rattle.estimate.specs.declared.NotPriced.TheVariants.{Refused};

    ghost from_gives = { λ refusal why. why ≡ Refused refusal };

    fn from(refusal: Refusal) -> NotPriced {
        NotPriced::Refused(refusal)
    }
}

impl Estimate {
    // With the sheets of the run `start..end`, each by its edge.
    fn add_run(self, edges: &[u16], start: usize, end: usize) -> Result<Self, NotPriced>
        requires { AddsUp self × (self.sheets ≤ start) × (start ≤ end) × (end ≤ length edges.now) × (end ≤ 262144) }
        ensures { AddsRun edges.now start end self result }
    {
        let mut order = self;
        for i in start..end {
            let Some(class) = Class::of(edges[i]) else {
                return Err(NotPriced::Unmeasured(i));
            };
            order.pence += PRICES[class as usize];
            order.sheets += 1;
            order.classes[class as usize] += 1;
        }
        Ok(order)
    }
}

// The tests of a call on its numbers alone: a range of the set, and an edge for each position. `len` and `edges` are the lengths lent.
fn check(set: RangeBitset, len: usize, edges: usize, end: usize) -> Result<(), Refusal>
    ensures { refused_by result ≡ estimate_refusal set len edges end }
{
    set.check_range(len, end)?;
    if edges < 64 * set.words as usize {
        return Err(Refusal::FewEdges);
    }
    Ok(())
}

// What it costs to scan the clear positions of `start..end`, by the longest edge of each position's sheet.
pub fn price(
    set: RangeBitset,
    storage: &[u64],
    edges: &[u16],
    start: usize,
    end: usize,
) -> Result<Estimate, NotPriced>
    ensures { EstimateEnsures set storage.now edges.now start end result }
{
    check(set, storage.len(), edges.len(), end)?;
    let runs = Runs {
        set,
        storage,
        from: start,
        end,
        value: true,
    };
    let mut order = Estimate::default();
    for run in runs {
        order = order.add_run(edges, run.start as usize, run.end as usize)?;
    }
    Ok(order)
}
