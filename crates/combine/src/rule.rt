// A rule, and what it makes of the masks of either level. Assumes nothing.
ghost use Rattle.std.specs.Prelude.{◌≡◌, ◌-◌, ◌^◌, Bool, bit_and};
ghost use Rattle.combine.specs.Rules.{both, either, without, on_words};
ghost use Rattle.combine.specs.Inner.{Settles, Splits};

// Of the parts of a whole, the blocks of a set or the words of a block, those that have any position and those that are entirely set.
#[derive(Clone, Copy, Debug, PartialEq, Eq)]
pub struct Masks {
    pub nonzero: u64,
    pub full: u64,
}

impl Masks {
    // Those that have some of their positions and not all.
    pub(crate) fn mixed(self) -> u64
        ensures { result ≡ bit_and self.nonzero ((2 ^ 64 - 1) - self.full) }
    {
        self.nonzero & !self.full
    }
}

// Whether the combination has a position, by whether each of the two sets has it.
pub trait Rule {
    ghost of: { Bool → Bool → Bool };

    // The rule on 64 positions at once, or on 64 parts that are each all clear or all set.
    fn word(x: u64, y: u64) -> u64
        ensures { result ≡ on_words of x y };

    // The parts that one of the two settles alone, whatever the other has there.
    fn settled_alone(x: Masks, y: Masks) -> u64
        ensures { Settles of x y result };
}

pub struct Both;

pub struct Either;

// The first without the second.
pub struct Without;

impl Rule for Both {
    ghost of = { both };

    fn word(x: u64, y: u64) -> u64 {
        x & y
    }

    fn settled_alone(x: Masks, y: Masks) -> u64 {
        !x.nonzero | !y.nonzero
    }
}

impl Rule for Either {
    ghost of = { either };

    fn word(x: u64, y: u64) -> u64 {
        x | y
    }

    fn settled_alone(x: Masks, y: Masks) -> u64 {
        x.full | y.full
    }
}

impl Rule for Without {
    ghost of = { without };

    fn word(x: u64, y: u64) -> u64 {
        x & !y
    }

    fn settled_alone(x: Masks, y: Masks) -> u64 {
        !x.nonzero | y.full
    }
}

// The parts `valid` of a combination: those that are to be looked into, and of the others those that are entirely set.
#[derive(Clone, Copy)]
pub(crate) struct Split {
    pub(crate) unsettled: u64,
    pub(crate) full: u64,
}

impl Split {
    // To be looked into are those that are mixed on either side and that neither side settles alone.
    pub(crate) fn of<R: Rule>(x: Masks, y: Masks, valid: u64) -> Self
        ensures { Splits R.of x y valid result }
    {
        let unsettled = (x.mixed() | y.mixed()) & !R::settled_alone(x, y) & valid;
        Split {
            unsettled,
            full: R::word(x.full, y.full) & valid & !unsettled,
        }
    }
}
