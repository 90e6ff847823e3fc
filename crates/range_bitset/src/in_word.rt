// The n-th set bit of one word, without a loop. Not the Rust's: the n-th position of a set is found with it. Assumes nothing.
ghost use Rattle.std.specs.Prelude.{◌^◌, ◌<◌, count_ones};
ghost use Rattle.positions.specs.Walks.{Nth};
ghost use Rattle.bits.specs.Bit.{bit};
ghost use Rattle.range_bitset.specs.Inner.{Pairs, Narrows};

// The sums of each two neighbouring fields of `width` bits; `low` has the lower of each two.
fn paired(sums: u64, width: usize, low: u64) -> u64
    requires { (width < 64) × (low < 2 ^ 63) }
    ensures { Pairs sums width low result }
{
    (sums & low) + ((sums >> width) & low)
}

// A place in a word: `n` of the bits that are sought lie from `at` on before the one that is meant.
#[derive(Clone, Copy)]
struct InWord {
    at: usize,
    n: u64,
}

impl InWord {
    // The lower `width` bits at `at`, or those after them: whichever has the bit that is meant. `sums` has a field for each `width`
    // bits.
    fn narrowed(self, sums: u64, width: usize) -> Self
        requires { (width < 64) × (self.at < 64) }
        ensures { Narrows sums width self.at self.n result.at result.n }
    {
        let low = (sums >> self.at) & ((1u64 << width) - 1);
        if self.n < low {
            self
        } else {
            InWord {
                at: self.at + width,
                n: self.n - low,
            }
        }
    }
}

// The bit of `bits` that has `n` set bits below it and is set itself, if there is one: sums over 2, 4, 8, 16 and 32 bits, then six
// halvings.
pub(crate) fn nth_in_word(bits: u64, n: u64) -> usize
    ensures { (result < 64) × (n < count_ones bits → Nth (bit bits) 0 n result) }
{
    let twos = paired(bits, 1, 0x5555_5555_5555_5555);
    let fours = paired(twos, 2, 0x3333_3333_3333_3333);
    let eights = paired(fours, 4, 0x0f0f_0f0f_0f0f_0f0f);
    let sixteens = paired(eights, 8, 0x00ff_00ff_00ff_00ff);
    let halves = paired(sixteens, 16, 0x0000_ffff_0000_ffff);
    InWord { at: 0, n }
        .narrowed(halves, 32)
        .narrowed(sixteens, 16)
        .narrowed(eights, 8)
        .narrowed(fours, 4)
        .narrowed(twos, 2)
        .narrowed(bits, 1)
        .at
}
