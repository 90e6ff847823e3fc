// The walk over a word's set bits. Assumes nothing.
ghost use Rattle.std.specs.Prelude.{count_ones};
ghost use Rattle.std.specs.Iterator.{at_most};
ghost use Rattle.bits.specs.Steps.{LowestFirst};

// The places of the set bits, from the lowest up.
#[derive(Drop)]
pub struct Ones(pub u64);

impl Iterator for Ones {
    type Item = usize;

    ghost next_gives = { LowestFirst };

    ghost remaining = { λ s. at_most (count_ones s.0) };

    #[inline(always)]
    fn next(&mut self) -> Option<usize> {
        if self.0 == 0 {
            return None;
        }
        let place = self.0.trailing_zeros() as usize;
        self.0 &= self.0 - 1;
        Some(place)
    }
}
