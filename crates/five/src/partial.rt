// Refusal 8 on a partial pattern.
ghost use Rattle.std.specs.Prelude.{◌≡◌, List, ℕ};
ghost use Rattle.std.proofs.Math.Option.{Option};
ghost use Rattle.board.specs.Five.{partial};
ghost use Rattle.image.specs.Calls.{◌then◌};
ghost use Rattle.image.specs.Inner.{Past};
ghost use Rattle.image.specs.declared.Refusal.{Refusal as RefusalOf};
ghost use Rattle.five.specs.Partial.{is_stray, stray_below, is_amiss, bad_partial};

use image::asked::{is_too_high, refused_if};
use image::pattern::bit_of;
use image::{Counts, Refusal};

// A partial pattern: which inputs are named, and their values.
#[derive(Clone, Copy)]
pub struct Partial {
    pub named: u64,
    pub values: u64,
}

impl Partial {
    // What an input has: its bit where it is named, and x where it is not.
    pub fn input(self, i: usize) -> usize
        ensures { result ≡ partial self.named self.values i }
    {
        if bit_of(self.named, i) == 1 {
            bit_of(self.values, i) as usize
        } else {
            2
        }
    }

    // Bit i of the values is set where no input is named.
    fn is_stray(self, i: usize) -> bool
        ensures { result ≡ is_stray self.named self.values i }
    {
        bit_of(self.values, i) == 1 && bit_of(self.named, i) == 0
    }

    // Some bit of the first n is.
    fn has_stray(self, n: usize) -> bool
        ensures { result ≡ stray_below self.named self.values n }
    {
        (0..n).any(|i| self.is_stray(i))
    }

    // With so many inputs, either number has a bit at or above the input count, or a value bit stands where no input is named.
    fn is_amiss(self, inputs: usize) -> bool
        ensures { result ≡ is_amiss inputs self.named self.values }
    {
        is_too_high(self.named, inputs)
            || is_too_high(self.values, inputs)
            || self.has_stray(inputs)
    }
}

// Those that were tested, then 8 for a partial pattern; as those of image::asked.
pub fn then_partial(tested: Result<Counts, Refusal>, pattern: Partial) -> Result<Counts, Refusal>
    ensures { (rs : List (Option RefusalOf)) (s : List ℕ) → Past rs s tested → Past (rs then bad_partial s pattern.named pattern.values) s result }
{
    let counts = tested?;
    refused_if(pattern.is_amiss(counts.inputs), Refusal::Pattern, counts)
}
