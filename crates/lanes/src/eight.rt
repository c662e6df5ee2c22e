// Eight words at a time, the lanes of a vector.
ghost use Rattle.std.specs.Prelude.{◌≡◌, true, ℕ, ◌+◌, ◌≤◌, ◌<◌, length, get_or};
ghost use Rattle.lanes.specs.Words.{each};
ghost use Rattle.lanes.specs.Inner.{Put, LowestOne, Lowest};

use std::simd::u64x8;

// 1 in every lane.
pub const FULL: u64 = 0xFFFF_FFFF_FFFF_FFFF;

// The eight words from a place on.
pub fn eight_at(rows: &[u64], at: usize) -> u64x8
    requires { at + 8 ≤ length rows.now }
    ensures { result ≡ each (λ w. get_or rows.now (at + w) 0) }
{
    u64x8::from_slice(&rows[at..])
}

// Puts eight words at a place.
pub fn put_eight(rows: &mut [u64], at: usize, e: u64x8)
    requires { at + 8 ≤ length rows.old }
    ensures { Put rows.old at e rows.new }
{
    e.copy_to_slice(&mut rows[at..]);
}

// Whether no lane is 1.
pub fn is_dark(e: u64x8) -> bool
    ensures { result ≡ true → (w : ℕ) → w < 8 → get_or e w 0 ≡ 0 }
{
    e.reduce_or() == 0
}

// The place of the lowest 1 of a word that has one.
fn lowest_one(d: u64) -> u64
    requires { d ≡ 0 → ⊥ }
    ensures { LowestOne d result }
{
    u64::from(d.trailing_zeros())
}

// The lowest lane that is 1, or 512 where none is: a block's end, so that one comparison with the end of the patterns serves both.
// The first word that is not 0 is needed with its place, so `find` would come to the same.
pub fn lowest(e: u64x8) -> u64
    ensures { Lowest e result }
{
    for (w, d) in e.as_array().iter().enumerate() {
        if *d != 0 {
            return 64 * (w as u64) + lowest_one(*d);
        }
    }
    512
}
