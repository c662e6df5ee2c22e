// The good board's words for a block of patterns.
ghost use Rattle.std.specs.Prelude.{◌≡◌, ℕ, ◌+◌, ◌*◌, ◌^◌, ◌≤◌, ◌<◌, length, get_or};
ghost use Rattle.board.specs.Limits.{most_lines};
ghost use Rattle.board.specs.Gate.{bit_of};
ghost use Rattle.board.specs.Row.{value};
ghost use Rattle.image.specs.Image.{board_of};
ghost use Rattle.lanes.specs.Words.{each, masks, spread as spread_out, input_word, words};
ghost use Rattle.lanes.specs.Inner.{size, Roomy, GoodTo};

use crate::eight::{FULL, put_eight};
use crate::flat::Gate;
use crate::gate::gate_words;
use crate::trial::Trial;
use image::limits::MOST_LINES;
use image::pattern::bit_of;
use std::simd::u64x8;

// The word of an input below 6, the same in every block.
fn low_word(i: usize) -> u64
    requires { i < 6 }
    ensures { result ≡ get_or masks i 0 }
{
    let masks = [
        0xAAAA_AAAA_AAAA_AAAAu64,
        0xCCCC_CCCC_CCCC_CCCC,
        0xF0F0_F0F0_F0F0_F0F0,
        0xFF00_FF00_FF00_FF00,
        0xFFFF_0000_FFFF_0000,
        0xFFFF_FFFF_0000_0000,
    ];
    masks[i]
}

// A value in every lane.
pub fn spread(v: u8) -> u64
    ensures { result ≡ spread_out v }
{
    if v == 1 { FULL } else { 0 }
}

// The word of an input from 6 on, for the 64 patterns from base on.
fn high_word(base: u64, i: usize) -> u64
    ensures { result ≡ spread_out (bit_of base i) }
{
    spread(bit_of(base, i))
}

// The words of an input.
fn input_words(base: u64, i: usize) -> u64x8
    requires { base < 2 ^ 63 }
    ensures { result ≡ each (λ w. input_word (base + 64 * w) i) }
{
    if i < 6 {
        return u64x8::splat(low_word(i));
    }
    u64x8::from_array([
        high_word(base, i),
        high_word(base + 64, i),
        high_word(base + 128, i),
        high_word(base + 192, i),
        high_word(base + 256, i),
        high_word(base + 320, i),
        high_word(base + 384, i),
        high_word(base + 448, i),
    ])
}

// Where the good words of the lines on a gate's pins stand.
pub fn good_places(gate: &Gate) -> [usize; 4]
    ensures { (j : ℕ) → j < 4 → get_or result j 0 ≡ 8 * get_or gate.now.pins j 0 }
{
    [
        8 * usize::from(gate.pins[0]),
        8 * usize::from(gate.pins[1]),
        8 * usize::from(gate.pins[2]),
        8 * usize::from(gate.pins[3]),
    ]
}

// The words of a line, from the good words below it.
fn line_words(trial: Trial, i: usize, rows: &[u64]) -> u64x8
    requires { (i < size (board_of trial.img.now)) × (trial.base < 2 ^ 63) × Roomy (board_of trial.img.now) rows.now × GoodTo (board_of trial.img.now) trial.base i rows.now }
    ensures { let t = trial.entry in (w : ℕ) → w < 8 → get_or result w 0 ≡ value (words (t.base + 64 * w)) (board_of t.img.now) i }
{
    let gate = &trial.flat[i];
    if gate.kind == 0 {
        return input_words(trial.base, i);
    }
    gate_words(gate, good_places(gate), rows)
}

// Fills the good words of every line for the 512 patterns from the base on.
pub fn fill_good(trial: Trial, lines: usize, rows: &mut [u64])
    requires { (lines ≡ size (board_of trial.img.now)) × (trial.base < 2 ^ 63) × Roomy (board_of trial.img.now) rows.old }
    ensures { let t = trial.entry in Roomy (board_of t.img.now) rows.new × GoodTo (board_of t.img.now) t.base lines rows.new }
{
    for i in 0..lines {
        let words = line_words(trial, i, rows);
        put_eight(rows, 8 * i, words);
    }
}

// How many words the room for any board's has.
pub const MOST_WORDS: usize = 16 * MOST_LINES + 16;

// Puts the eight words of 0s and the eight of 1s behind the lines' words.
pub fn make_room(img: &[u8], lines: usize, rows: &mut [u64])
    requires { (lines ≡ size (board_of img.now)) × (lines ≤ most_lines) × (length rows.old ≡ 16 * lines + 16) }
    ensures { Roomy (board_of img.now) rows.new }
{
    put_eight(rows, 16 * lines, u64x8::splat(0));
    put_eight(rows, 16 * lines + 8, u64x8::splat(FULL));
}
