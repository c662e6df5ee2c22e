// Which outputs each line reaches, one 64-bit number a line, worked out in one pass from the top line down.

#![tactic(auto)]

ghost use Rattle.std.specs.Prelude.{◌≡◌, ℕ, ◌+◌, ◌≤◌, ◌<◌, ◌^◌, length, get_or, set};
ghost use Rattle.std.specs.Int.Bits.{bit_or};
ghost use Rattle.image.specs.Bytes.{byte_at};
ghost use Rattle.image.specs.Image.{line_count, output_at, board_of};
ghost use Rattle.reach.specs.Numbers.{Numbered};
ghost use Rattle.reach.specs.Inner.{Handed, pin_at};

use image::accepted::Accepted;
use image::numbers::{byte, word};
use image::outputs::output;
use image::trailer::first_record;

// Hands a number to a line: it keeps its own bits, and has those of the number too.
fn hand(n: u64, line: usize, numbers: &mut [u64])
    requires { line < length numbers.old }
    ensures { numbers.new ≡ set numbers.old line (bit_or (get_or numbers.old line 0) n) }
{
    numbers[line] |= n;
}

// Hands bit j to the line of output j.
fn hand_own_bits(img: &[u8], outputs: usize, numbers: &mut [u64])
    requires { (outputs ≤ 64) × ((j : ℕ) → j < outputs → output_at img.now j < length numbers.old) }
    ensures { Handed (output_at img.now) (λ j. 2 ^ j) outputs numbers.old numbers.new }
{
    for j in 0..outputs {
        hand(1 << j, output(img, j), numbers);
    }
}

// Hands a number to the lines on the pins of the record at a place.
fn hand_down(img: &[u8], at: usize, n: u64, numbers: &mut [u64])
    requires { (at < 2 ^ 63 + 2 ^ 32) × ((j : ℕ) → j < byte_at img.now (at + 1) → pin_at img.now at j < length numbers.old) }
    ensures { Handed (pin_at img.now at) (λ j. n) (byte_at img.now (at + 1)) numbers.old numbers.new }
{
    let count = byte(img, at + 1);
    for j in 0..count {
        hand(n, word(img, at + 2 + 2 * j), numbers);
    }
}

// Gives each line its number, in room that holds 0s: bit j is 1 exactly when the line reaches output j. From the top line down, each hands its
// own to the lines on its pins.
pub fn number_lines(board: Accepted, numbers: &mut [u64])
    requires { (line_count board.img.now ≤ length numbers.old) × ((l : ℕ) → get_or numbers.old l 0 ≡ 0) }
    ensures { Numbered (board_of board.entry.img.now) numbers.new }
{
    let img = board.img;
    hand_own_bits(img, board.counts.outputs, numbers);
    let start = first_record(img);
    for line in (0..board.counts.lines).rev() {
        hand_down(img, start + 10 * line, numbers[line], numbers);
    }
}

// A line's number, 0 past the end: a set of outputs, of which there is none.
pub fn number(numbers: &[u64], line: usize) -> u64
    ensures { result ≡ get_or numbers.now line 0 }
{
    numbers.get(line).copied().unwrap_or(0)
}
