// The pins of a line's gate, and whether a fault is on one that the gate does not have.
ghost use Rattle.std.specs.Prelude.{◌≡◌, ◌<◌, length};
ghost use Rattle.board.specs.Board.{record_of};
ghost use Rattle.board.specs.Gate.{site, absent};
ghost use Rattle.image.specs.Image.{line_count, board_of};

use crate::numbers::byte;
use crate::trailer::record_place;
use board::{Condition, Fault};

// How many pins a line's gate has.
pub fn pin_count(img: &[u8], line: usize) -> usize
    requires { (line < line_count img.now) × (line < 65536) }
    ensures { result ≡ length (record_of (board_of img.now) line).pins }
{
    byte(img, record_place(img, line) + 1)
}

// Whether a fault is on an absent pin.
pub fn is_absent(img: &[u8], condition: Condition) -> bool
    requires { (site condition < line_count img.now) × (site condition < 65536) }
    ensures { result ≡ absent (board_of img.now) condition }
{
    match condition {
        Condition::Having(Fault::Pin { line, pin, .. }) => pin_count(img, line) <= pin,
        _ => false,
    }
}
