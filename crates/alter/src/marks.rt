// Which lines reach an output that a line reaches too, as a row of marks: bytes, as the definitions read such rows (`on`).
ghost use Rattle.std.specs.Prelude.{◌≡◌, ℕ, length, get_or};
ghost use Rattle.image.specs.Image.{board_of};
ghost use Rattle.alter.specs.Inner.{with_common, Met, AloneUnlessMarked};

use image::accepted::Accepted;
use image::limits::MOST_LINES;
use image::numbers::byte;
use reach::{number, number_lines};

// Marks those lines too whose number has a bit in common with a given one.
fn mark_common(numbers: &[u64], own: u64, row: &mut [u8])
    ensures { row.new ≡ with_common numbers.now own row.old }
{
    for (l, mark) in row.iter_mut().enumerate() {
        *mark = ((*mark > 0) | (own & number(numbers, l) > 0)) as u8;
    }
}

// Marks those lines too that reach an output which a line reaches.
pub fn mark_met(board: Accepted, line: usize, row: &mut [u8])
    ensures { Met (board_of board.entry.img.now) line row.old row.new }
{
    let mut numbers = [0u64; MOST_LINES];
    number_lines(board, &mut numbers);
    mark_common(&numbers, number(&numbers, line), row);
}

// The same on the board after: where the line is not marked yet it reached no output before, and reaches none now.
pub fn mark_met_after(board: Accepted, line: usize, row: &mut [u8])
    requires { AloneUnlessMarked row.old line (board_of board.img.now) }
    ensures { Met (board_of board.entry.img.now) line row.old row.new }
{
    if 0 < byte(row, line) {
        mark_met(board, line, row);
    }
}
