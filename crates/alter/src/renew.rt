// The record put in, and both books brought up to date by the marks of the board before and of the board after.
ghost use Rattle.std.specs.Prelude.{◌≡◌, ℕ, length, get_or};
ghost use Rattle.image.specs.Image.{line_count};
ghost use Rattle.alter.specs.Alter.{both};
ghost use Rattle.alter.specs.Inner.{Reworkable, Reworked};

use crate::marks::{mark_met, mark_met_after};
use crate::put::put_record;
use board::Sort;
use find::entries::renew;
use image::Counts;
use image::accepted::Accepted;
use image::limits::{Entry, MOST_LINES};

// Puts the record in and renews the books by the marks of the board before and of the board after, with a row that has none yet lent.
fn rework(
    img: &mut [u8],
    counts: Counts,
    line: usize,
    new: &[u8],
    marks: &mut [u8],
    book: &mut [Entry],
    pins: &mut [Entry],
) -> usize
    requires { Reworkable img.old counts line new.now (both book.old pins.old) × (length marks.old ≡ line_count img.old) × ((l : ℕ) → get_or marks.old l 0 ≡ 0) }
    ensures { Reworked img.old line new.now (both book.old pins.old) result img.new (both book.new pins.new) }
{
    mark_met(Accepted { img, counts }, line, marks);
    put_record(img, line, new);
    let after = Accepted { img, counts };
    mark_met_after(after, line, marks);
    let on_lines = renew(after, Sort::Lines, marks, book);
    let on_pins = renew(after, Sort::Pins, marks, pins);
    on_lines + on_pins
}

// Puts the record in and brings both books up to date; gives how many entries are then not none.
pub fn bring_up(
    img: &mut [u8],
    counts: Counts,
    line: usize,
    new: &[u8],
    book: &mut [Entry],
    pins: &mut [Entry],
) -> usize
    requires { Reworkable img.old counts line new.now (both book.old pins.old) }
    ensures { Reworked img.old line new.now (both book.old pins.old) result img.new (both book.new pins.new) }
{
    let lines = counts.lines;
    let mut marks = [0u8; MOST_LINES];
    rework(img, counts, line, new, &mut marks[..lines], book, pins)
}
