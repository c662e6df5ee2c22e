// A new image, and what is lent anew for it.
ghost use Rattle.std.specs.Prelude.{◌≤◌};
ghost use Rattle.board.specs.Limits.{most_lines};

use crate::brought::bring_image;
use crate::{FRESH_BYTE, FRESH_NUMBER, Kept};
use answers::check_answer;
use image::asked::check_image;
use ports::Terminal;
use words::command::Anew;

// How many lines are to be lent for an image: 0, which is a count, where it is refused.
fn lines_of(img: &[u8]) -> usize
    ensures { result ≤ most_lines }
{
    match check_image(img) {
        Ok(counts) => counts.lines,
        Err(_) => 0,
    }
}

// Writes Check's answer.
fn write_check(terminal: &mut Terminal, img: &[u8]) {
    terminal.write(check_answer(img).as_slice());
}

// Lends fresh rows and fresh books for the image's lines; the target stays as it is.
fn lend_for_image(kept: &mut Kept) {
    let lines = lines_of(kept.img.lent());
    kept.good.lend(lines, FRESH_BYTE);
    kept.faulty.lend(lines, FRESH_BYTE);
    kept.book.lend(2 * lines, FRESH_NUMBER);
    kept.pins.lend(8 * lines, FRESH_NUMBER);
}

// The command's image, and what is lent for it, answered as Check does; where it brings none, nothing changes.
pub fn anew(terminal: &mut Terminal, asked: Anew, line: &[u8], kept: &mut Kept) {
    if bring_image(terminal, asked, line, &mut kept.img) {
        lend_for_image(kept);
        write_check(terminal, kept.img.lent());
    }
}
