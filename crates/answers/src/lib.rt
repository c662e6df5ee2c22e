// Each call, with its answer's line, made by a function whose contract says which bytes.

#![tactic(auto)]

ghost use Rattle.std.specs.Prelude.{[], ◌∷◌, ◌+◌, length};
ghost use Rattle.image.specs.Check.{check_promise};
ghost use Rattle.rows.specs.Rows.{rows_promise};
ghost use Rattle.rows.specs.Judge.{judge_promise};
ghost use Rattle.rows.specs.Refresh.{refresh_promise};
ghost use Rattle.five.specs.Five.{five_promise};
ghost use Rattle.find.specs.Find.{find_promise};
ghost use Rattle.find.specs.Book.{book_promise};
ghost use Rattle.alter.specs.Alter.{both, alter_promise};
ghost use Rattle.drawing.specs.Calls.{ByReading, read_promise, write_promise};
ghost use Rattle.report.specs.Lines.{checked_line, filled_line, judged_line, found_line, driven_line, counted_line, read_line, wrote_line};
ghost use Rattle.answers.specs.Said.{Said};

use board::{Fault, Sort};
use image::limits::Entry;
use image::said::said;
use report::lines::{answer_line, counted_line, found_line, judged_line};
use text::line::Line;

// Check.
pub fn check_answer(img: &[u8]) -> Line
    ensures { Said (check_promise img.now) [] checked_line result }
{
    answer_line(
        said(image::check(img)),
        b"board # lines # inputs # outputs\n",
    )
}

// Rows, into the two lent rows.
pub fn rows_answer(
    img: &[u8],
    pattern: u64,
    fault: Fault,
    good: &mut [u8],
    faulty: &mut [u8],
) -> Line
    ensures { Said (rows_promise img.now pattern fault good.old faulty.old) (good.new ∷ faulty.new ∷ []) filled_line result }
{
    answer_line(
        said(rows::rows(img, pattern, fault, good, faulty)),
        b"filled\n",
    )
}

// Judge.
pub fn judge_answer(img: &[u8], pattern: u64, fault: Fault) -> Line
    ensures { Said (judge_promise img.now pattern fault) [] judged_line result }
{
    judged_line(said(rows::judge(img, pattern, fault)))
}

// Refresh, on the lent row.
pub fn refresh_answer(img: &[u8], pattern: u64, line: usize, row: &mut [u8]) -> Line
    ensures { Said (refresh_promise img.now pattern line row.old) (row.new ∷ []) filled_line result }
{
    answer_line(said(rows::refresh(img, pattern, line, row)), b"filled\n")
}

// Five values, into the lent row.
pub fn five_answer(img: &[u8], named: u64, values: u64, fault: Fault, row: &mut [u8]) -> Line
    ensures { Said (five_promise img.now named values fault row.old) (row.new ∷ []) driven_line result }
{
    answer_line(
        said(five::five(img, named, values, fault, row)),
        b"drives #\n",
    )
}

// Find.
pub fn find_answer(img: &[u8], fault: Fault) -> Line
    ensures { Said (find_promise img.now fault) [] found_line result }
{
    found_line(said(find::find(img, fault)))
}

// Book, or the pin book, into the lent book.
pub fn book_answer(img: &[u8], sort: Sort, book: &mut [Entry]) -> Line
    ensures { Said (book_promise sort img.now book.old) (book.new ∷ []) (counted_line (length book.old)) result }
{
    let all = book.len();
    match sort {
        Sort::Lines => counted_line(said(find::book(img, book)), all),
        Sort::Pins => counted_line(said(find::pin_book(img, book)), all),
    }
}

// Alter, on the image and the two lent books.
pub fn alter_answer(
    img: &mut [u8],
    book: &mut [Entry],
    pins: &mut [Entry],
    line: usize,
    record: [u8; 10],
) -> Line
    ensures { Said (alter_promise img.old (both book.old pins.old) line «record») (img.new ∷ book.new ∷ pins.new ∷ []) (counted_line (length book.old + length pins.old)) result }
{
    let all = book.len() + pins.len();
    counted_line(said(alter::alter(img, book, pins, line, record)), all)
}

// Read, into the lent target.
pub fn read_answer(text: &[u8], target: &mut [u8]) -> Line
    ensures { ByReading text.now (λ is. Said (read_promise is target.old) (target.new ∷ []) read_line result) }
{
    answer_line(said(drawing::read(text, target)), b"read #\n")
}

// Write, into the lent target.
pub fn write_answer(img: &[u8], target: &mut [u8]) -> Line
    ensures { Said (write_promise img.now target.old) (target.new ∷ []) wrote_line result }
{
    answer_line(said(drawing::write(img, target)), b"wrote #\n")
}
