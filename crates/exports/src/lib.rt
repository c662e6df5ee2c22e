// The calls for C and Rust: slices and numbers come in, and the numbers of the answer go out. Nothing is asked of an argument.

#![tactic(auto)]

ghost use Rattle.std.specs.Prelude.{◌≡◌, [], ◌∷◌, not, eqb};
ghost use Rattle.board.specs.declared.Sort.TheVariants.{Lines, Pins};
ghost use Rattle.image.specs.Check.{check_promise};
ghost use Rattle.rows.specs.Rows.{rows_promise};
ghost use Rattle.rows.specs.Judge.{judge_promise};
ghost use Rattle.rows.specs.Refresh.{refresh_promise};
ghost use Rattle.five.specs.Five.{five_promise};
ghost use Rattle.find.specs.Find.{find_promise};
ghost use Rattle.find.specs.Book.{book_promise};
ghost use Rattle.alter.specs.Alter.{both, alter_promise};
ghost use Rattle.drawing.specs.Calls.{ByReading, read_promise, write_promise};
ghost use Rattle.exports.specs.Fault.{fault_named};
ghost use Rattle.exports.specs.Exported.{Exported};
ghost use Rattle.exports.specs.Show.{show_promise};

use board::Fault;
use image::limits::Entry;
use image::said::{Numbers, said, with_two};

// A fault in numbers. Its sort is 0 for a line's and any other number for a pin's, so that no third sort can be named: C may
// hand over any byte, so it is no enum. A line's has no use for the pin.
#[repr(C)]
#[derive(Clone, Copy)]
pub struct FaultNumbers {
    pub line: usize,
    pub pin: usize,
    pub sort: u8,
    pub stuck: u8,
}

// The fault that the numbers name.
#[tactic(auto, unfolding(crate::specs::Fault::fault_named))]
fn fault_of(n: FaultNumbers) -> Fault
    ensures { result ≡ fault_named n }
{
    if n.sort == 0 {
        return Fault::Line {
            line: n.line,
            stuck: n.stuck,
        };
    }
    Fault::Pin {
        line: n.line,
        pin: n.pin,
        stuck: n.stuck,
    }
}

// Check: the line, input and output counts.
#[unsafe(no_mangle)]
pub extern "C" fn fortizembo_check(img: &[u8]) -> Numbers
    ensures { Exported (check_promise img.now) [] result }
{
    said(image::check(img))
}

// Rows: both rows filled.
#[unsafe(no_mangle)]
pub extern "C" fn fortizembo_rows(
    img: &[u8],
    pattern: u64,
    fault: FaultNumbers,
    good: &mut [u8],
    faulty: &mut [u8],
) -> Numbers
    ensures { Exported (rows_promise img.now pattern (fault_named fault) good.old faulty.old) (good.new ∷ faulty.new ∷ []) result }
{
    said(rows::rows(img, pattern, fault_of(fault), good, faulty))
}

// Judge: 1 for yes, 0 for no.
#[unsafe(no_mangle)]
pub extern "C" fn fortizembo_judge(img: &[u8], pattern: u64, fault: FaultNumbers) -> Numbers
    ensures { Exported (judge_promise img.now pattern (fault_named fault)) [] result }
{
    said(rows::judge(img, pattern, fault_of(fault)))
}

// Refresh: the row rewritten from a line on.
#[unsafe(no_mangle)]
pub extern "C" fn fortizembo_refresh(
    img: &[u8],
    pattern: u64,
    line: usize,
    row: &mut [u8],
) -> Numbers
    ensures { Exported (refresh_promise img.now pattern line row.old) (row.new ∷ []) result }
{
    said(rows::refresh(img, pattern, line, row))
}

// Show: where that very part begins in the row that is asked for, and its length. Any number but 0 asks for the faulty row.
#[unsafe(no_mangle)]
pub extern "C" fn fortizembo_show<'a>(
    good: &'a [u8],
    faulty: &'a [u8],
    wants_faulty: u8,
    start: usize,
) -> Numbers
    ensures { Exported (show_promise good.now faulty.now (not (eqb wants_faulty 0)) start) [] result }
{
    let length = rows::show(good, faulty, wants_faulty != 0, start).len();
    let whole = rows::show(good, faulty, wants_faulty != 0, 0).len();
    with_two(0, (whole - length) as u64, length as u64)
}

// Five values: the row filled, and how many output lines hold D or D-bar.
#[unsafe(no_mangle)]
pub extern "C" fn fortizembo_five(
    img: &[u8],
    named: u64,
    values: u64,
    fault: FaultNumbers,
    row: &mut [u8],
) -> Numbers
    ensures { Exported (five_promise img.now named values (fault_named fault) row.old) (row.new ∷ []) result }
{
    said(five::five(img, named, values, fault_of(fault), row))
}

// Find: the smallest pattern, or no value for none.
#[unsafe(no_mangle)]
pub extern "C" fn fortizembo_find(img: &[u8], fault: FaultNumbers) -> Numbers
    ensures { Exported (find_promise img.now (fault_named fault)) [] result }
{
    said(find::find(img, fault_of(fault)))
}

// Book: the book filled, and how many entries are not none.
#[unsafe(no_mangle)]
pub extern "C" fn fortizembo_book(img: &[u8], entries: &mut [Entry]) -> Numbers
    ensures { Exported (book_promise Lines img.now entries.old) (entries.new ∷ []) result }
{
    said(find::book(img, entries))
}

// Pin book: the pin book filled, and how many entries are not none.
#[unsafe(no_mangle)]
pub extern "C" fn fortizembo_pin_book(img: &[u8], entries: &mut [Entry]) -> Numbers
    ensures { Exported (book_promise Pins img.now entries.old) (entries.new ∷ []) result }
{
    said(find::pin_book(img, entries))
}

// Alter: image and both books brought up to date, and how many entries are then not none.
#[unsafe(no_mangle)]
pub extern "C" fn fortizembo_alter(
    img: &mut [u8],
    book: &mut [Entry],
    pins: &mut [Entry],
    line: usize,
    record: &[u8; 10],
) -> Numbers
    ensures { Exported (alter_promise img.old (both book.old pins.old) line «record».now) (img.new ∷ book.new ∷ pins.new ∷ []) result }
{
    said(alter::alter(img, book, pins, line, *record))
}

// Read: the image that a text names in front of the target, and its length.
#[unsafe(no_mangle)]
pub extern "C" fn fortizembo_read(text: &[u8], target: &mut [u8]) -> Numbers
    ensures { ByReading text.now (λ is. Exported (read_promise is target.old) (target.new ∷ []) result) }
{
    said(drawing::read(text, target))
}

// Write: an image's drawing in front of the target, and its length.
#[unsafe(no_mangle)]
pub extern "C" fn fortizembo_write(img: &[u8], target: &mut [u8]) -> Numbers
    ensures { Exported (write_promise img.now target.old) (target.new ∷ []) result }
{
    said(drawing::write(img, target))
}
