// A book's entries: those of marked lines are worked out, and for a fresh book every line is marked.
ghost use Rattle.std.specs.Prelude.{◌≡◌, List, ℕ, ◌*◌, ◌<◌, length, get_or};
ghost use Rattle.std.proofs.Math.Option.{Option};
ghost use Rattle.board.specs.Lists.{somewhere, on};
ghost use Rattle.board.specs.Book.{entries_a_line, found};
ghost use Rattle.image.specs.Image.{line_count};
ghost use Rattle.image.specs.Calls.{◌then◌};
ghost use Rattle.image.specs.Inner.{Past};
ghost use Rattle.image.specs.declared.Refusal.{Refusal as RefusalOf};
ghost use Rattle.find.specs.Inner.{Renewable, Renewed, Cleared};
ghost use Rattle.find.specs.Book.{bad_book, book_of};

use crate::blocks::Start;
use crate::search::try_all;
use board::{Sort, entries_a_line, fault_at, site_of};
use image::accepted::Accepted;
use image::asked::refused_if;
use image::limits::{Entry, MOST_LINES, NONE};
use image::numbers::byte;
use image::{Counts, Refusal};

// Those that were tested, then 9 for a book of so many numbers; as those of image::asked.
pub fn then_book(
    tested: Result<Counts, Refusal>,
    sort: Sort,
    numbers: usize,
) -> Result<Counts, Refusal>
    ensures { (rs : List (Option RefusalOf)) (s : List ℕ) → Past rs s tested → Past (rs then bad_book sort s numbers) s result }
{
    let counts = tested?;
    let each = entries_a_line(sort);
    refused_if(
        (numbers % each != 0) | (numbers / each != counts.lines),
        Refusal::Lent,
        counts,
    )
}

// Whether some line is marked in a row.
fn has_mark(marks: &[u8]) -> bool
    ensures { result ≡ somewhere on marks.now }
{
    marks.iter().any(|m| *m > 0)
}

// How many entries of a book are not none.
fn count_found(book: &[Entry]) -> usize
    ensures { result ≡ found book.now }
{
    book.iter().filter(|e| **e != NONE).count()
}

// Makes the entries of the lines that are marked in a row none.
fn clear(sort: Sort, marks: &[u8], book: &mut [Entry])
    ensures { Cleared sort marks.now book.old book.new }
{
    for (k, e) in book.iter_mut().enumerate() {
        let marked = byte(marks, site_of(fault_at(sort, k))) > 0;
        if marked {
            *e = NONE;
        }
    }
}

// Works out the entries of the lines that are marked in a row, keeps the others, and gives how many are then not none.
fn renew_marked(board: Accepted, sort: Sort, marks: &[u8], book: &mut [Entry]) -> usize
    requires { Renewable sort board.img.now book.old }
    ensures { Renewed sort board.entry.img.now marks.now book.old result book.new }
{
    clear(sort, marks, book);
    try_all(board, Start { sort, first: 0 }, marks, book);
    count_found(book)
}

// Works out the entries of the lines that are marked in a row, keeps the others, and gives how many are then not none. Where none is marked, they
// are counted alone.
pub fn renew(board: Accepted, sort: Sort, marks: &[u8], book: &mut [Entry]) -> usize
    requires { Renewable sort board.img.now book.old }
    ensures { Renewed sort board.entry.img.now marks.now book.old result book.new }
{
    if has_mark(marks) {
        return renew_marked(board, sort, marks, book);
    }
    count_found(book)
}

// Works out every entry, and gives how many are not none.
pub fn fill_book(board: Accepted, sort: Sort, book: &mut [Entry]) -> usize
    requires { length book.old ≡ entries_a_line sort * line_count board.img.now }
    ensures { let s = board.entry.img.now in (book.new ≡ book_of sort s) × (result ≡ found (book_of sort s)) }
{
    let every = [1u8; MOST_LINES];
    renew(board, sort, &every, book)
}
