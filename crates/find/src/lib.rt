// The smallest pattern that shows a fault, and the books of them all: Find, Book and the pin book.

#![tactic(auto)]

mod blocks;
pub mod entries;
mod search;

ghost use Rattle.std.specs.Prelude.{[], ◌∷◌};
ghost use Rattle.board.specs.declared.Sort.TheVariants.{Lines, Pins};
ghost use Rattle.image.specs.Promise.{Owes};
ghost use Rattle.find.specs.Find.{found_says, find_promise};
ghost use Rattle.find.specs.Book.{counted_says, book_promise};

use board::{Fault, Sort};
use entries::{fill_book, then_book};
use image::Refusal;
use image::accepted::Accepted;
use image::asked::{check_fault, check_image};
use image::limits::Entry;
use search::smallest;

// Find: the smallest pattern that shows the fault, or nothing where no pattern does.
pub fn find(img: &[u8], fault: Fault) -> Result<Option<u64>, Refusal>
    ensures { Owes (find_promise img.now fault) [] (found_says result) }
{
    let counts = check_fault(img, fault)?;
    Ok(smallest(Accepted { img, counts }, fault))
}

// A book of a sort filled, once it is as long as it should be.
fn book_of(img: &[u8], sort: Sort, entries: &mut [Entry]) -> Result<usize, Refusal>
    ensures { Owes (book_promise sort img.now entries.old) (entries.new ∷ []) (counted_says result) }
{
    let counts = then_book(check_image(img), sort, entries.len())?;
    Ok(fill_book(Accepted { img, counts }, sort, entries))
}

// Book: fills entry 2 x line + stuck value with that pattern, or NONE, and counts the entries that are not none.
pub fn book(img: &[u8], entries: &mut [Entry]) -> Result<usize, Refusal>
    ensures { Owes (book_promise Lines img.now entries.old) (entries.new ∷ []) (counted_says result) }
{
    book_of(img, Sort::Lines, entries)
}

// Pin book: fills entry 8 x line + 2 x pin + stuck value in the same way, an absent pin's with NONE.
pub fn pin_book(img: &[u8], entries: &mut [Entry]) -> Result<usize, Refusal>
    ensures { Owes (book_promise Pins img.now entries.old) (entries.new ∷ []) (counted_says result) }
{
    book_of(img, Sort::Pins, entries)
}
