// One gate altered: the record is put in the image, and the touched entries of both books are worked out afresh. Alter.

#![tactic(auto)]

mod marks;
mod put;
mod renew;

ghost use Rattle.std.specs.Prelude.{[], ◌∷◌};
ghost use Rattle.image.specs.Promise.{Owes};
ghost use Rattle.find.specs.Book.{counted_says};
ghost use Rattle.alter.specs.Alter.{both, alter_promise};

use board::Sort;
use find::entries::then_book;
use image::Refusal;
use image::asked::check_line;
use image::limits::Entry;
use put::is_unfit;
use renew::bring_up;

// Alter: puts a new record in the image and brings the line book and the pin book up to date; gives how many entries of both are then not
// none, untouched ones included.
pub fn alter(
    img: &mut [u8],
    book: &mut [Entry],
    pins: &mut [Entry],
    line: usize,
    record: [u8; 10],
) -> Result<usize, Refusal>
    ensures { Owes (alter_promise img.old (both book.old pins.old) line «record») (img.new ∷ book.new ∷ pins.new ∷ []) (counted_says result) }
{
    let tested = then_book(check_line(img, line), Sort::Lines, book.len());
    let counts = then_book(tested, Sort::Pins, pins.len())?;
    if is_unfit(img, line, counts.inputs, &record) {
        return Err(Refusal::Alteration);
    }
    Ok(bring_up(img, counts, line, &record, book, pins))
}
