// Drawings as text: a reader and a writer of the fixed form.

#![tactic(auto)]

mod choose;
mod form;
mod line;
mod made;
mod number;
mod pieces;
mod pins;
mod statements;
mod stop;
mod stored;

ghost use Rattle.std.specs.Prelude.{◌≡◌, [], ◌∷◌};
ghost use Rattle.board.specs.Board.{Board};
ghost use Rattle.image.specs.Promise.{Owes};
ghost use Rattle.drawing.specs.Calls.{made_says, names, ByReading, read_promise, write_promise};
ghost use Rattle.drawing.specs.Inner.{Holds, held_promise};

use form::{Named, read_form};
use image::Refusal;
use image::accepted::Accepted;
use image::asked::check_image;
use image::limits::{MOST_LINES, MOST_OUTPUTS};
use image::trailer::is_outside;
use spans::copy;
use statements::{put_text, text_length};
use stored::Stored;

// Holds an image to the rules of a board, and puts it in front of the target.
fn put_image(img: &[u8], target: &mut [u8]) -> Result<usize, Refusal>
    ensures { Owes (held_promise img.now target.old) (target.new ∷ []) (made_says result) }
{
    check_image(img)?;
    if target.len() < img.len() {
        return Err(Refusal::Target);
    }
    Ok(copy(img, target))
}

// The same for the image of a board of so many lines and outputs, of which what fits is stored.
fn put_board(named: Named, stored: &mut Stored, target: &mut [u8]) -> Result<usize, Refusal>
    ensures { (b : Board) → Holds b named.lines named.outputs stored.old.records stored.old.outputs → Owes (read_promise (names b) target.old) (target.new ∷ []) (made_says result) }
{
    if is_outside(MOST_LINES, named.lines) | is_outside(MOST_OUTPUTS, named.outputs) {
        return Err(Refusal::Counts);
    }
    put_image(stored.finish(named.lines, named.outputs), target)
}

// Read: the image of the board that a text names, in front of the target.
pub fn read(text: &[u8], target: &mut [u8]) -> Result<usize, Refusal>
    ensures { ByReading text.now (λ is. Owes (read_promise is target.old) (target.new ∷ []) (made_says result)) }
{
    let mut stored = Stored::blank();
    let named = read_form(text, &mut stored)?;
    put_board(named, &mut stored, target)
}

// Write: the text of an image's board, in front of the target.
pub fn write(img: &[u8], target: &mut [u8]) -> Result<usize, Refusal>
    ensures { Owes (write_promise img.now target.old) (target.new ∷ []) (made_says result) }
{
    let counts = check_image(img)?;
    let board = Accepted { img, counts };
    let long = text_length(board);
    if target.len() < long {
        return Err(Refusal::Target);
    }
    put_text(board, target);
    Ok(long)
}
