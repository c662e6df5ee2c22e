// Roth's five values: the row of a fault under a partial pattern, and how many output lines hold D or D-bar.

#![tactic(auto)]

mod count;
mod fill;
mod line;
mod partial;
mod table;
mod way;

ghost use Rattle.std.specs.Prelude.{[], ◌∷◌};
ghost use Rattle.image.specs.Promise.{Owes};
ghost use Rattle.five.specs.Five.{driven_says, five_promise};

use board::{Condition, Fault};
use count::count_driven;
use fill::fill;
use image::Refusal;
use image::asked::{check_fault, then_row};
use partial::{Partial, then_partial};

// Five values: for a partial pattern and a fault, fills the row, and says how many output lines hold D or D-bar.
pub fn five(
    img: &[u8],
    named: u64,
    values: u64,
    fault: Fault,
    row: &mut [u8],
) -> Result<usize, Refusal>
    ensures { Owes (five_promise img.now named values fault row.old) (row.new ∷ []) (driven_says result) }
{
    let pattern = Partial { named, values };
    let tested = then_partial(check_fault(img, fault), pattern);
    then_row(tested, row.len())?;
    fill(img, pattern, Condition::Having(fault), row);
    Ok(count_driven(img, row))
}
