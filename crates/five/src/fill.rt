// The line by line filler.
ghost use Rattle.std.specs.Prelude.{◌≡◌, length};
ghost use Rattle.board.specs.Row.{row as row_of};
ghost use Rattle.board.specs.Five.{five, partial};
ghost use Rattle.image.specs.Image.{board_of};
ghost use Rattle.five.specs.Inner.{FiveFillable};

use crate::line::line_value;
use crate::partial::Partial;
use board::Condition;

// Fills a row with the five values in a condition under a partial pattern.
pub fn fill(img: &[u8], pattern: Partial, condition: Condition, row: &mut [u8])
    requires { FiveFillable img.now condition row.old }
    ensures { row.new ≡ row_of (five condition (partial pattern.named pattern.values)) (board_of img.now) (length row.old) }
{
    for i in 0..row.len() {
        let v = line_value(img, pattern, i, condition, &row[..i]);
        row[i] = v;
    }
}
