// A book's numbers as text.
ghost use Rattle.std.specs.Prelude.{◌*◌, ◌≤◌, length};
ghost use Rattle.text.specs.Text.{Written, each, spaced};

use crate::put::put_number;
use image::limits::Entry;

// Each number behind a space, in the caller's buffer: one piece of a long answer at a time, in fixed memory.
pub fn numbers_text(numbers: &[Entry], out: &mut [u8]) -> usize
    requires { 21 * length numbers.now ≤ length out.old }
    ensures { Written result out.new (each spaced numbers.now) }
{
    let mut at = 0;
    for number in numbers {
        out[at] = b' ';
        at = put_number(*number, out, at + 1);
    }
    at
}
