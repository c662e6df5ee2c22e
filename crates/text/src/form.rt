// A line from its form: the form's bytes, with a number in decimal for each #.
ghost use Rattle.std.specs.Prelude.{◌≡◌, [], ◌+◌, ◌*◌, ◌≤◌, length};
ghost use Rattle.text.specs.Text.{Written, line_room, spelled};
ghost use Rattle.text.specs.Made.{made};

use crate::line::{LINE, Line};
use crate::put::put_number;

// Spells a form out with its numbers in the caller's buffer, that of a line or of a drawing's piece, and gives how long it is then.
pub fn spell(form: &[u8], numbers: &[u64], out: &mut [u8]) -> usize
    requires { length form.now + 20 * length numbers.now ≤ length out.old }
    ensures { Written result out.new (spelled form.now numbers.now) }
{
    let mut left = numbers;
    let mut at = 0;
    for byte in form {
        match left {
            [number, rest @ ..] if *byte == b'#' => {
                at = put_number(*number, out, at);
                left = rest;
            }
            _ => {
                out[at] = *byte;
                at += 1;
            }
        }
    }
    at
}

impl Line {
    // Not a byte.
    pub fn blank() -> Line
        ensures { made result ≡ [] }
    {
        Line {
            bytes: [0u8; LINE],
            length: 0,
        }
    }

    // A form with its numbers.
    pub fn of(form: &[u8], numbers: &[u64]) -> Line
        requires { length form.now + 20 * length numbers.now ≤ line_room }
        ensures { made result ≡ spelled form.now numbers.now }
    {
        let mut bytes = [0u8; LINE];
        let length = spell(form, numbers, &mut bytes);
        Line { bytes, length }
    }

    // What is made of it.
    pub fn as_slice(&self) -> &[u8]
        ensures { result.now ≡ made self.now }
    {
        &self.bytes[..self.length]
    }
}
