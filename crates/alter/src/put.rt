// The new record: refusal 10, and its ten bytes in the image.
ghost use Rattle.std.specs.Prelude.{◌≡◌, ◌+◌, ◌<◌, ◌≤◌, length};
ghost use Rattle.board.specs.Board.{inputs as inputs_of};
ghost use Rattle.image.specs.Image.{record_place, board_of};
ghost use Rattle.alter.specs.Patch.{patched, would_be_bad, unfit};

use image::numbers::byte;
use image::records::is_bad_field;
use image::trailer::record_place;
use spans::copy;

// Whether some field of the new record would be bad as that line of a board with so many inputs.
fn would_be_bad(new: &[u8], line: usize, inputs: usize) -> bool
    ensures { result ≡ would_be_bad new.now line inputs }
{
    (0..6).any(|field| is_bad_field(new, 0, line, inputs, field))
}

// Refusal 10.
pub fn is_unfit(img: &[u8], line: usize, inputs: usize, new: &[u8]) -> bool
    requires { (line < 65536) × (inputs ≡ inputs_of (board_of img.now)) }
    ensures { result ≡ unfit img.now line new.now }
{
    let at = record_place(img, line);
    (byte(img, at) == 0) | ((byte(new, 0) == 0) | would_be_bad(new, line, inputs))
}

// Puts the bytes in the place of a line's record.
pub fn put_record(img: &mut [u8], line: usize, new: &[u8])
    requires { (line < 65536) × (length new.now ≡ 10) × (record_place img.old line + 10 ≤ length img.old) }
    ensures { img.new ≡ patched img.old line new.now }
{
    let at = record_place(img, line);
    copy(new, &mut img[at..]);
}
