// How many output lines a row drives.
ghost use Rattle.std.specs.Prelude.{◌≡◌, ◌<◌};
ghost use Rattle.image.specs.Bytes.{byte_at};
ghost use Rattle.image.specs.Image.{board_of};
ghost use Rattle.five.specs.Driven.{is_driven, driven};

use image::numbers::byte;
use image::outputs::output;
use image::trailer::output_count;

// Whether a row holds D or D-bar at a line.
fn is_driven_at(row: &[u8], line: usize) -> bool
    ensures { result ≡ is_driven (byte_at row.now line) }
{
    matches!(byte(row, line), 3 | 4)
}

// How many output lines hold D or D-bar.
pub fn count_driven(img: &[u8], row: &[u8]) -> usize
    ensures { result ≡ driven (board_of img.now) row.now }
{
    let outputs = output_count(img);
    (0..outputs)
        .filter(|j| is_driven_at(row, output(img, *j)))
        .count()
}
