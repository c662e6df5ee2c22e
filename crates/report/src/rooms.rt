// How much room programs have for what they read and make.
ghost use Rattle.std.specs.Prelude.{◌≡◌, ◌+◌, length};
ghost use Rattle.image.specs.Image.{longest_image};
ghost use Rattle.report.specs.Rooms.{most_text};

use image::limits::LONGEST_IMAGE;

// One byte more than the longest good image has, and than the longest drawing that is read: by it a longer input is told.
const IMAGE_ROOM: usize = LONGEST_IMAGE + 1;

pub const MOST_TEXT: usize = 1048576;

const TEXT_ROOM: usize = MOST_TEXT + 1;

// What a drawing is written into.
pub const TARGET_ROOM: usize = 262144;

// What is read at a time where much is passed over.
pub const LARGE: usize = 65536;

// Room for an image. It stays a function, whose contract says that a longer input is told: the wrong program long_input_cut breaks it.
pub fn blank_image() -> [u8; IMAGE_ROOM]
    ensures { longest_image + 1 ≡ length result }
{
    [0u8; IMAGE_ROOM]
}

// Room for a drawing that is read. A function's contract gives its length: the check counts an array that stands in place, and this one is
// too long for that.
pub fn blank_text() -> [u8; TEXT_ROOM]
    ensures { most_text + 1 ≡ length result }
{
    [0u8; TEXT_ROOM]
}
