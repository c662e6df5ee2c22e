// A line, and the buffer that it is made in.
ghost use Rattle.std.specs.Prelude.{◌≤◌};
ghost use Rattle.text.specs.Text.{line_room};

// How many bytes the buffer has: `line_room` of the specs.
pub const LINE: usize = 96;

// A line as far as it is made: so many bytes in front.
#[derive(Drop)]
pub struct Line {
    pub bytes: [u8; LINE],
    pub length: usize,
    ghost within: { length ≤ line_room },
}
