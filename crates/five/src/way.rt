// How each kind goes by the table: by a section, or by the opposite of what stands there.
ghost use Rattle.std.specs.Prelude.{◌≡◌, ◌<◌};
ghost use Rattle.five.specs.Inner.{way_of};

use crate::table::Section;

#[derive(Clone, Copy)]
pub struct Way {
    pub section: Section,
    pub opposite: bool,
}

// The way of each kind, a byte of the image, from 1 up. A line that is tied goes as exclusive-or of no pins.
pub fn way_of(kind: usize) -> Way
    requires { 0 < kind }
    ensures { result ≡ way_of kind }
{
    let section = match kind {
        1..=4 => Section::And,
        5 | 6 => Section::Or,
        _ => Section::ExclusiveOr,
    };
    Way {
        section,
        opposite: kind % 2 == 0,
    }
}
