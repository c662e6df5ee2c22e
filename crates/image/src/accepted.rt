// An image that no refusal applies to, with its counts.
ghost use Rattle.image.specs.Inner.{Known};

use crate::{Counts, Refusal};

// An accepted image: what is worked out of a board begins with one.
#[derive(Clone, Copy)]
pub struct Accepted<'a> {
    pub img: &'a [u8],
    pub counts: Counts,
    ghost known: { Known img.now counts },
}
