// A block of patterns tried on a board.
ghost use Rattle.image.specs.Image.{board_of};
ghost use Rattle.lanes.specs.Inner.{Flat};

use crate::flat::Gate;

// A block of patterns, those from `base` up to `end`, tried on a board, whose records stand decoded beside its image.
#[derive(Clone, Copy)]
pub struct Trial<'a> {
    pub img: &'a [u8],
    pub flat: &'a [Gate],
    pub base: u64,
    pub end: u64,
    ghost decoded: { Flat (board_of img.now) flat.now },
}
