// The five value of one line: the condition is a value, so that there is one way to work a line out. The five values are the paper's numbers, 0 to 4: rows hold them as bytes, and the
// table's slot counts with them, so an enum would be cast to its number at each step.
ghost use Rattle.std.specs.Prelude.{◌≡◌, ◌<◌, get_or};
ghost use Rattle.board.specs.Row.{step};
ghost use Rattle.board.specs.Gate.{held_line};
ghost use Rattle.board.specs.Inner.{held_at};
ghost use Rattle.board.specs.Five.{gate5, hold5, five, partial};
ghost use Rattle.image.specs.Bytes.{byte_at};
ghost use Rattle.image.specs.Image.{board_of};
ghost use Rattle.five.specs.Table.{kind_of};
ghost use Rattle.five.specs.Inner.{number_of, read_at, Gated, Lined};

use crate::partial::Partial;
use crate::table::{Section, entry, pick};
use crate::way::way_of;
use board::{Condition, stuck_line, stuck_pin};
use image::numbers::{byte, word};
use image::trailer::first_record;

// The good half of each value, and the value of each pair of halves, 2 x good + faulty.
const GOOD_HALF: [u8; 5] = [0, 1, 2, 1, 0];

const PAIR: [u8; 4] = [0, 4, 3, 1];

// A value that may be held: a settled value that differs becomes D or D-bar, and an x stays x.
fn held(stuck: Option<u8>, v: usize) -> usize
    ensures { result ≡ held_at hold5 stuck v }
{
    match stuck {
        None => v,
        Some(_) if v == 2 => 2,
        Some(s) => pick(&PAIR, 2 * pick(&GOOD_HALF, v) + s as usize),
    }
}

// What line i gives, of a value that it would have: the value, held where the condition holds the line.
fn held_line(condition: Condition, i: usize, v: usize) -> u8
    requires { v < 5 }
    ensures { result ≡ held_line hold5 condition i v }
{
    held(stuck_line(condition, i), v) as u8
}

// The opposite of each value.
const OPPOSITE: [u8; 5] = [1, 0, 2, 4, 3];

// A line's gate: its record at a place, the board's condition, and the values of the lines below.
#[derive(Clone, Copy)]
struct Gate<'a> {
    img: &'a [u8],
    at: usize,
    line: usize,
    condition: Condition,
    below: &'a [u8],
    ghost gated: { Gated img.now at condition below.now },
}

impl Gate<'_> {
    // What it reads on pin j, or the filler where the pin is absent.
    fn pin(&self, j: usize, filler: usize) -> usize
        requires { (j < 4) × (filler < 5) }
        ensures { let g = self.now in (result ≡ get_or (read_at g.condition g.img.now g.at g.line g.below.now) j filler) × (result < 5) }
    {
        if byte(self.img, self.at + 1) <= j {
            return filler;
        }
        let pin = word(self.img, self.at + 2 + 2 * j);
        held(
            stuck_pin(self.condition, self.line, j),
            byte(self.below, pin),
        )
    }

    // The value that a section's gate has with its pins.
    fn value_by(&self, section: Section) -> usize
        ensures { let g = self.now in (result ≡ gate5 (kind_of (number_of section)) (read_at g.condition g.img.now g.at g.line g.below.now)) × (result < 5) }
    {
        let filler = section.filler();
        let a = self.pin(0, filler);
        let b = self.pin(1, filler);
        let c = self.pin(2, filler);
        let d = self.pin(3, filler);
        entry(section, a, b, c, d)
    }

    // Its value.
    fn value(&self) -> usize
        ensures { let g = self.now in (result ≡ gate5 (byte_at g.img.now g.at) (read_at g.condition g.img.now g.at g.line g.below.now)) × (result < 5) }
    {
        let way = way_of(byte(self.img, self.at));
        let v = self.value_by(way.section);
        if way.opposite { pick(&OPPOSITE, v) } else { v }
    }
}

// The value of line i.
pub fn line_value(img: &[u8], pattern: Partial, i: usize, condition: Condition, below: &[u8]) -> u8
    requires { Lined img.now i condition below.now }
    ensures { result ≡ step (five condition (partial pattern.named pattern.values)) (board_of img.now) i below.now }
{
    let at = first_record(img) + 10 * i;
    if byte(img, at) == 0 {
        return held_line(condition, i, pattern.input(i));
    }
    let gate = Gate {
        img,
        at,
        line: i,
        condition,
        below,
    };
    held_line(condition, i, gate.value())
}
