// The value of one line, good or faulty: the fault is a value, so that there is one way to work a line out.
ghost use Rattle.std.specs.Prelude.{◌≡◌, ◌++◌, ◌+◌, ◌*◌, ◌^◌, ◌<◌, get_or};
ghost use Rattle.board.specs.Lists.{bit, ones};
ghost use Rattle.board.specs.Gate.{asks, faulty};
ghost use Rattle.board.specs.Inner.{with_held};
ghost use Rattle.image.specs.Bytes.{byte_at};
ghost use Rattle.image.specs.Inner.{pins_at, line_at};

use board::{Condition, held_pin, stuck_line, stuck_of};
use image::numbers::{byte, word};
use image::pattern::bit_of;

// What a kind, a byte of the image, makes of n pins, of which s are 1: any byte may come in, and the papers' table counts kinds.
pub fn gate_value(kind: usize, n: usize, s: usize) -> u8
    ensures { result ≡ bit (asks kind n s) }
{
    let all = s == n;
    let some = 0 < s;
    let odd = s % 2 == 1;
    let value = match kind {
        1 => all,
        2 => !all,
        3 => all,
        4 => !all,
        5 => some,
        6 => !some,
        7 => odd,
        8 => !odd,
        10 => true,
        _ => false,
    };
    value as u8
}

// What a line reads: its record at a place, and the row so far, which is the bytes before a part and what the part holds of it.
#[derive(Clone, Copy)]
pub struct Reader<'a> {
    pub img: &'a [u8],
    pub at: usize,
    pub before: &'a [u8],
    pub part: &'a [u8],
    ghost low: { at < 2 ^ 63 + 2 ^ 32 },
}

impl Reader<'_> {
    // What stands at k in the row so far.
    fn value_at(&self, k: usize) -> usize
        ensures { let r = self.now in (result ≡ get_or (r.before.now ++ r.part.now) k 0) × (result < 256) }
    {
        if k < self.before.len() {
            return byte(self.before, k);
        }
        byte(self.part, k - self.before.len())
    }

    // What stands in the row on pin j.
    fn pin(&self, j: usize) -> usize
        requires { let r = self.now in (j < 256) × (j < byte_at r.img.now (r.at + 1)) }
        ensures { let r = self.now in (result ≡ get_or (pins_at r.img.now r.at (r.before.now ++ r.part.now)) j 0) × (result < 256) }
    {
        self.value_at(word(self.img, self.at + 2 + 2 * j))
    }

    // How many of the pins have a 1 in the row.
    fn ones(&self) -> usize
        ensures { let r = self.now in (result ≡ ones (pins_at r.img.now r.at (r.before.now ++ r.part.now))) × (result < 65536) }
    {
        let count = byte(self.img, self.at + 1);
        let mut sum = 0;
        for j in 0..count {
            sum += self.pin(j);
        }
        sum
    }

    // How many of them read 1 where one pin, if it is held and there is such a pin, reads the stuck value.
    fn ones_with(&self, held: Option<usize>, stuck: u8) -> usize
        ensures { let r = self.now in result ≡ ones (with_held (λ v. stuck) held (pins_at r.img.now r.at (r.before.now ++ r.part.now))) }
    {
        let sum = self.ones();
        match held {
            Some(pin) if pin < byte(self.img, self.at + 1) => sum - self.pin(pin) + stuck as usize,
            _ => sum,
        }
    }

    // The line's value under a pattern and a fault.
    pub fn value(&self, line: usize, x: u64, condition: Condition) -> u8
        ensures { let r = self.now in result ≡ line_at (faulty condition x) r.img.now r.at line (r.before.now ++ r.part.now) }
    {
        if let Some(held) = stuck_line(condition, line) {
            return held;
        }
        let kind = byte(self.img, self.at);
        if kind == 0 {
            return bit_of(x, line);
        }
        let ones = self.ones_with(held_pin(condition, line), stuck_of(condition));
        gate_value(kind, byte(self.img, self.at + 1), ones)
    }
}
