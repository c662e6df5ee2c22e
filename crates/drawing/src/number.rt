// The number that a text goes on with.
ghost use Rattle.std.specs.Prelude.{◌≡◌, ◌+◌, ◌<◌};
ghost use Rattle.drawing.specs.Inner.{Digit, IsDigit, Counted};

// A number and how long it is.
#[derive(Clone, Copy)]
pub struct Number {
    pub value: usize,
    pub length: usize,
}

// The largest number of an output or a pin.
const LAST: usize = 65535;

// The value of a digit: `to_digit` is a character's, and these are bytes.
fn digit(x: u8) -> Option<usize>
    ensures { IsDigit x result }
{
    if x.is_ascii_digit() {
        Some((x - b'0') as usize)
    } else {
        None
    }
}

// Reads a number without leading zeros as far as it goes, up to the largest. Where it ends hangs on the value so far, so it is no `take_while`.
pub fn read_number(rest: &[u8]) -> Option<Number>
    ensures { Counted rest.now result }
{
    let mut value = 0;
    let mut length = 0;
    for x in rest {
        let Some(next) = digit(*x) else { break };
        if 0 < length && value == 0 {
            break;
        }
        if LAST < 10 * value + next {
            break;
        }
        value = 10 * value + next;
        length += 1;
    }
    if length == 0 {
        return None;
    }
    Some(Number { value, length })
}
