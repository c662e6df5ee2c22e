// The pins of a gate's statement.
ghost use Rattle.std.specs.Prelude.{◌≡◌, ◌∷◌, ◌<◌, take};
ghost use Rattle.drawing.specs.Inner.{PinRead, PinsRead};

use crate::choose::choose;
use crate::number::read_number;
use crate::pieces::behind_pin;
use crate::stop::Stop;
use image::numbers::tail;

// A pin, and how long it is with what stands behind it, which ends the statement or goes on to another pin.
#[derive(Clone, Copy)]
pub enum PinFound {
    Last { line: usize, length: usize },
    More { line: usize, length: usize },
}

// Pins, unused ones 0, how many they are, and how long they are with what closes them.
#[derive(Clone, Copy)]
pub struct PinsFound {
    pub pins: [usize; 4],
    pub count: usize,
    pub length: usize,
}

// The pins with one more before them.
fn before(first: usize, pins: [usize; 4]) -> [usize; 4]
    ensures { result ≡ first ∷ take 3 pins }
{
    [first, pins[0], pins[1], pins[2]]
}

// Reads one of up to so many pins, and what stands behind it.
pub fn read_pin(rest: &[u8], left: usize) -> Result<PinFound, Stop>
    requires { 0 < left }
    ensures { PinRead rest.now left result }
{
    let Some(number) = read_number(rest) else {
        return Err(Stop { along: 0 });
    };
    let at = number.length;
    let took = choose(tail(rest, at), behind_pin(left), 0).map_err(|stop| stop.behind(at))?;
    let line = number.value;
    let length = at + took.length;
    if took.which == 0 {
        return Ok(PinFound::Last { line, length });
    }
    Ok(PinFound::More { line, length })
}

// Reads up to so many pins, from the first one's number to the end of the statement.
pub fn read_pins(rest: &[u8], left: usize) -> Result<PinsFound, Stop>
    requires { 0 < left }
    ensures { PinsRead rest.now left result }
{
    match read_pin(rest, left)? {
        PinFound::Last { line, length } => Ok(PinsFound {
            pins: [line, 0, 0, 0],
            count: 1,
            length,
        }),
        PinFound::More { line, length } => {
            let found = read_pins(tail(rest, length), left - 1).map_err(|stop| stop.behind(
                length,
            ))?;
            Ok(PinsFound {
                pins: before(line, found.pins),
                count: found.count + 1,
                length: length + found.length,
            })
        }
    }
}
