// One statement.
ghost use Rattle.std.specs.Prelude.{◌≡◌, ◌≤◌, ◌<◌, length};
ghost use Rattle.drawing.specs.Inner.{length_of, OutputAt, GateAt, Lined};

use crate::choose::choose;
use crate::pieces::{FIRST_TIE, WORDS, statements_from};
use crate::pins::{PinFound, PinsFound, read_pin, read_pins};
use crate::stop::Stop;
use image::numbers::tail;

// A statement, and how long it is. A gate's kind is the number that its record gets.
#[derive(Clone, Copy)]
pub enum Line {
    Input {
        length: usize,
    },
    Output {
        line: usize,
        length: usize,
    },
    Gate {
        kind: usize,
        count: usize,
        pins: [usize; 4],
        length: usize,
    },
}

impl Line {
    // How long it is.
    pub fn length(self) -> usize
        ensures { result ≡ length_of self }
    {
        match self {
            Line::Input { length } | Line::Output { length, .. } | Line::Gate { length, .. } =>
                length,
        }
    }
}

// Reads an output's statement on from its number.
fn output_at(rest: &[u8], at: usize) -> Result<Line, Stop>
    requires { at ≤ length rest.now }
    ensures { OutputAt rest.now at result }
{
    match read_pin(tail(rest, at), 1).map_err(|stop| stop.behind(at))? {
        PinFound::Last { line, length } => Ok(Line::Output {
            line,
            length: at + length,
        }),
        PinFound::More { length, .. } => Err(Stop { along: at + length }),
    }
}

// Reads a gate's statement on from its word.
fn gate_at(rest: &[u8], at: usize) -> Result<Line, Stop>
    requires { at ≤ length rest.now }
    ensures { GateAt rest.now at result }
{
    let took = choose(tail(rest, at), &WORDS, 0).map_err(|stop| stop.behind(at))?;
    let next = at + took.length;
    let kind = took.which + 1;
    if FIRST_TIE <= kind {
        return Ok(Line::Gate {
            kind,
            count: 0,
            pins: [0; 4],
            length: next,
        });
    }
    let PinsFound {
        pins,
        count,
        length,
    } = read_pins(tail(rest, next), 4).map_err(|stop| stop.behind(next))?;
    Ok(Line::Gate {
        kind,
        count,
        pins,
        length: next + length,
    })
}

// Reads a statement of a section or a later one, where the next input or gate is numbered k. Sections are places in a table, so an enum would be cast to its place and
// back.
pub fn read_line(rest: &[u8], section: usize, k: usize) -> Result<Line, Stop>
    requires { section < 3 }
    ensures { Lined section k rest.now result }
{
    let took = choose(rest, statements_from(section), k)?;
    match section + took.which {
        0 => Ok(Line::Input {
            length: took.length,
        }),
        1 => output_at(rest, took.length),
        _ => gate_at(rest, took.length),
    }
}
