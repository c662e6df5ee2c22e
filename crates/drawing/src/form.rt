// A drawing read statement by statement.
ghost use Rattle.std.specs.Prelude.{◌≡◌, ◌+◌, ◌<◌, ◌^◌};
ghost use Rattle.drawing.specs.Inner.{tallied, Storable, KeepsMore, FormRead};

use crate::line::{Line, read_line};
use crate::stop::Stop;
use crate::stored::Stored;
use image::numbers::tail;

// What a text draws: a board of so many lines and outputs.
#[derive(Clone, Copy)]
pub struct Named {
    pub lines: usize,
    pub outputs: usize,
}

// How many lines and outputs were read, and the section of the last statement: a place in the table of how statements begin.
#[derive(Clone, Copy)]
pub struct Tally {
    pub section: usize,
    pub lines: usize,
    pub outputs: usize,
}

// Keeps a statement, and gives what is counted behind it.
fn keep_line(line: Line, tally: Tally, stored: &mut Stored) -> Tally
    requires { Storable line × (tally.lines + 1 < 2 ^ 64) × (tally.outputs + 1 < 2 ^ 64) }
    ensures { (result ≡ tallied tally line) × KeepsMore line tally stored.old.records stored.old.outputs stored.new.records stored.new.outputs }
{
    match line {
        Line::Input { .. } => {
            stored.keep_record(0, 0, [0; 4], tally.lines);
            Tally {
                section: 0,
                lines: tally.lines + 1,
                ..tally
            }
        }
        Line::Output { line, .. } => {
            stored.keep_output(line, tally.outputs);
            Tally {
                section: 1,
                outputs: tally.outputs + 1,
                ..tally
            }
        }
        Line::Gate {
            kind,
            count,
            pins,
            ..
        } => {
            stored.keep_record(kind, count, pins, tally.lines);
            Tally {
                section: 2,
                lines: tally.lines + 1,
                ..tally
            }
        }
    }
}

// Reads a drawing to its end, or to where it departs from the form, each time a statement further; what fits of its lines and outputs is kept.
pub fn read_form(text: &[u8], stored: &mut Stored) -> Result<Named, Stop>
    ensures { FormRead text.now stored.new.records stored.new.outputs result }
{
    let mut tally = Tally {
        section: 0,
        lines: 0,
        outputs: 0,
    };
    let mut at = 0;
    // No `for`: each statement says where the next begins.
    while at < text.len() {
        let read = read_line(tail(text, at), tally.section, tally.lines);
        let line = read.map_err(|stop| stop.behind(at))?;
        tally = keep_line(line, tally, stored);
        at += line.length();
    }
    Ok(Named {
        lines: tally.lines,
        outputs: tally.outputs,
    })
}
