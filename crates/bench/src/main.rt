// The bench console: commands from standard input, one a line, each answered with one line on standard output.

#![tactic(auto)]

mod obey;

use crate::obey::obey;
use kept::{Kept, Lent, MOST_BOOK, MOST_IMAGE, MOST_PINS, MOST_ROW};
use ports::Terminal;
use ports::input::{Input, Place, ROOMY};
use report::rooms::TARGET_ROOM;
use std::io;

// Answers each line that is heard.
fn talk(terminal: &mut Terminal, input: &mut Input, kept: &mut Kept) {
    for _ in 0..u64::MAX {
        let Some(line) = input.listen(terminal) else {
            return;
        };
        obey(terminal, line, kept);
        if terminal.written.is_err() {
            return;
        }
    }
}

// The console, with nothing lent yet.
fn main(rt: HostRuntime) -> io::Result<()> {
    let mut terminal = Terminal::new(rt);
    let mut input = Input {
        buf: [0; ROOMY],
        at: Some(Place::first()),
    };
    let mut kept = Kept {
        img: Lent {
            room: [0; MOST_IMAGE],
            len: 0,
        },
        good: Lent {
            room: [0; MOST_ROW],
            len: 0,
        },
        faulty: Lent {
            room: [0; MOST_ROW],
            len: 0,
        },
        book: Lent {
            room: [0; MOST_BOOK],
            len: 0,
        },
        pins: Lent {
            room: [0; MOST_PINS],
            len: 0,
        },
        target: Lent {
            room: [0; TARGET_ROOM],
            len: 0,
        },
    };
    talk(&mut terminal, &mut input, &mut kept);
    terminal.written
}
