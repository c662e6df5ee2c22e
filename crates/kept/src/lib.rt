// What the console keeps between commands, and the commands that lend or put something.

#![tactic(auto)]

pub mod anew;
mod brought;
mod lent;
pub mod lent_rows;
pub mod word;

use image::Refusal;
use image::limits::Entry;
pub use lent::{Lent, lend};
use ports::Terminal;
use report::output::write_refusal;
use report::rooms::TARGET_ROOM;

// The longest image, row, line book and pin book that the console keeps.
pub const MOST_IMAGE: usize = 65536;

pub const MOST_ROW: usize = 8192;

pub const MOST_BOOK: usize = 16384;

pub const MOST_PINS: usize = 65536;

// The byte of a fresh row or target, and the number of a fresh book.
pub const FRESH_BYTE: u8 = 9;

pub const FRESH_NUMBER: Entry = 99;

// The image, the rows, the books and the target, as much as is lent of each.
#[derive(Drop)]
pub struct Kept {
    pub img: Lent<u8, MOST_IMAGE>,
    pub good: Lent<u8, MOST_ROW>,
    pub faulty: Lent<u8, MOST_ROW>,
    pub book: Lent<Entry, MOST_BOOK>,
    pub pins: Lent<Entry, MOST_PINS>,
    pub target: Lent<u8, TARGET_ROOM>,
}

// Answers with a refusal's one line, unless a write failed before.
pub fn tell(terminal: &mut Terminal, r: Refusal) {
    if terminal.written.is_ok() {
        terminal.written = write_refusal(&mut terminal.rt.stdout(), r);
    }
}
