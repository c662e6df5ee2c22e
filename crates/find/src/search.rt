// The smallest pattern that shows each fault of a part of a book, block by block from pattern 0 up.
ghost use Rattle.std.specs.Prelude.{◌≡◌, ℕ, ◌+◌, ◌*◌, ◌^◌, ◌≤◌, ◌<◌, length, get_or};
ghost use Rattle.board.specs.Limits.{most_lines, most_inputs};
ghost use Rattle.board.specs.Board.{inputs as inputs_of};
ghost use Rattle.board.specs.Inner.{as_found};
ghost use Rattle.board.specs.Test.{find};
ghost use Rattle.board.specs.Book.{fault_at};
ghost use Rattle.board.specs.declared.Condition.TheVariants.{Having};
ghost use Rattle.image.specs.Image.{board_of};
ghost use Rattle.image.specs.Inner.{OnBoard};
ghost use Rattle.find.specs.Inner.{SameMarks, Part, Searchable, Spacious, Roomed, Searched};

use crate::blocks::{Start, try_block};
use board::{Fault, Sort};
use image::accepted::Accepted;
use image::limits::{Entry, MOST_LINES, NONE};
use image::numbers::byte;
use lanes::fill::{MOST_WORDS, make_room};
use lanes::flat::{BLANK, Gate, decode};
use lanes::trial::Trial;

// The lines that a small board has at most.
const FEW_LINES: usize = 512;

// How many words the room for a small board's has.
const FEW_WORDS: usize = 16 * FEW_LINES + 16;

// How many patterns a board with so many inputs has.
fn patterns(inputs: usize) -> u64
    requires { inputs ≤ most_inputs }
    ensures { (result ≡ 2 ^ inputs) × (result ≤ 2 ^ most_inputs) }
{
    1 << inputs
}

// Tries the patterns below a limit for the entries of a part whose lines are still to do, with room for the blocks lent.
// The room stays three slices: of one lent in a struct's field a proof keeps the length alone.
fn search(
    img: &[u8],
    flat: &[Gate],
    limit: u64,
    rows: &mut [u64],
    changed: &mut [u8],
    at: Start,
    todo: &mut [u8],
    part: &mut [Entry],
)
    requires { Searchable at img.now flat.now limit rows.old changed.old todo.old (length part.old) }
    ensures { Searched at (board_of img.now) limit todo.old part.old part.new }
{
    for block in 0..limit.div_ceil(512) {
        let base = 512 * block;
        let end = limit.min(base + 512);
        let trial = Trial {
            img,
            flat,
            base,
            end,
        };
        if !try_block(trial, rows, changed, at, todo, part) {
            return;
        }
    }
}

// Marks in a row the lines that are marked in another, none past its end. Rows of bytes, as in blocks.rt.
fn take_marks(marks: &[u8], todo: &mut [u8])
    ensures { SameMarks marks.now todo.old todo.new }
{
    for (l, more) in todo.iter_mut().enumerate() {
        *more = (byte(marks, l) > 0) as u8;
    }
}

// Works out the entries of a part that are none and whose lines are marked in a row, with as much room as the board needs lent.
fn try_in(
    board: Accepted,
    flat: &mut [Gate],
    rows: &mut [u64],
    changed: &mut [u8],
    todo: &mut [u8],
    at: Start,
    marks: &[u8],
    part: &mut [Entry],
)
    requires { Roomed at board.img.now (length flat.old) (length rows.old) (length changed.old) (length todo.old) (length part.old) }
    ensures { let s = board.entry.img.now in Searched at (board_of s) (2 ^ inputs_of (board_of s)) marks.now part.old part.new }
{
    let limit = patterns(board.counts.inputs);
    decode(board, flat);
    make_room(board.img, board.counts.lines, rows);
    take_marks(marks, todo);
    search(board.img, flat, limit, rows, changed, at, todo, part);
}

// The same with rows lent that are long enough. Each array is filled once, where it stands, and a long one with 1s: 0s are left to the C
// library, which an emulator may run a byte at a time. Those that stand here are known to the compiler to lie apart from the rows.
fn try_within(
    board: Accepted,
    rows: &mut [u64],
    todo: &mut [u8],
    at: Start,
    marks: &[u8],
    part: &mut [Entry],
)
    requires { Part at board.img.now (length part.old) × Spacious board.counts.lines (length rows.old) (length todo.old) }
    ensures { let s = board.entry.img.now in Searched at (board_of s) (2 ^ inputs_of (board_of s)) marks.now part.old part.new }
{
    let lines = board.counts.lines;
    let words = 16 * lines + 16;
    let mut flat = [BLANK; MOST_LINES];
    let mut changed = [0u8; MOST_LINES];
    try_in(
        board,
        &mut flat[..lines],
        &mut rows[..words],
        &mut changed[..lines],
        &mut todo[..lines],
        at,
        marks,
        part,
    );
}

// The same with rows of so many words, for a board of at most so many lines.
fn try_with<const LINES: usize, const WORDS: usize>(
    board: Accepted,
    at: Start,
    marks: &[u8],
    part: &mut [Entry],
)
    requires { Part at board.img.now (length part.old) × (board.counts.lines ≤ LINES) × (LINES ≤ most_lines) × (WORDS ≡ 16 * LINES + 16) }
    ensures { let s = board.entry.img.now in Searched at (board_of s) (2 ^ inputs_of (board_of s)) marks.now part.old part.new }
{
    let mut rows = [1u64; WORDS];
    let mut todo = [0u8; LINES];
    try_within(board, &mut rows, &mut todo, at, marks, part);
}

// Works out the entries of a part that are none and whose lines are marked in a row. A small board has small rows, which are quick to fill.
pub fn try_all(board: Accepted, at: Start, marks: &[u8], part: &mut [Entry])
    requires { Part at board.img.now (length part.old) }
    ensures { let s = board.entry.img.now in Searched at (board_of s) (2 ^ inputs_of (board_of s)) marks.now part.old part.new }
{
    if board.counts.lines <= FEW_LINES {
        try_with::<FEW_LINES, FEW_WORDS>(board, at, marks, part);
    } else {
        try_with::<MOST_LINES, MOST_WORDS>(board, at, marks, part);
    }
}

// The smallest pattern that shows the fault of a part's first entry, or nothing.
fn answer_at(board: Accepted, at: Start) -> Option<Entry>
    requires { OnBoard board.img.now (fault_at at.sort at.first) }
    ensures { as_found result ≡ find (board_of board.entry.img.now) (fault_at at.sort at.first) }
{
    let every = [1u8; MOST_LINES];
    let mut part = [NONE; 1];
    try_all(board, at, &every, &mut part);
    let e = part[0];
    if e == NONE { None } else { Some(e) }
}

// The smallest pattern that shows a fault, or nothing.
pub fn smallest(board: Accepted, fault: Fault) -> Option<Entry>
    requires { OnBoard board.img.now (Having fault) }
    ensures { as_found result ≡ find (board_of board.entry.img.now) (Having fault) }
{
    match fault {
        Fault::Line { line, stuck } => answer_at(
            board,
            Start {
                sort: Sort::Lines,
                first: 2 * line + stuck as usize,
            },
        ),
        Fault::Pin { line, pin, stuck } => {
            if 4 <= pin {
                return None;
            }
            answer_at(
                board,
                Start {
                    sort: Sort::Pins,
                    first: 8 * line + 2 * pin + stuck as usize,
                },
            )
        }
    }
}
