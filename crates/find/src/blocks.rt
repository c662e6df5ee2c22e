// A block of patterns tried for a part of a book, whose entries are those from number `first` on. A row has the lines that are still to do: a
// line is done when each of its entries is found or on an absent pin. It is bytes, as the definitions read rows of marks (`on`).
ghost use Rattle.std.specs.Prelude.{◌≡◌, true, false, ℕ, ◌+◌, ◌*◌, ◌/◌, ◌≤◌, ◌<◌, length};
ghost use Rattle.board.specs.Gate.{site, absent};
ghost use Rattle.board.specs.Test.{shows};
ghost use Rattle.board.specs.Book.{entries_a_line, fault_at};
ghost use Rattle.image.specs.Image.{board_of};
ghost use Rattle.image.specs.Inner.{OnBoard};
ghost use Rattle.lanes.specs.Words.{seen as seen_at, Lanes};
ghost use Rattle.lanes.specs.Inner.{size, Block};
ghost use Rattle.find.specs.Inner.{later, Span, Goes, Notable, line_of, Part, Tryable, TryableLine, TryableBlock, LineEnd, Gone, TriedLine, TriedBlock};

use board::{Condition, Fault, Sort, fault_at, site_of};
use image::limits::{Entry, NONE};
use lanes::eight::{is_dark, lowest};
use lanes::fill::fill_good;
use lanes::flip::flip;
use lanes::own::own_words;
use lanes::trial::Trial;
use std::simd::u64x8;

// Where a part of a book begins: its entries are those from number `first` on.
#[derive(Clone, Copy)]
pub struct Start {
    pub sort: Sort,
    pub first: usize,
}

impl Start {
    // The fault of entry k of the part.
    fn fault(self, k: usize) -> Condition
        requires { self.first + k < 65536 }
        ensures { result ≡ fault_at self.sort (self.first + k) }
    {
        fault_at(self.sort, self.first + k)
    }

    // Where the part from its entry k on begins.
    fn later(self, k: usize) -> Start
        requires { self.first + k < 65536 }
        ensures { result ≡ later self k }
    {
        Start {
            sort: self.sort,
            first: self.first + k,
        }
    }
}

// An entry after a block, with the lanes in which a change of its line is seen: where it was none, the lowest lane that shows its fault, if
// that is a pattern.
fn note(trial: Trial, rows: &[u64], condition: Condition, seen: u64x8, old: Entry) -> Entry
    requires { Notable trial rows.now condition «seen» }
    ensures { let t = trial.entry in Goes (shows (board_of t.img.now) condition) t.base t.end old result }
{
    if old != NONE {
        return old;
    }
    let own = own_words(trial, condition, rows);
    let found = trial.base + lowest(own & seen);
    if found < trial.end { found } else { old }
}

// Whether an entry is none and its fault changes its line in a block.
fn stirs(trial: Trial, rows: &[u64], condition: Condition, e: Entry) -> bool
    requires { Block (board_of trial.img.now) trial.base rows.now × OnBoard trial.img.now condition }
    ensures { let t = trial.entry in result ≡ false → (n : ℕ) → t.base ≤ n → n ≤ t.base + 512 → Goes (shows (board_of t.img.now) condition) t.base n e e }
{
    if e != NONE {
        return false;
    }
    !is_dark(own_words(trial, condition, rows))
}

// Whether a block leaves every entry of a part as it is.
fn is_idle(trial: Trial, rows: &[u64], at: Start, part: &[Entry]) -> bool
    requires { Tryable at trial rows.now (length part.now) }
    ensures { let t = trial.entry in result ≡ true → (n : ℕ) → t.base ≤ n → n ≤ t.base + 512 → Gone at (board_of t.img.now) t.base n part.now part.now }
{
    for (k, e) in part.iter().enumerate() {
        if stirs(trial, rows, at.fault(k), *e) {
            return false;
        }
    }
    true
}

// Whether a fault is on an absent pin, by the decoded board: image's looks at the bytes of one that may not be accepted.
fn is_absent(trial: Trial, condition: Condition) -> bool
    requires { site condition < size (board_of trial.img.now) }
    ensures { let t = trial.entry in result ≡ absent (board_of t.img.now) condition }
{
    match condition {
        Condition::Having(Fault::Pin { line, pin, .. }) => usize::from(trial.flat[line].count)
            <= pin,
        _ => false,
    }
}

// Whether an entry is none and its fault is not on an absent pin.
fn awaits(trial: Trial, condition: Condition, e: Entry) -> bool
    requires { site condition < size (board_of trial.img.now) }
    ensures { let t = trial.entry in result ≡ false → (m n : ℕ) → m ≤ n → Goes (shows (board_of t.img.now) condition) m n e e }
{
    if e != NONE {
        return false;
    }
    !is_absent(trial, condition)
}

// Whether some entry of a part is still to be found.
fn is_to_do(trial: Trial, at: Start, part: &[Entry]) -> bool
    requires { Part at trial.img.now (length part.now) }
    ensures { let t = trial.entry in result ≡ false → (m n : ℕ) → m ≤ n → Gone at (board_of t.img.now) m n part.now part.now }
{
    for (k, e) in part.iter().enumerate() {
        if awaits(trial, at.fault(k), *e) {
            return true;
        }
    }
    false
}

// Notes the entries of a part after a block, with the lanes in which a change of their line is seen.
fn note_all(trial: Trial, rows: &[u64], at: Start, seen: u64x8, part: &mut [Entry])
    requires { Tryable at trial rows.now (length part.old) × Span trial.base trial.end × ((k : ℕ) → k < length part.old → Lanes «seen» (seen_at (board_of trial.img.now) (line_of at k)) trial.base) }
    ensures { let t = trial.entry in Gone at (board_of t.img.now) t.base t.end part.old part.new }
{
    for (k, e) in part.iter_mut().enumerate() {
        *e = note(trial, rows, at.fault(k), seen, *e);
    }
}

// Brings the entries of a line to the end of a block.
fn bring_line(
    trial: Trial,
    rows: &mut [u64],
    changed: &mut [u8],
    at: Start,
    line: usize,
    part: &mut [Entry],
)
    requires { TryableLine at trial rows.old changed.old line (length part.old) }
    ensures { let t = trial.entry in Gone at (board_of t.img.now) t.base t.end part.old part.new × Block (board_of t.img.now) t.base rows.new }
{
    if is_idle(trial, rows, at, part) {
        return;
    }
    let seen = flip(trial, line, rows, changed);
    note_all(trial, rows, at, seen, part);
}

// Tries a block for the entries of a line that is still to do. Whether it is to do then.
fn try_line(
    trial: Trial,
    rows: &mut [u64],
    changed: &mut [u8],
    at: Start,
    line: usize,
    todo: &mut [u8],
    part: &mut [Entry],
) -> bool
    requires { TryableLine at trial rows.old changed.old line (length part.old) × (line < length todo.old) }
    ensures { let t = trial.entry in TriedLine at (board_of t.img.now) t.base t.end line todo.old part.old result rows.new todo.new part.new }
{
    if todo[line] == 0 {
        return false;
    }
    bring_line(trial, rows, changed, at, line, part);
    let more = is_to_do(trial, at, part);
    todo[line] = more as u8;
    more
}

// The number of the first entry of the line after entry k's: each sort divides by a constant of its own, which takes no division.
fn next_line(sort: Sort, k: usize) -> usize
    requires { k < 65536 }
    ensures { result ≡ entries_a_line sort * (k / entries_a_line sort + 1) }
{
    match sort {
        Sort::Lines => 2 * (k / 2 + 1),
        Sort::Pins => 8 * (k / 8 + 1),
    }
}

// Where the entries of entry k's line end, in a part of n entries.
fn line_end(at: Start, k: usize, n: usize) -> usize
    requires { (k < n) × (at.first + n ≤ 65536) }
    ensures { LineEnd at k n result }
{
    n.min(next_line(at.sort, at.first + k) - at.first)
}

// Tries a block for the entries of a part whose lines are still to do. Whether one of them is to do then.
pub fn try_block(
    trial: Trial,
    rows: &mut [u64],
    changed: &mut [u8],
    at: Start,
    todo: &mut [u8],
    part: &mut [Entry],
) -> bool
    requires { TryableBlock at trial rows.old changed.old todo.old (length part.old) }
    ensures { let t = trial.entry in TriedBlock at (board_of t.img.now) t.base t.end todo.old part.old result rows.new todo.new part.new }
{
    fill_good(trial, changed.len(), rows);
    let mut any = false;
    // No `chunks_mut`: a part may begin within a line, as Find's of one entry does.
    let mut k = 0;
    while k < part.len() {
        let line = site_of(at.fault(k));
        let next = line_end(at, k, part.len());
        let more = try_line(
            trial,
            rows,
            changed,
            at.later(k),
            line,
            todo,
            &mut part[k..next],
        );
        any = any | more;
        k = next;
    }
    any
}
