// A change of one line passed up the board: the lanes in which it is seen at an output. Only gates that read a changed line are run again.
// Which lines changed is a row of bytes, as the definitions read rows of marks.
ghost use Rattle.std.specs.Prelude.{◌≡◌, true, false, ℕ, ◌+◌, ◌*◌, ◌≤◌, ◌<◌, length, get_or};
ghost use Rattle.std.specs.Int.Bits.{bit_or};
ghost use Rattle.board.specs.Row.{value};
ghost use Rattle.image.specs.Image.{board_of};
ghost use Rattle.lanes.specs.Words.{flipped_words, seen, Lanes};
ghost use Rattle.lanes.specs.Inner.{size, Block, is_changed, gate_at, place_of, Passed, PassedOn, adds};

use crate::eight::{FULL, eight_at, is_dark, put_eight};
use crate::flat::Gate;
use crate::gate::gate_words;
use crate::trial::Trial;
use std::simd::u64x8;

// Whether line p is noted as changed, where `line` is the one that was turned over.
fn is_changed(line: usize, changed: &[u8], p: usize) -> bool
    requires { p < length changed.now }
    ensures { result ≡ is_changed line changed.now p }
{
    (line <= p) & (changed[p] == 1)
}

// Whether a gate reads a line that is noted as changed.
fn hears(gate: &Gate, line: usize, changed: &[u8]) -> bool
    requires { (gate.now.count ≤ 4) × ((j : ℕ) → j < 4 → get_or gate.now.pins j 0 < length changed.now) }
    ensures { (result ≡ true → 0 < gate.now.count) × (result ≡ false → (j : ℕ) → j < gate.now.count → is_changed line changed.now (get_or gate.now.pins j 0) ≡ false) }
{
    for j in 0..usize::from(gate.count) {
        if is_changed(line, changed, usize::from(gate.pins[j])) {
            return true;
        }
    }
    false
}

// Where line p's words stand.
fn place(line: usize, changed: &[u8], p: usize) -> usize
    requires { (p < length changed.now) × (length changed.now < 65536) }
    ensures { result ≡ place_of (length changed.now) line changed.now p }
{
    if is_changed(line, changed, p) {
        8 * (changed.len() + p)
    } else {
        8 * p
    }
}

// Where the words of the lines on a gate's pins stand.
fn places(gate: &Gate, line: usize, changed: &[u8]) -> [usize; 4]
    requires { ((j : ℕ) → j < 4 → get_or gate.now.pins j 0 < length changed.now) × (length changed.now < 65536) }
    ensures { (j : ℕ) → j < 4 → get_or result j 0 ≡ place_of (length changed.now) line changed.now (get_or gate.now.pins j 0) }
{
    [
        place(line, changed, usize::from(gate.pins[0])),
        place(line, changed, usize::from(gate.pins[1])),
        place(line, changed, usize::from(gate.pins[2])),
        place(line, changed, usize::from(gate.pins[3])),
    ]
}

// The words of line i's gate, run again.
fn run_gate(trial: Trial, line: usize, i: usize, rows: &[u64], changed: &[u8]) -> u64x8
    requires { (line < i) × (i < size (board_of trial.img.now)) × Passed (board_of trial.img.now) trial.base line i rows.now changed.now × (0 < (gate_at trial.flat.now i).count) }
    ensures { let t = trial.entry in (w : ℕ) → w < 8 → get_or result w 0 ≡ value (flipped_words line (t.base + 64 * w)) (board_of t.img.now) i }
{
    let gate = &trial.flat[i];
    gate_words(gate, places(gate, line, changed), rows)
}

// Passes the change on over line i: its words are worked out anew where it reads a changed line, and it is noted whether they differ.
fn pass_on(trial: Trial, line: usize, i: usize, rows: &mut [u64], changed: &mut [u8])
    requires { (line < i) × (i < size (board_of trial.img.now)) × Passed (board_of trial.img.now) trial.base line i rows.old changed.old }
    ensures { let t = trial.entry in PassedOn (board_of t.img.now) t.base line i changed.old rows.new changed.new }
{
    if !hears(&trial.flat[i], line, changed) {
        changed[i] = 0;
        return;
    }
    let new = run_gate(trial, line, i, rows, changed);
    if is_dark(new ^ eight_at(rows, 8 * i)) {
        changed[i] = 0;
        return;
    }
    put_eight(rows, 8 * (changed.len() + i), new);
    changed[i] = 1;
}

// Turns a line over, and notes it as changed.
fn turn_over(trial: Trial, line: usize, rows: &mut [u64], changed: &mut [u8])
    requires { (line < size (board_of trial.img.now)) × Block (board_of trial.img.now) trial.base rows.old × (length changed.old ≡ size (board_of trial.img.now)) }
    ensures { let t = trial.entry in Passed (board_of t.img.now) t.base line (line + 1) rows.new changed.new }
{
    let turned = eight_at(rows, 8 * line) ^ u64x8::splat(FULL);
    put_eight(rows, 8 * (changed.len() + line), turned);
    changed[line] = 1;
}

// The lanes that were seen, and those that line i adds.
fn gather(trial: Trial, line: usize, i: usize, shown: u64x8, rows: &[u64], changed: &[u8]) -> u64x8
    requires { (line ≤ i) × (i < size (board_of trial.img.now)) × Passed (board_of trial.img.now) trial.base line (i + 1) rows.now changed.now }
    ensures { let t = trial.entry in (w : ℕ) → w < 8 → get_or result w 0 ≡ bit_or (get_or shown w 0) (adds (board_of t.img.now) t.base line i w) }
{
    if changed[i] != 1 {
        return shown;
    }
    if !trial.flat[i].is_output {
        return shown;
    }
    let n = changed.len();
    shown | (eight_at(rows, 8 * i) ^ eight_at(rows, 8 * (n + i)))
}

// The last line that a change may still reach, after line i.
fn further(flat: &[Gate], i: usize, last: usize, changed: &[u8]) -> usize
    requires { (i < length changed.now) × (i < length flat.now) }
    ensures { (last ≤ result) × (get_or changed.now i 0 ≡ 1 → (gate_at flat.now i).last_reader ≤ result) × ((n : ℕ) → last < n → (gate_at flat.now i).last_reader < n → result < n) }
{
    if changed[i] != 1 {
        return last;
    }
    last.max(usize::from(flat[i].last_reader))
}

// The lanes in which a change of a line is seen at some output, with the good words of a block lent.
pub fn flip(trial: Trial, line: usize, rows: &mut [u64], changed: &mut [u8]) -> u64x8
    requires { (line < size (board_of trial.img.now)) × Block (board_of trial.img.now) trial.base rows.old × (length changed.old ≡ size (board_of trial.img.now)) }
    ensures { let t = trial.entry in Lanes result (seen (board_of t.img.now) line) t.base × Block (board_of t.img.now) t.base rows.new }
{
    turn_over(trial, line, rows, changed);
    let mut shown = gather(trial, line, line, u64x8::splat(0), rows, changed);
    let mut last = usize::from(trial.flat[line].last_reader);
    let mut i = line + 1;
    // no `for`: a line that is passed may move the end
    while i <= last {
        pass_on(trial, line, i, rows, changed);
        let more = gather(trial, line, i, shown, rows, changed);
        shown = more;
        last = further(trial.flat, i, last, changed);
        i += 1;
    }
    shown
}
