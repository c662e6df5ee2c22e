// The lanes in which a fault changes its own line.
ghost use Rattle.std.specs.Prelude.{◌≡◌, cond, ℕ, ◌+◌, ◌*◌, ◌≤◌, ◌<◌, eqb, get_or};
ghost use Rattle.board.specs.Row.{value};
ghost use Rattle.board.specs.Gate.{site};
ghost use Rattle.board.specs.Test.{differs};
ghost use Rattle.board.specs.declared.Fault.TheVariants.{Line, Pin};
ghost use Rattle.board.specs.declared.Condition.TheVariants.{Having};
ghost use Rattle.image.specs.Image.{board_of};
ghost use Rattle.image.specs.Inner.{OnBoard};
ghost use Rattle.lanes.specs.Words.{faulty_words, Lanes};
ghost use Rattle.lanes.specs.Inner.{size, gate_at, Block};

use crate::eight::eight_at;
use crate::fill::{good_places, spread};
use crate::gate::gate_words;
use crate::trial::Trial;
use board::{Condition, Fault};
use std::simd::u64x8;

// One place or the other.
fn place_if(held: bool, at: usize, own: usize) -> usize
    ensures { result ≡ cond held at own }
{
    if held { at } else { own }
}

// The places with another at one pin. Each is chosen: `places[pin] = at` is read back at once, which is slower by a tenth to a quarter.
fn held_places(places: [usize; 4], pin: usize, at: usize) -> [usize; 4]
    ensures { (j : ℕ) → j < 4 → get_or result j 0 ≡ cond (eqb pin j) at (get_or «places» j 0) }
{
    [
        place_if(pin == 0, at, places[0]),
        place_if(pin == 1, at, places[1]),
        place_if(pin == 2, at, places[2]),
        place_if(pin == 3, at, places[3]),
    ]
}

// The words of a line whose gate reads a stuck value on one of its pins.
fn held_words(trial: Trial, line: usize, pin: usize, stuck: u8, rows: &[u64]) -> u64x8
    requires { Block (board_of trial.img.now) trial.base rows.now × (line < size (board_of trial.img.now)) × (pin < (gate_at trial.flat.now line).count) × (stuck < 2) }
    ensures { let t = trial.entry in (w : ℕ) → w < 8 → get_or result w 0 ≡ value (faulty_words (Having (Pin line pin stuck)) (t.base + 64 * w)) (board_of t.img.now) line }
{
    let gate = &trial.flat[line];
    let at = rows.len() - 16 + 8 * usize::from(stuck);
    gate_words(gate, held_places(good_places(gate), pin, at), rows)
}

// The lanes in which a held line changes.
fn line_changes(trial: Trial, line: usize, stuck: u8, rows: &[u64]) -> u64x8
    requires { Block (board_of trial.img.now) trial.base rows.now × (line < size (board_of trial.img.now)) × (stuck < 2) }
    ensures { let t = trial.entry in Lanes result (λ x. differs (board_of t.img.now) (Having (Line line stuck)) x line) t.base }
{
    eight_at(rows, 8 * line) ^ u64x8::splat(spread(stuck))
}

// The lanes in which a line changes one of whose pins is held.
fn pin_changes(trial: Trial, line: usize, pin: usize, stuck: u8, rows: &[u64]) -> u64x8
    requires { Block (board_of trial.img.now) trial.base rows.now × (line < size (board_of trial.img.now)) × (stuck < 2) }
    ensures { let t = trial.entry in Lanes result (λ x. differs (board_of t.img.now) (Having (Pin line pin stuck)) x line) t.base }
{
    if usize::from(trial.flat[line].count) <= pin {
        return u64x8::splat(0);
    }
    let held = held_words(trial, line, pin, stuck, rows);
    eight_at(rows, 8 * line) ^ held
}

// The lanes in which a fault changes its own line, with the good words of a block lent.
pub fn own_words(trial: Trial, condition: Condition, rows: &[u64]) -> u64x8
    requires { Block (board_of trial.img.now) trial.base rows.now × OnBoard trial.img.now condition }
    ensures { let t = trial.entry in Lanes result (λ x. differs (board_of t.img.now) condition x (site condition)) t.base }
{
    match condition {
        Condition::Sound => u64x8::splat(0),
        Condition::Having(Fault::Line { line, stuck }) => { line_changes(trial, line, stuck, rows) }
        Condition::Having(Fault::Pin { line, pin, stuck }) => {
            pin_changes(trial, line, pin, stuck, rows)
        }
    }
}
