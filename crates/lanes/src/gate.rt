// The eight words of a gate, from those at its pins' places.
ghost use Rattle.std.specs.Prelude.{◌≡◌, ℕ, ◌+◌, ◌≤◌, ◌<◌, length, get_or};
ghost use Rattle.lanes.specs.Words.{each, joined, unjoined};
ghost use Rattle.lanes.specs.Inner.{GateWords};

use crate::eight::{FULL, eight_at};
use crate::flat::Gate;
use std::simd::u64x8;

// One pin more, by what the kind asks. Kinds are numbers as in flat.rt.
fn join(kind: u16, a: u64x8, b: u64x8) -> u64x8
    ensures { result ≡ each (λ w. joined kind (get_or a w 0) (get_or b w 0)) }
{
    if kind < 5 {
        a & b
    } else if kind < 7 {
        a | b
    } else {
        a ^ b
    }
}

// What no pin joins to.
fn join_none(kind: u16) -> u64
    ensures { result ≡ unjoined kind }
{
    if kind < 5 { FULL } else { 0 }
}

// The words of a gate whose pins' words stand at these places.
pub fn gate_words(gate: &Gate, places: [usize; 4], rows: &[u64]) -> u64x8
    requires { (gate.now.count ≤ 4) × ((j : ℕ) → j < gate.now.count → get_or «places» j 0 + 8 ≤ length rows.now) }
    ensures { GateWords gate.now.kind gate.now.count «places» rows.now result }
{
    let kind = gate.kind;
    let mut a = u64x8::splat(join_none(kind));
    for j in 0..usize::from(gate.count) {
        let next = join(kind, a, eight_at(rows, places[j]));
        a = next;
    }
    if kind % 2 == 1 {
        a
    } else {
        a ^ u64x8::splat(FULL)
    }
}
