// Sets of pairs of a good and a faulty value, as numbers below 16, and what a gate's step leaves of them. No number is refused: a number
// that is no set holds nothing.

#![tactic(auto)]

mod rows;

ghost use Rattle.std.specs.Prelude.{◌≡◌, ◌/◌, ◌%◌, ◌<◌, slice_index};
ghost use Rattle.std.specs.Option.{unwrap_or};
ghost use Rattle.board.specs.Lists.{bit};
ghost use Rattle.sets.specs.Sets.{Forward, Common, Parted, Held, Freed, Follows, Stepped, Paired};
ghost use Rattle.sets.specs.Inner.{cell, Turns, Back};

use rows::{backward_row, forward_row};

// Set t of a row.
fn set_at(row: u64, t: u8) -> u8
    ensures { result ≡ cell row (t % 16) }
{
    ((row >> (4 * ((t % 16) as u64))) % 16) as u8
}

// What a section's gate gives from pins in two sets. Sections and ways are numbers, as `Stepped` and `Paired` of specs/Sets.antt count them, and
// rows are found by 16 x section + set.
pub fn forward(o: usize, s: u8, t: u8) -> u8
    requires { o < 3 }
    ensures { Forward o s t result }
{
    set_at(forward_row(16 * o + (s as usize)), t)
}

// What two sets have in common.
pub fn common(s: u8, t: u8) -> u8
    ensures { Common s t result }
{
    s & t
}

// A set in two parts: by the good value, or else by whether the pairs differ. One pair alone is the first part.
pub fn split(s: u8) -> (u8, u8)
    ensures { Parted s result.0 result.1 }
{
    let one = set_at(0x9898_9888_1414_1210, s);
    let other = set_at(0x6644_2210_6240_2000, s);
    (one, other)
}

// What a set's pairs become where their faulty value is held at 0 or 1. This and `freed` are two tables, with a promise each.
pub fn held(stuck: Option<u8>, x: u8) -> u8
    ensures { Held (unwrap_or stuck 2) x result }
{
    match stuck {
        Some(0) => set_at(0x5555_5511_5454_5410, x),
        Some(1) => set_at(0xaaaa_aa88_a2a2_a280, x),
        _ => x,
    }
}

// What becomes a pair of a set where its faulty value is held at 0 or 1.
pub fn freed(stuck: Option<u8>, z: u8) -> u8
    ensures { Freed (unwrap_or stuck 2) z result }
{
    match stuck {
        Some(0) => set_at(0xf6f6_9090_f6f6_9090, z),
        Some(1) => set_at(0xff99_ff99_6600_6600, z),
        _ => z,
    }
}

// Every pair with the good value of a pair in the set, turned where f is odd. Any number may come, so f is no bool.
pub fn follows(f: u8, s: u8) -> u8
    ensures { Follows f s result }
{
    if f % 2 == 0 {
        set_at(0xffff_ff99_f6f6_f690, s)
    } else {
        set_at(0xffff_ff66_f9f9_f960, s)
    }
}

// The row that turns a set's pairs where the way is odd, and leaves them where it is even.
fn turn_row(way: usize) -> u64
    ensures { Turns (way % 2) result }
{
    if way % 2 == 0 {
        0xfedc_ba98_7654_3210
    } else {
        0xfdec_7564_b9a8_3120
    }
}

// What is left of a pin and of what stands before it, each from the other and from what their gate gives.
fn pin_step(o: usize, z: u8, p: u8, x: u8) -> (u8, u8)
    requires { o < 3 }
    ensures { Back o z p x result.0 result.1 }
{
    let row = backward_row(16 * o + (z as usize));
    let pin = common(x, set_at(row, p));
    let before = common(p, set_at(row, x));
    (pin, before)
}

// The sets of a gate's line and its pins.
#[derive(Clone, Copy)]
pub struct GateSets<const N: usize> {
    pub line: u8,
    pub pins: [u8; N],
}

// A gate's step: its line from its pins, then each pin from the line and the other pins. The way is twice the section, and one more where the gate
// is turned.
pub fn gate_step(way: usize, s: GateSets<4>) -> GateSets<4>
    requires { way < 6 }
    ensures { let p = slice_index s.pins in let q = slice_index result.pins in Stepped (way / 2) (way % 2) s.line (p 0) (p 1) (p 2) (p 3) result.line (q 0) (q 1) (q 2) (q 3) }
{
    let o = way / 2;
    let turn = turn_row(way);
    let [a, b, c, d] = s.pins;
    let p1 = forward(o, a, b);
    let p2 = forward(o, p1, c);
    let p3 = forward(o, p2, d);
    let z = common(set_at(turn, s.line), p3);
    let (d, q2) = pin_step(o, z, p2, d);
    let (c, q1) = pin_step(o, q2, p1, c);
    let (b, a) = pin_step(o, q1, a, b);
    let line = set_at(turn, z);
    GateSets {
        line,
        pins: [a, b, c, d],
    }
}

// The step of a gate of at most two pins, the absent ones filled. One function for this and `gate_step` would be two loops over an array of halves, with invariants: no plainer than
// these bodies without a loop.
pub fn pair_step(way: usize, s: GateSets<2>) -> GateSets<2>
    requires { way < 6 }
    ensures { let p = slice_index s.pins in let q = slice_index result.pins in Paired way s.line (p 0) (p 1) result.line (q 0) (q 1) }
{
    let o = way / 2;
    let turn = turn_row(way);
    let [a, b] = s.pins;
    let p = forward(o, a, b);
    let z = common(set_at(turn, s.line), p);
    let (b, a) = pin_step(o, z, a, b);
    let line = set_at(turn, z);
    GateSets { line, pins: [a, b] }
}
