// What an answer says, in numbers: those that document 01 gives for each of its cases.
ghost use Rattle.std.specs.Prelude.{List, [], ◌∷◌, ℕ, option_to_list};
ghost use Rattle.board.specs.Lists.{bit};
ghost use Rattle.image.specs.Promise.{numbers as numbers_of, said_of, Packs};
ghost use Rattle.image.specs.Check.{counts_say};

use crate::{Counts, Refusal};

// 0 or a refusal's number, how many values are returned beside it, and these, with 0 in the unused places.
#[repr(C)]
#[derive(Clone, Copy)]
pub struct Numbers {
    pub number: u64,
    pub values: u64,
    pub first: u64,
    pub second: u64,
    pub third: u64,
}

// A number with no value beside it. It and the next two write out the padding, which C's struct has: one function would take the count and the three places.
pub fn alone(number: u64) -> Numbers
    ensures { Packs (number ∷ []) result }
{
    Numbers {
        number,
        values: 0,
        first: 0,
        second: 0,
        third: 0,
    }
}

// A number with one value.
pub fn with_one(number: u64, first: u64) -> Numbers
    ensures { Packs (number ∷ first ∷ []) result }
{
    Numbers {
        number,
        values: 1,
        first,
        second: 0,
        third: 0,
    }
}

// A number with two values.
pub fn with_two(number: u64, first: u64, second: u64) -> Numbers
    ensures { Packs (number ∷ first ∷ second ∷ []) result }
{
    Numbers {
        number,
        values: 2,
        first,
        second,
        third: 0,
    }
}

// A refusal's numbers.
pub fn refused(r: Refusal) -> Numbers
    ensures { Packs (numbers_of r) result }
{
    match r {
        Refusal::Mark => alone(1),
        Refusal::Counts => alone(2),
        Refusal::Distance => alone(3),
        Refusal::Record { line, field } => with_two(4, line as u64, field as u64),
        Refusal::Output(place) => with_one(5, place as u64),
        Refusal::Line => alone(6),
        Refusal::Stuck => alone(7),
        Refusal::Pattern => alone(8),
        Refusal::Lent => alone(9),
        Refusal::Alteration => alone(10),
        Refusal::Row => alone(11),
        Refusal::Pin => alone(12),
        Refusal::Form(length) => with_one(13, length as u64),
        Refusal::Target => alone(14),
    }
}

// What a call can answer: its values, in numbers behind a 0.
pub trait Says {
    ghost says: { Self → List ℕ };

    fn say(self) -> Numbers
        ensures { Packs (0 ∷ says self) result };
}

// The line, input and output counts.
impl Says for Counts {
    ghost says = { counts_say };

    fn say(self) -> Numbers {
        Numbers {
            number: 0,
            values: 3,
            first: self.lines as u64,
            second: self.inputs as u64,
            third: self.outputs as u64,
        }
    }
}

// No value: what was lent is filled.
impl Says for () {
    ghost says = { λ u. [] };

    fn say(self) -> Numbers {
        alone(0)
    }
}

// 1 for yes, 0 for no.
impl Says for bool {
    ghost says = { λ b. bit b ∷ [] };

    fn say(self) -> Numbers {
        with_one(0, self as u64)
    }
}

// A count.
impl Says for usize {
    ghost says = { λ n. n ∷ [] };

    fn say(self) -> Numbers {
        with_one(0, self as u64)
    }
}

// A pattern, or no value for none.
impl Says for Option<u64> {
    ghost says = { option_to_list };

    fn say(self) -> Numbers {
        match self {
            Some(pattern) => with_one(0, pattern),
            None => alone(0),
        }
    }
}

// The numbers of a call's answer.
pub fn said<A: Says>(answer: Result<A, Refusal>) -> Numbers
    ensures { Packs (said_of A.says answer) result }
{
    match answer {
        Ok(a) => a.say(),
        Err(r) => refused(r),
    }
}
