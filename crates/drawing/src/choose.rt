// Which piece of the form a text goes on with.
ghost use Rattle.std.specs.Prelude.{ℕ};
ghost use Rattle.drawing.specs.Inner.{Common, Chosen, Run, numbered};

use crate::stop::Stop;
use text::form::spell;

// Which of some pieces a text begins with, by its place in the forms given, which are other ones at each call, and its length.
#[derive(Clone, Copy)]
pub struct Took {
    pub which: usize,
    pub length: usize,
}

// How many bytes of a word a text begins with.
fn common(rest: &[u8], word: &[u8]) -> usize
    ensures { Common rest.now word.now result }
{
    rest.iter().zip(word).take_while(|(a, b)| a == b).count()
}

// Looks which of the forms of some pieces a text begins with, where the next input or gate is numbered k; it stops where the one that shares
// the most bytes does.
pub fn choose(rest: &[u8], forms: &[&[u8]], k: usize) -> Result<Took, Stop>
    requires { (from : ℕ) × (to : ℕ) × Run from to forms.now }
    ensures { (from to : ℕ) → Run from to forms.now → Chosen from to k rest.now (numbered from result) }
{
    let mut best = 0;
    for (which, form) in forms.iter().enumerate() {
        let mut word = [0u8; 32];
        let n = spell(form, &[k as u64], &mut word);
        let m = common(rest, &word[..n]);
        if m == n {
            return Ok(Took { which, length: n });
        }
        best = best.max(m);
    }
    Err(Stop { along: best })
}
