// Faults: LINE/STUCK, or LINE.PIN/STUCK for one pin, a number in each place.
ghost use Rattle.std.specs.Prelude.{◌≡◌, ◌<◌, IfSome, length, eqb};
ghost use Rattle.std.specs.List.{position};
ghost use Rattle.std.specs.Option.{option_map};
ghost use Rattle.words.specs.Parts.{split_once};
ghost use Rattle.words.specs.Fault.{fault_at, fault_of};

use crate::number::number_of;
use board::Fault;

// Where a mark first stands in a word, if it does.
fn mark_at(word: &[u8], mark: u8) -> Option<usize>
    ensures is { result ≡ position (λ x. eqb x mark) word.now }
    ensures within { IfSome result (λ at. at < length word.now) }
{
    word.iter().position(|x| *x == mark)
}

// What stands before a word's first mark, and behind it, where it has one.
fn split_once(word: &[u8], mark: u8) -> Option<(&[u8], &[u8])>
    ensures { option_map (λ parts. (parts.0.now, parts.1.now)) result ≡ split_once mark word.now }
{
    let at = mark_at(word, mark)?;
    Some((&word[..at], &word[at + 1..]))
}

// The fault of a place: a pin's where it has a dot, else a line's.
fn fault_at(place: &[u8], stuck: u8) -> Option<Fault>
    ensures { result ≡ fault_at place.now stuck }
{
    let Some((line, pin)) = split_once(place, b'.') else {
        let line = number_of(place)? as usize;
        return Some(Fault::Line { line, stuck });
    };
    let line = number_of(line)? as usize;
    let pin = number_of(pin)? as usize;
    Some(Fault::Pin { line, pin, stuck })
}

// The fault that a word is read as: its stuck value 255 where it is wider than a byte.
pub fn fault_of(word: &[u8]) -> Option<Fault>
    ensures { result ≡ fault_of word.now }
{
    let (place, stuck) = split_once(word, b'/')?;
    let stuck = number_of(stuck)?.min(255) as u8;
    fault_at(place, stuck)
}
