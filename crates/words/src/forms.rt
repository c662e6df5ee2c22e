// The forms of the commands, and how a line suits one.
ghost use Rattle.std.specs.Prelude.{◌≡◌};
ghost use Rattle.words.specs.Parts.{words};
ghost use Rattle.words.specs.Forms.{letter_of, word_fit, lack_fit, form_fit};

use crate::bytes::is_all;
use crate::command::Why;
use crate::fault::fault_of;
use crate::hex::is_hex;
use crate::number::number_of;

// The letter of a word of one letter.
fn letter(word: &[u8]) -> Option<u8>
    ensures { result ≡ letter_of word.now }
{
    match word {
        [letter] => Some(*letter),
        _ => None,
    }
}

// How a word suits a word of a form: N a number, F a fault, H HEX, P a path, any other itself.
fn word_fit(asked: &[u8], word: &[u8]) -> Result<bool, Why>
    ensures { result ≡ word_fit asked.now word.now }
{
    match letter(asked) {
        Some(b'N') => number_of(word).is_some().then_some(true).ok_or(Why::Number),
        Some(b'F') => fault_of(word).is_some().then_some(true).ok_or(Why::Fault),
        Some(b'H') => is_hex(word).then_some(true).ok_or(Why::Hex),
        Some(b'P') => is_all(word, |x| *x != b'\t' && *x != b'\r')
            .then_some(true)
            .ok_or(Why::Path),
        _ => Ok(asked == word),
    }
}

// How a line suits a form that has a word more: too few words, or another name.
fn lack_fit(asked: &[u8]) -> Result<bool, Why>
    ensures { result ≡ lack_fit asked.now }
{
    if asked.len() == 1 {
        Err(Why::Words)
    } else {
        Ok(false)
    }
}

// How a line suits a form, word by word: whether it has the form, or another name, or why it can't be read.
pub fn form_fit(form: &[u8], line: &[u8]) -> Result<bool, Why>
    ensures { result ≡ form_fit (words form.now) (words line.now) }
{
    let mut words = line.split(|x| *x == b' ');
    for asked in form.split(|x| *x == b' ') {
        let Some(word) = words.next() else {
            return lack_fit(asked);
        };
        if !word_fit(asked, word)? {
            return Ok(false);
        }
    }
    match words.next() {
        None => Ok(true),
        Some(_) => Err(Why::Words),
    }
}
