// Numbers: decimal digits that fit 64 bits.
ghost use Rattle.std.specs.Prelude.{◌≡◌, ◌+◌, ◌*◌, ◌^◌, ◌<◌};
ghost use Rattle.std.specs.Option.{SomeIff};
ghost use Rattle.words.specs.Number.{number_of, number_at};
ghost use Rattle.words.specs.Parts.{words};

// The number that one digit more makes, if it fits.
fn one_more(value: u64, digit: u8) -> Option<u64>
    ensures { SomeIff result (10 * value + digit < 2 ^ 64) (10 * value + digit) }
{
    value.checked_mul(10)?.checked_add(u64::from(digit))
}

// The number that a word is read as.
pub fn number_of(word: &[u8]) -> Option<u64>
    ensures { result ≡ number_of word.now }
{
    if word.is_empty() {
        return None;
    }
    let mut value = 0;
    for x in word {
        if !x.is_ascii_digit() {
            return None;
        }
        value = one_more(value, *x - b'0')?;
    }
    Some(value)
}

// The number of a line's word at a place, counted from 0; 0 where it is none, and then no row asks for it.
pub fn number_at(line: &[u8], place: usize) -> u64
    ensures { result ≡ number_at (words line.now) place }
{
    line.split(|x| *x == b' ')
        .nth(place)
        .and_then(number_of)
        .unwrap_or(0)
}
