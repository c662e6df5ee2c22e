// HEX: two digits a byte, lower or upper case; `-` is no bytes.
ghost use Rattle.std.specs.Prelude.{◌≡◌, ◌++◌, ◌+◌, ◌*◌, ◌/◌, ◌<◌, min, length, take, drop};
ghost use Rattle.words.specs.Hex.{is_hex, hex_digit, hex_bytes};

use crate::bytes::is_all;

// The word is HEX.
pub fn is_hex(word: &[u8]) -> bool
    ensures { result ≡ is_hex word.now }
{
    word == b"-".as_slice() || (word.len() % 2 == 0 && is_all(word, |x| x.is_ascii_hexdigit()))
}

// How many bytes a HEX word stands for.
pub fn bytes_of(word: &[u8]) -> usize
    ensures { result ≡ length word.now / 2 }
{
    word.len() / 2
}

// The value of a digit, and some number below 16 for any other byte: `hex_bytes`, which `unpack` owes for any word, is said with it, so no `to_digit`.
fn digit(x: u8) -> u8
    ensures { (result ≡ hex_digit x) × (result < 16) }
{
    (x % 16 + 9 * (x / 64)) % 16
}

// The byte of two digits.
fn byte_of(high: u8, low: u8) -> u8
    ensures { result ≡ 16 * hex_digit high + hex_digit low }
{
    16 * digit(high) + digit(low)
}

// Puts the bytes that a word stands for at the front of the caller's buffer, a row, a record or a text, as many as it has room for, and gives how many.
pub fn unpack(word: &[u8], out: &mut [u8]) -> usize
    ensures { (result ≡ min (length word.now / 2) (length out.old)) × (out.new ≡ take result (hex_bytes word.now) ++ drop result out.old) }
{
    let n = bytes_of(word).min(out.len());
    for i in 0..n {
        out[i] = byte_of(word[2 * i], word[2 * i + 1]);
    }
    n
}
