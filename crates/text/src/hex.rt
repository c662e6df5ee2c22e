// Bytes as HEX.
ghost use Rattle.std.specs.Prelude.{◌≡◌, ◌*◌, ◌≤◌, ◌<◌, length};
ghost use Rattle.io.specs.Digits.{hex_digit_ascii};
ghost use Rattle.text.specs.Text.{Written, each, two_digits};

// A digit, lower case. `char::from_digit` gives an option of a character, and is no plainer for what is always a byte.
fn digit(d: u8) -> u8
    requires { d < 16 }
    ensures { result ≡ hex_digit_ascii d }
{
    if d < 10 { b'0' + d } else { b'a' - 10 + d }
}

// Two digits a byte, in the caller's buffer: one piece of a long answer at a time, in fixed memory.
pub fn hex_text(bytes: &[u8], out: &mut [u8]) -> usize
    requires { 2 * length bytes.now ≤ length out.old }
    ensures { Written result out.new (each two_digits bytes.now) }
{
    for (i, byte) in bytes.iter().enumerate() {
        out[2 * i] = digit(byte / 16);
        out[2 * i + 1] = digit(byte % 16);
    }
    2 * bytes.len()
}
