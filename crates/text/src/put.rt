// Text put together in a buffer, piece by piece. The buffer is the caller's: nothing here asks for memory, and what is made is copied once.
ghost use Rattle.std.specs.Prelude.{◌≡◌, ◌++◌, ◌+◌, ◌≤◌, length, take};
ghost use Rattle.text.specs.Text.{decimal};

use spans::copy;

// Puts bytes behind the first `at` of a buffer, and gives where they end.
pub fn put(bytes: &[u8], out: &mut [u8], at: usize) -> usize
    requires { at + length bytes.now ≤ length out.old }
    ensures { (result ≡ at + length bytes.now) × (take result out.new ≡ take at out.old ++ bytes.now) }
{
    at + copy(bytes, &mut out[at..])
}

// Puts a number in decimal.
pub fn put_number(n: u64, out: &mut [u8], at: usize) -> usize
    requires { at + 20 ≤ length out.old }
    ensures { (at ≤ result) × (result ≤ at + 20) × (take result out.new ≡ take at out.old ++ decimal n) }
{
    let mut digits = [0u8; 20];
    let k = io::decimal(n, &mut digits);
    put(&digits[..k], out, at)
}
