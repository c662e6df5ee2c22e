// Spans of bytes: the first byte of a value in one, and one copied to the front of another.

#![tactic(auto)]

ghost use Rattle.std.specs.Prelude.{◌≡◌, ◌==◌, ◌+◌, ◌≤◌, ◌++◌, drop, length, position};
ghost use Rattle.spans.specs.Span.{index_of, slice};

// Where the first `mark` of some bytes stands.
fn first(s: &[u8], mark: u8) -> Option<usize>
    ensures { result ≡ position (λ x. x == mark) s.now }
{
    s.iter().position(|b| *b == mark)
}

// Where the first `mark` among the bytes from start to end stands; end where there is none, as its contract's `index_of` counts.
pub fn find(s: &[u8], start: usize, end: usize, mark: u8) -> usize
    requires { (start ≤ end) × (end ≤ length s.now) }
    ensures { (result ≡ start + index_of mark (slice start end s.now)) × (result ≤ end) }
{
    match first(&s[start..end], mark) {
        Some(at) => start + at,
        None => end,
    }
}

// Copies src to the front of dst, and gives how long it is.
pub fn copy(src: &[u8], dst: &mut [u8]) -> usize
    requires { length src.now ≤ length dst.old }
    ensures { (result ≡ length src.now) × (dst.new ≡ src.now ++ drop (length src.now) dst.old) }
{
    let n = src.len();
    dst[..n].copy_from_slice(src);
    n
}
