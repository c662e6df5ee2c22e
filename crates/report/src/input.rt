// An image from an input. Of one that is longer than any good image the last 12 bytes are kept, which alone decide its refusal.
ghost use Rattle.std.specs.Prelude.{◌≡◌, List, ◌++◌, ℕ, ◌+◌, ◌≤◌, ◌<◌, length, take, drop};
ghost use Rattle.image.specs.Image.{longest_image};
ghost use Rattle.report.specs.Book.{RefusedAlike, Tail};

use crate::rooms::LARGE;
use image::limits::LONGEST_IMAGE;
use std::io::Read;
use text::put::put;

// How many bytes a trailer has.
const TRAILER: usize = 12;

// Brings the last 12 bytes of what came first to the front of a buffer.
fn begin_tail(came: &[u8], buf: &mut [u8])
    requires { (12 ≤ length came.now) × (12 ≤ length buf.old) }
    ensures { Tail came.now buf.new }
{
    let from = came.len() - TRAILER;
    put(&came[from..], buf, 0);
}

// Where the last 12 bytes of what came are at the front of a buffer, and `got` more behind them: brings the last 12 of all to the front.
fn keep_tail(buf: &mut [u8], got: usize)
    requires { got + 12 ≤ length buf.old }
    ensures { (s : List ℕ) → 12 ≤ length s → Tail s buf.old → Tail (s ++ take got (drop 12 buf.old)) buf.new }
{
    buf.copy_within(got..got + TRAILER, 0);
}

// Puts the last 12 bytes of what came at the end of a long image: it is then refused as all that came is.
fn end_with_tail(buf: &[u8], img: &mut [u8])
    requires { (12 ≤ length buf.now) × (longest_image < length img.old) }
    ensures { (s : List ℕ) → longest_image < length s → Tail s buf.now → RefusedAlike s img.new }
{
    let at = img.len() - TRAILER;
    put(&buf[..TRAILER], img, at);
}

// Reads until a buffer is full, the input ends or a read fails, and gives how many bytes came.
pub fn read_full<R: Read>(from: &mut R, buf: &mut [u8]) -> usize
    ensures { result ≤ length buf.new }
{
    let mut n = 0;
    // No `for`: each read says how much came.
    while n < buf.len() {
        match from.read(&mut buf[n..]) {
            Ok(0) | Err(_) => return n,
            Ok(more) => n += more,
        }
    }
    n
}

// Reads an input to its end, and leaves the last 12 bytes of all that came at the front.
pub fn read_on<R: Read>(from: &mut R, buf: &mut [u8])
    requires { 12 ≤ length buf.old }
{
    for _ in 0..u64::MAX {
        let got = read_full(from, &mut buf[TRAILER..]);
        if got == 0 {
            return;
        }
        keep_tail(buf, got);
    }
}

// Reads on behind the first bytes of an input that is longer than any good image, and ends them with the last 12 of all that came.
fn read_long<R: Read>(from: &mut R, img: &mut [u8])
    requires { longest_image < length img.old }
{
    let mut buf = [0u8; LARGE];
    begin_tail(img, &mut buf);
    read_on(from, &mut buf);
    end_with_tail(&buf, img);
}

// Reads an image from an input, and gives how many bytes of the room it has. A longer input than any good image is refused as what
// is then in the room.
pub fn read_image<R: Read>(from: &mut R, room: &mut [u8]) -> usize
    requires { length room.old ≡ longest_image + 1 }
    ensures { result ≤ length room.old }
{
    let n = read_full(from, room);
    if LONGEST_IMAGE < n {
        read_long(from, &mut room[..n]);
    }
    n
}
