// Reads a drawing from standard input and writes its image, or on standard error the one line of its refusal.

#![tactic(auto)]

use report::input::{read_full, read_on};
use report::output::write_refusal;
use report::rooms::{LARGE, MOST_TEXT, blank_image, blank_text};
use std::io;
use std::io::Write;

// Writes the image that a text names, or its refusal.
fn write_image(rt: &HostRuntime, text: &[u8]) -> io::Result<()> {
    let mut img = blank_image();
    match drawing::read(text, &mut img) {
        Ok(n) => rt.stdout().write_all(&img[..n]),
        Err(r) => write_refusal(&mut rt.stderr(), r),
    }
}

// Reads a text that is too long to its end, and says so.
fn pass_long(rt: &HostRuntime) -> io::Result<()> {
    let mut buf = [0u8; LARGE];
    read_on(&mut rt.stdin(), &mut buf);
    rt.stderr().write_all(b"? larger than 1048576 bytes\n")
}

fn main(rt: HostRuntime) -> io::Result<()> {
    let mut text = blank_text();
    let n = read_full(&mut rt.stdin(), &mut text);
    if n <= MOST_TEXT {
        write_image(&rt, &text[..n])
    } else {
        pass_long(&rt)
    }
}
