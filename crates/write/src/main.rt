// Reads an image from standard input and writes its drawing, or on standard error the one line of its refusal.

#![tactic(auto)]

use report::input::read_image;
use report::output::write_refusal;
use report::rooms::{TARGET_ROOM, blank_image};
use std::io;
use std::io::Write;

// Writes the drawing of an image, or its refusal.
fn write_drawing(rt: &HostRuntime, img: &[u8]) -> io::Result<()> {
    let mut text = [0u8; TARGET_ROOM];
    match drawing::write(img, &mut text) {
        Ok(n) => rt.stdout().write_all(&text[..n]),
        Err(r) => write_refusal(&mut rt.stderr(), r),
    }
}

fn main(rt: HostRuntime) -> io::Result<()> {
    let mut img = blank_image();
    let n = read_image(&mut rt.stdin(), &mut img);
    write_drawing(&rt, &img[..n])
}
