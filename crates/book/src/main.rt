// Reads an image from standard input and writes its book as text, or the one line of its refusal: `program_lines` of `report`.

#![tactic(auto)]

ghost use Rattle.report.specs.Book.{Filled};

use board::Sort;
use image::limits::{Entry, MOST_LINES};
use report::book::{Rest, fill_rest, first_line, later_line};
use report::input::read_image;
use report::rooms::blank_image;
use std::io;
use std::io::{Stdout, Write};

// The entries of the most lines in the longer book, that of the pins.
const BOOK_ROOM: usize = 8 * MOST_LINES;

// Writes the lines of a filled book, in their order.
fn write_lines(
    to: &mut Stdout,
    img: &[u8],
    sort: Sort,
    book: &[Entry],
    rest: Rest,
) -> io::Result<()>
    requires { Filled sort img.now book.now rest }
{
    for k in 0..book.len() + 1 {
        let line = later_line(img, sort, book, rest, k);
        to.write_all(line.as_slice())?;
    }
    Ok(())
}

// Writes what follows the first line for one book: nothing where the image is refused.
fn write_book(to: &mut Stdout, img: &[u8], sort: Sort) -> io::Result<()> {
    let mut room = [0; BOOK_ROOM];
    if let Some(rest) = fill_rest(img, sort, &mut room) {
        let entries = rest.lines - 1;
        write_lines(to, img, sort, &room[..entries], rest)?;
    }
    Ok(())
}

// Writes the text.
fn write_text(to: &mut Stdout, img: &[u8]) -> io::Result<()> {
    to.write_all(first_line(img).as_slice())?;
    write_book(to, img, Sort::Lines)?;
    write_book(to, img, Sort::Pins)
}

fn main(rt: HostRuntime) -> io::Result<()> {
    let mut img = blank_image();
    let n = read_image(&mut rt.stdin(), &mut img);
    write_text(&mut rt.stdout(), &img[..n])
}
