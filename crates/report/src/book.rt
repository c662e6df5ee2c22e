// The text that the program `book` writes, line by line.
ghost use Rattle.std.specs.Prelude.{◌≡◌, [], ◌+◌, ◌*◌, ◌≤◌, ◌<◌, length, get_or};
ghost use Rattle.board.specs.Limits.{most_lines};
ghost use Rattle.board.specs.Book.{entries_a_line, answer_in};
ghost use Rattle.image.specs.Image.{line_count, board_of};
ghost use Rattle.image.specs.Refusals.{Accepted as IsAccepted};
ghost use Rattle.text.specs.Made.{made};
ghost use Rattle.report.specs.Book.{entry_text, total_text, pins_of, faults_of, entry_line, book_lines, first_line, Filled, RestOf};

use crate::lines::answer_line;
use board::{Condition, Fault, Sort, entries_a_line, fault_at};
use find::entries::fill_book;
use image::accepted::Accepted;
use image::asked::check_image;
use image::check;
use image::limits::{Entry, NONE};
use image::pins::{is_absent, pin_count};
use image::said::said;
use text::line::Line;

// What follows for one book: how many lines, how many of its entries are not none, and how many faults of its sort there are.
#[derive(Clone, Copy)]
pub struct Rest {
    pub lines: usize,
    pub found: usize,
    pub faults: usize,
}

// The first line: the counts, or the one line of the refusal.
pub fn first_line(img: &[u8]) -> Line
    ensures { made result ≡ first_line img.now }
{
    answer_line(said(check(img)), b"board # lines # inputs # outputs\n")
}

// How many pins a board's lines use.
fn used_pins(board: Accepted) -> usize
    ensures { let b = board.entry in (result ≡ pins_of (board_of b.img.now).lines) × (result ≤ 4 * b.counts.lines) }
{
    let mut used = 0;
    for i in 0..board.counts.lines {
        used += pin_count(board.img, i);
    }
    used
}

// How many faults of a sort a board has.
fn faults_of(board: Accepted, sort: Sort) -> usize
    ensures { result ≡ faults_of sort (board_of board.entry.img.now) }
{
    match sort {
        Sort::Lines => 2 * board.counts.lines,
        Sort::Pins => 2 * used_pins(board),
    }
}

// Fills the front of the room with a book, and gives what follows for it: none where the image is refused.
pub fn fill_rest(img: &[u8], sort: Sort, room: &mut [Entry]) -> Option<Rest>
    requires { 8 * most_lines ≤ length room.old }
    ensures { RestOf sort img.now room.new result }
{
    let Ok(counts) = check_image(img) else {
        return None;
    };
    let board = Accepted { img, counts };
    let entries = entries_a_line(sort) * counts.lines;
    let found = fill_book(board, sort, &mut room[..entries]);
    Some(Rest {
        lines: entries + 1,
        found,
        faults: faults_of(board, sort),
    })
}

// The line of a fault, with the number that stands in its entry.
fn fault_line(c: Condition, e: Entry) -> Line
    ensures { made result ≡ entry_text c (answer_in e) }
{
    match c {
        Condition::Sound => Line::blank(),
        Condition::Having(Fault::Line { line, stuck }) if e == NONE => {
            Line::of(b"#/# none\n", &[line as u64, stuck as u64])
        }
        Condition::Having(Fault::Line { line, stuck }) => {
            Line::of(b"#/# #\n", &[line as u64, stuck as u64, e])
        }
        Condition::Having(Fault::Pin { line, pin, stuck }) if e == NONE => Line::of(
            b"#.#/# none\n",
            &[line as u64, pin as u64, stuck as u64],
        ),
        Condition::Having(Fault::Pin { line, pin, stuck }) => Line::of(
            b"#.#/# #\n",
            &[line as u64, pin as u64, stuck as u64, e],
        ),
    }
}

// The line of entry k of a book, with the number that stands there: no bytes where its pin is absent. It needs no counts, so it takes the image alone.
fn entry_line(img: &[u8], sort: Sort, k: usize, e: Entry) -> Line
    requires { IsAccepted img.now × (k < entries_a_line sort * line_count img.now) }
    ensures { made result ≡ entry_line sort (board_of img.now) k e }
{
    let fault = fault_at(sort, k);
    if is_absent(img, fault) {
        return Line::blank();
    }
    fault_line(fault, e)
}

// The line behind a book's: how many entries are not none, of how many faults.
fn total_line(sort: Sort, rest: Rest) -> Line
    ensures { made result ≡ total_text sort rest.found rest.faults }
{
    let found = rest.found as u64;
    let faults = rest.faults as u64;
    match sort {
        Sort::Lines => Line::of(b"found # of #\n", &[found, faults]),
        Sort::Pins => Line::of(b"pins found # of #\n", &[found, faults]),
    }
}

// Line k of those that follow for a filled book: that of entry k, and after the entries the total.
pub fn later_line(img: &[u8], sort: Sort, book: &[Entry], rest: Rest, k: usize) -> Line
    requires { Filled sort img.now book.now rest × (k ≤ length book.now) }
    ensures { made result ≡ get_or (book_lines sort img.now) k [] }
{
    if k < book.len() {
        return entry_line(img, sort, k, book[k]);
    }
    total_line(sort, rest)
}
