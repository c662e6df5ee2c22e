// The commands that use one book.
use answers::book_answer;
use board::Sort;
use image::limits::Entry;
use kept::{FRESH_NUMBER, Kept, Lent, lend};
use ports::Terminal;
use words::command::OnBook;

// put entry and put pin: the entry at a place becomes a number.
fn put_entry(terminal: &mut Terminal, place: u64, number: u64, book: &mut [Entry]) {
    let k = place as usize;
    if book.len() <= k {
        terminal.write(b"? past the end\n");
        return;
    }
    book[k] = number;
    terminal.write(b"lent\n");
}

// Writes Book's answer, or the pin book's.
fn write_book(terminal: &mut Terminal, img: &[u8], sort: Sort, book: &mut [Entry]) {
    terminal.write(book_answer(img, sort, book).as_slice());
}

// Writes the numbers of a book behind its word.
fn write_numbers(terminal: &mut Terminal, sort: Sort, book: &[Entry]) {
    match sort {
        Sort::Lines => terminal.write_entries(b"entries", book),
        Sort::Pins => terminal.write_entries(b"pins", book),
    }
}

// Answers a command on one book.
fn on_one<const N: usize>(
    terminal: &mut Terminal,
    asked: OnBook,
    img: &[u8],
    sort: Sort,
    book: &mut Lent<Entry, N>,
) {
    match asked {
        OnBook::Lend { numbers } => lend(terminal, numbers, FRESH_NUMBER, book),
        OnBook::Put { place, number } => put_entry(terminal, place, number, book.lent_mut()),
        OnBook::Book => write_book(terminal, img, sort, book.lent_mut()),
        OnBook::Entries => write_numbers(terminal, sort, book.lent()),
    }
}

// Answers a command on the book of a sort.
pub fn on_book(terminal: &mut Terminal, asked: OnBook, sort: Sort, kept: &mut Kept) {
    let img = kept.img.lent();
    match sort {
        Sort::Lines => on_one(terminal, asked, img, sort, &mut kept.book),
        Sort::Pins => on_one(terminal, asked, img, sort, &mut kept.pins),
    }
}
