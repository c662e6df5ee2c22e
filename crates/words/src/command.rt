// What a command line asks for.
ghost use Rattle.std.specs.Prelude.{◌≡◌, map};
ghost use Rattle.words.specs.Parts.{words, last};
ghost use Rattle.words.specs.Command.{shown, anew_forms, image_forms, row_forms, book_forms, target_forms, other_forms, or_first, first_in, values_of, command_of};

use crate::fault::fault_of;
use crate::forms::form_fit;
use crate::number::number_at;
use board::{Fault, Sort};

// Why a line can't be read: it is empty, is no command, has too few or too many words, or a word is not what the command asks for there.
#[derive(Clone, Copy)]
pub enum Why {
    Empty,
    Unknown,
    Words,
    Number,
    Fault,
    Hex,
    Path,
}

// The commands, by what they use; `from` is where the line's last word begins. First those that bring a new image.
#[derive(Clone, Copy)]
pub enum Anew {
    Load { from: usize },
    Open { from: usize },
    Import { from: usize },
}

// Those that use the image alone.
#[derive(Clone, Copy)]
pub enum OnImage {
    Save { from: usize },
    Export { from: usize },
    Image,
    Check,
    Judge { pattern: u64, fault: Fault },
    Find { fault: Fault },
}

// Those that use the rows.
#[derive(Clone, Copy)]
pub enum OnRows {
    Lend {
        good: u64,
        faulty: u64,
    },
    PutGood {
        from: usize,
    },
    PutFaulty {
        from: usize,
    },
    Rows {
        pattern: u64,
        fault: Fault,
    },
    Refresh {
        line: u64,
        pattern: u64,
    },
    Five {
        named: u64,
        values: u64,
        fault: Fault,
    },
    ShowGood {
        start: u64,
    },
    ShowFaulty {
        start: u64,
    },
}

// Those that use one book, the line book or the pin book.
#[derive(Clone, Copy)]
pub enum OnBook {
    Lend { numbers: u64 },
    Put { place: u64, number: u64 },
    Book,
    Entries,
}

// Those that use the target.
#[derive(Clone, Copy)]
pub enum OnTarget {
    Lend { bytes: u64 },
    Target,
    Read { from: usize },
    Write,
}

// What a line asks for.
#[derive(Clone, Copy)]
pub enum Command {
    Anew(Anew),
    OnImage(OnImage),
    OnRows(OnRows),
    OnBook(Sort, OnBook),
    OnTarget(OnTarget),
    Alter { line: u64, from: usize },
    Help,
}

// What a line's words stand for: words 1, 2 and 3 as numbers, 0 for none; the last as a fault, line 0's for none; and where the last begins. No row asks for
// a word that is none, so no Option is needed.
#[derive(Clone, Copy)]
pub struct Values {
    pub one: u64,
    pub two: u64,
    pub three: u64,
    pub fault: Fault,
    pub from: usize,
}

// A row of the table of commands: a form, and what a line of that form asks for.
#[derive(Clone, Copy)]
struct Row {
    form: &'static [u8],
    asks: Command,
}

// A line's last word.
fn last_word(line: &[u8]) -> &[u8]
    ensures { result.now ≡ last (words line.now) }
{
    line.split(|x| *x == b' ').last().unwrap_or(&[])
}

// Gives what a line's words stand for.
fn values_of(line: &[u8]) -> Values
    ensures { result ≡ values_of line.now }
{
    let last = last_word(line);
    Values {
        one: number_at(line, 1),
        two: number_at(line, 2),
        three: number_at(line, 3),
        fault: fault_of(last).unwrap_or(Fault::Line { line: 0, stuck: 0 }),
        from: line.len() - last.len(),
    }
}

// A row of the table.
fn asked_by(form: &'static [u8], asks: Command) -> Row
    ensures { shown result ≡ record { form = form.now; asks = asks } }
{
    Row { form, asks }
}

// The forms of the commands that bring a new image.
#[tactic(auto, unfolding(crate::specs::Command::anew_forms))]
fn anew_forms(v: Values) -> [Row; 3]
    ensures { map shown result ≡ anew_forms v }
{
    let from = v.from;
    [
        asked_by(b"load H", Command::Anew(Anew::Load { from })),
        asked_by(b"open P", Command::Anew(Anew::Open { from })),
        asked_by(b"import P", Command::Anew(Anew::Import { from })),
    ]
}

// Those of the commands that use the image alone.
#[tactic(auto, unfolding(crate::specs::Command::image_forms))]
fn image_forms(v: Values) -> [Row; 6]
    ensures { map shown result ≡ image_forms v }
{
    let (fault, from) = (v.fault, v.from);
    let judge = OnImage::Judge {
        pattern: v.one,
        fault,
    };
    [
        asked_by(b"save P", Command::OnImage(OnImage::Save { from })),
        asked_by(b"export P", Command::OnImage(OnImage::Export { from })),
        asked_by(b"image", Command::OnImage(OnImage::Image)),
        asked_by(b"check", Command::OnImage(OnImage::Check)),
        asked_by(b"judge N F", Command::OnImage(judge)),
        asked_by(b"find F", Command::OnImage(OnImage::Find { fault })),
    ]
}

// Those of the commands that use the rows.
#[tactic(auto, unfolding(crate::specs::Command::row_forms))]
fn row_forms(v: Values) -> [Row; 8]
    ensures { map shown result ≡ row_forms v }
{
    let (start, fault, from) = (v.two, v.fault, v.from);
    let lend = OnRows::Lend {
        good: v.two,
        faulty: v.three,
    };
    let rows = OnRows::Rows {
        pattern: v.one,
        fault,
    };
    let refresh = OnRows::Refresh {
        line: v.one,
        pattern: v.two,
    };
    let five = OnRows::Five {
        named: v.one,
        values: v.two,
        fault,
    };
    [
        asked_by(b"lend rows N N", Command::OnRows(lend)),
        asked_by(b"put good H", Command::OnRows(OnRows::PutGood { from })),
        asked_by(b"put faulty H", Command::OnRows(OnRows::PutFaulty { from })),
        asked_by(b"rows N F", Command::OnRows(rows)),
        asked_by(b"refresh N N", Command::OnRows(refresh)),
        asked_by(b"five N N F", Command::OnRows(five)),
        asked_by(b"show good N", Command::OnRows(OnRows::ShowGood { start })),
        asked_by(
            b"show faulty N",
            Command::OnRows(OnRows::ShowFaulty { start }),
        ),
    ]
}

// Those of the commands that use one book.
#[tactic(auto, unfolding(crate::specs::Command::book_forms))]
fn book_forms(v: Values) -> [Row; 8]
    ensures { map shown result ≡ book_forms v }
{
    let lend = OnBook::Lend { numbers: v.two };
    let put = OnBook::Put {
        place: v.two,
        number: v.three,
    };
    [
        asked_by(b"lend book N", Command::OnBook(Sort::Lines, lend)),
        asked_by(b"put entry N N", Command::OnBook(Sort::Lines, put)),
        asked_by(b"book", Command::OnBook(Sort::Lines, OnBook::Book)),
        asked_by(b"entries", Command::OnBook(Sort::Lines, OnBook::Entries)),
        asked_by(b"lend pins N", Command::OnBook(Sort::Pins, lend)),
        asked_by(b"put pin N N", Command::OnBook(Sort::Pins, put)),
        asked_by(b"pin book", Command::OnBook(Sort::Pins, OnBook::Book)),
        asked_by(b"pin entries", Command::OnBook(Sort::Pins, OnBook::Entries)),
    ]
}

// Those of the commands that use the target.
#[tactic(auto, unfolding(crate::specs::Command::target_forms))]
fn target_forms(v: Values) -> [Row; 4]
    ensures { map shown result ≡ target_forms v }
{
    let (bytes, from) = (v.two, v.from);
    [
        asked_by(
            b"lend target N",
            Command::OnTarget(OnTarget::Lend { bytes }),
        ),
        asked_by(b"target", Command::OnTarget(OnTarget::Target)),
        asked_by(b"read H", Command::OnTarget(OnTarget::Read { from })),
        asked_by(b"write", Command::OnTarget(OnTarget::Write)),
    ]
}

// That of the command which uses both books, and of the one that lists them all.
#[tactic(auto, unfolding(crate::specs::Command::other_forms))]
fn other_forms(v: Values) -> [Row; 2]
    ensures { map shown result ≡ other_forms v }
{
    let (line, from) = (v.one, v.from);
    [
        asked_by(b"alter N H", Command::Alter { line, from }),
        asked_by(b"help", Command::Help),
    ]
}

// What was found, or else what the first of some rows whose name a line has asks for.
fn or_first(
    found: Result<Option<Command>, Why>,
    rows: &[Row],
    line: &[u8],
) -> Result<Option<Command>, Why>
    ensures { result ≡ or_first found (first_in (map shown rows.now) (words line.now)) }
{
    if found?.is_some() {
        return found;
    }
    for row in rows {
        if form_fit(row.form, line)? {
            return Ok(Some(row.asks));
        }
    }
    Ok(None)
}

// Gives what a line, without its line feed, asks for, or why it can't be read.
pub fn read(line: &[u8]) -> Result<Command, Why>
    ensures { result ≡ command_of line.now }
{
    if line.is_empty() {
        return Err(Why::Empty);
    }
    let v = values_of(line);
    let found = or_first(Ok(None), &anew_forms(v), line);
    let found = or_first(found, &image_forms(v), line);
    let found = or_first(found, &row_forms(v), line);
    let found = or_first(found, &book_forms(v), line);
    let found = or_first(found, &target_forms(v), line);
    let found = or_first(found, &other_forms(v), line);
    found?.ok_or(Why::Unknown)
}
