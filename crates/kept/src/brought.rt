// What a command brings as a new image: the bytes of a HEX word, those of a file, or the image that a file's drawing names.
ghost use Rattle.std.specs.Prelude.{◌≡◌, ◌+◌, ◌≤◌, ◌<◌, length, IfSome, false};
ghost use Rattle.kept.specs.Kept.{most_image, Stays};

use crate::lent::Lent;
use crate::word::put_word;
use crate::{MOST_IMAGE, tell};
use image::numbers::tail;
use ports::Terminal;
use ports::files::read_file;
use report::rooms::blank_text;
use words::command::Anew;

// One byte more than the longest image, by which a longer one is told.
const IMAGE_ROOM: usize = MOST_IMAGE + 1;

// Reads a file, and gives how many bytes came: none where it can't be read or fills the room, and that is answered.
fn open(terminal: &mut Terminal, path: &[u8], room: &mut [u8]) -> Option<usize>
    ensures { IfSome result (λ n. n < length room.old) }
{
    let n = read_file(&terminal.rt, path, room);
    if n.is_none() {
        terminal.write(b"? cannot read\n");
    }
    n
}

// Puts the image that a text names in front of the room, and gives its length: none where the text is refused, and that is answered.
fn make_image(terminal: &mut Terminal, text: &[u8], room: &mut [u8]) -> Option<usize>
    ensures { IfSome result (λ n. n ≤ length room.old) }
{
    match drawing::read(text, room) {
        Ok(n) => Some(n),
        Err(r) => {
            tell(terminal, r);
            None
        }
    }
}

// The same of the text in a file.
fn import(terminal: &mut Terminal, path: &[u8], room: &mut [u8]) -> Option<usize>
    ensures { IfSome result (λ n. n ≤ length room.old) }
{
    let mut text = blank_text();
    let n = open(terminal, path, &mut text)?;
    make_image(terminal, &text[..n], room)
}

// Puts what a command brings in front of the room, and gives how many bytes: none where it brings no image.
fn bring(terminal: &mut Terminal, asked: Anew, line: &[u8], room: &mut [u8]) -> Option<usize>
    requires { length room.old ≡ most_image + 1 }
    ensures { IfSome result (λ n. n ≤ most_image) }
{
    match asked {
        Anew::Load { from } => put_word(terminal, tail(line, from), &mut room[..MOST_IMAGE]),
        Anew::Open { from } => open(terminal, tail(line, from), room),
        Anew::Import { from } => import(terminal, tail(line, from), &mut room[..MOST_IMAGE]),
    }
}

// Lends the image that a command brings, and says whether it brings one: where not, nothing changes.
pub fn bring_image(
    terminal: &mut Terminal,
    asked: Anew,
    line: &[u8],
    img: &mut Lent<u8, MOST_IMAGE>,
) -> bool
    ensures { result ≡ false → Stays img.old.len img.old.room img.new.len img.new.room }
{
    let mut room = [0u8; IMAGE_ROOM];
    let Some(n) = bring(terminal, asked, line, &mut room) else {
        return false;
    };
    img.put(&room[..n]);
    true
}
