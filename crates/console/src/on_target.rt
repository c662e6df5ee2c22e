// The commands that use the target.
use answers::{read_answer, write_answer};
use image::numbers::tail;
use kept::word::put_word;
use kept::{FRESH_BYTE, Kept, lend};
use ports::Terminal;
use report::rooms::LARGE;
use words::command::OnTarget;

// read: the drawing of a HEX word's bytes, into the lent target.
fn write_read(terminal: &mut Terminal, word: &[u8], target: &mut [u8]) {
    let mut text = [0u8; LARGE];
    if let Some(n) = put_word(terminal, word, &mut text) {
        terminal.write(read_answer(&text[..n], target).as_slice());
    }
}

// write: the image's drawing, into the lent target.
fn write_wrote(terminal: &mut Terminal, img: &[u8], target: &mut [u8]) {
    terminal.write(write_answer(img, target).as_slice());
}

// Answers a command.
pub fn on_target(terminal: &mut Terminal, asked: OnTarget, line: &[u8], kept: &mut Kept) {
    let target = &mut kept.target;
    match asked {
        OnTarget::Lend { bytes } => lend(terminal, bytes, FRESH_BYTE, target),
        OnTarget::Read { from } => write_read(terminal, tail(line, from), target.lent_mut()),
        OnTarget::Write => write_wrote(terminal, kept.img.lent(), target.lent_mut()),
        OnTarget::Target => terminal.write_hex(b"target ", target.lent()),
    }
}
