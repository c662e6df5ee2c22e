// The commands that use the image alone.
use answers::{check_answer, find_answer, judge_answer};
use image::numbers::tail;
use kept::tell;
use ports::Terminal;
use ports::files::write_file;
use report::rooms::TARGET_ROOM;
use words::command::OnImage;

// save: bytes go to a file.
fn save(terminal: &mut Terminal, path: &[u8], bytes: &[u8]) {
    match write_file(&terminal.rt, path, bytes) {
        Some(()) => terminal.write(b"saved\n"),
        None => terminal.write(b"? cannot write\n"),
    }
}

// export: the image's drawing goes to a file, which is left alone where the image is refused.
fn export(terminal: &mut Terminal, path: &[u8], img: &[u8]) {
    let mut text = [0u8; TARGET_ROOM];
    match drawing::write(img, &mut text) {
        Ok(n) => save(terminal, path, &text[..n]),
        Err(r) => tell(terminal, r),
    }
}

// Answers a command.
pub fn on_image(terminal: &mut Terminal, asked: OnImage, line: &[u8], img: &[u8]) {
    let answer = match asked {
        OnImage::Save { from } => return save(terminal, tail(line, from), img),
        OnImage::Export { from } => return export(terminal, tail(line, from), img),
        OnImage::Image => return terminal.write_hex(b"image ", img),
        OnImage::Check => check_answer(img),
        OnImage::Judge { pattern, fault } => judge_answer(img, pattern, fault),
        OnImage::Find { fault } => find_answer(img, fault),
    };
    terminal.write(answer.as_slice());
}
