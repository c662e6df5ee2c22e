// One command line.
use console::help::{write_help, write_reason};
use console::on_book::on_book;
use console::on_both::write_alter;
use console::on_image::on_image;
use console::on_rows::on_rows;
use console::on_target::on_target;
use image::numbers::tail;
use kept::Kept;
use kept::anew::anew;
use ports::Terminal;
use words::command::{Command, read};

// Answers a line, on what is kept.
pub fn obey(terminal: &mut Terminal, line: &[u8], kept: &mut Kept) {
    match read(line) {
        Ok(Command::Anew(asked)) => anew(terminal, asked, line, kept),
        Ok(Command::OnImage(asked)) => on_image(terminal, asked, line, kept.img.lent()),
        Ok(Command::OnRows(asked)) => on_rows(terminal, asked, line, kept),
        Ok(Command::OnBook(sort, asked)) => on_book(terminal, asked, sort, kept),
        Ok(Command::OnTarget(asked)) => on_target(terminal, asked, line, kept),
        Ok(Command::Alter { line: gate, from }) => {
            write_alter(terminal, tail(line, from), gate, kept)
        }
        Ok(Command::Help) => write_help(terminal),
        Err(why) => write_reason(terminal, why),
    }
}
