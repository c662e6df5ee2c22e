// The commands that use the rows.
use answers::{five_answer, refresh_answer, rows_answer};
use image::numbers::tail;
use kept::Kept;
use kept::lent_rows::{lend_rows, put_row};
use ports::Terminal;
use rows::show;
use words::command::OnRows;

// Answers a command.
pub fn on_rows(terminal: &mut Terminal, asked: OnRows, line: &[u8], kept: &mut Kept) {
    let img = kept.img.lent();
    let good = &mut kept.good;
    let faulty = &mut kept.faulty;
    let answer = match asked {
        OnRows::Lend { good: g, faulty: f } => return lend_rows(terminal, g, f, good, faulty),
        OnRows::PutGood { from } => return put_row(terminal, tail(line, from), good),
        OnRows::PutFaulty { from } => return put_row(terminal, tail(line, from), faulty),
        OnRows::ShowGood { start } => {
            let part = show(good.lent(), faulty.lent(), false, start as usize);
            return terminal.write_hex(b"row ", part);
        }
        OnRows::ShowFaulty { start } => {
            let part = show(good.lent(), faulty.lent(), true, start as usize);
            return terminal.write_hex(b"row ", part);
        }
        OnRows::Rows { pattern, fault } => rows_answer(
            img,
            pattern,
            fault,
            good.lent_mut(),
            faulty.lent_mut(),
        ),
        OnRows::Refresh { line, pattern } => {
            refresh_answer(img, pattern, line as usize, good.lent_mut())
        }
        OnRows::Five {
            named,
            values,
            fault,
        } => five_answer(img, named, values, fault, good.lent_mut()),
    };
    terminal.write(answer.as_slice());
}
