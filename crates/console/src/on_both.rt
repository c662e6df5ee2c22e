// The command that uses the image and both books.
use answers::alter_answer;
use kept::Kept;
use ports::Terminal;
use words::hex::{bytes_of, unpack};

// How many bytes a record has.
const RECORD: usize = 10;

// alter: the HEX word is the record.
pub fn write_alter(terminal: &mut Terminal, word: &[u8], line: u64, kept: &mut Kept) {
    if bytes_of(word) != RECORD {
        terminal.write(b"? a record is 10 bytes\n");
        return;
    }
    let mut record = [0u8; RECORD];
    unpack(word, &mut record);
    let answer = alter_answer(
        kept.img.lent_mut(),
        kept.book.lent_mut(),
        kept.pins.lent_mut(),
        line as usize,
        record,
    );
    terminal.write(answer.as_slice());
}
