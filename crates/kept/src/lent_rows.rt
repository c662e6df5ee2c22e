// The two rows.
ghost use Rattle.std.specs.Prelude.{◌⊎◌, ◌≤◌, ◌<◌};
ghost use Rattle.kept.specs.Kept.{most_row, fresh_byte, Lends, Stays, PutRowLeaves};

use crate::lent::Lent;
use crate::word::put_word;
use crate::{FRESH_BYTE, MOST_ROW};
use ports::Terminal;

// lend rows: two fresh rows of these lengths, where the arrays have room for both.
pub fn lend_rows(
    terminal: &mut Terminal,
    g: u64,
    f: u64,
    good: &mut Lent<u8, MOST_ROW>,
    faulty: &mut Lent<u8, MOST_ROW>,
)
    ensures lends { g ≤ most_row → f ≤ most_row → Lends fresh_byte g good.old.room good.new.len good.new.room × Lends fresh_byte f faulty.old.room faulty.new.len faulty.new.room }
    ensures refuses { (most_row < g) ⊎ (most_row < f) → Stays good.old.len good.old.room good.new.len good.new.room × Stays faulty.old.len faulty.old.room faulty.new.len faulty.new.room }
{
    let good_end = g as usize;
    let faulty_end = f as usize;
    if MOST_ROW < good_end || MOST_ROW < faulty_end {
        terminal.write(b"? too many\n");
        return;
    }
    good.lend(good_end, FRESH_BYTE);
    faulty.lend(faulty_end, FRESH_BYTE);
    terminal.write(b"lent\n");
}

// put good and put faulty: a row becomes a HEX word's bytes, where the array has room for them.
pub fn put_row(terminal: &mut Terminal, word: &[u8], row: &mut Lent<u8, MOST_ROW>)
    ensures { PutRowLeaves word.now row.old.len row.old.room row.new.len row.new.room }
{
    let room = &mut row.room;
    if let Some(n) = put_word(terminal, word, room) {
        row.len = n;
        terminal.write(b"lent\n");
    }
}
