// The statements of a drawing: each made by itself, measured, and put into a target.
ghost use Rattle.std.specs.Prelude.{◌≡◌, [], ◌∷◌, ◌++◌, ◌+◌, ◌*◌, ◌≤◌, ◌<◌, length, take, drop};
ghost use Rattle.board.specs.Board.{record_of};
ghost use Rattle.image.specs.Bytes.{word_at};
ghost use Rattle.image.specs.Image.{record_place, board_of};
ghost use Rattle.image.specs.Refusals.{Accepted as IsAccepted};
ghost use Rattle.text.specs.Text.{decimal, spelled};
ghost use Rattle.drawing.specs.Made.{made};
ghost use Rattle.drawing.specs.Form.{output_text, gate_text, text_of};
ghost use Rattle.drawing.specs.Calls.{in_front};
ghost use Rattle.drawing.specs.Inner.{piece_room};
ghost use Rattle.drawing.specs.Statements.{statement_of, statement_count, statement_room, GateOf};

use crate::made::{ROOM, StatementText};
use crate::pieces::{CLOSE, GATE, INPUT, NEXT_PIN, OUTPUT, word_of};
use image::accepted::Accepted;
use image::numbers::{byte, word};
use image::outputs::output;
use image::pins::pin_count;
use image::trailer::record_place;
use spans::copy;
use text::form::spell;
use text::put::put_number;

// The room that a piece gets.
const PIECE: usize = 32;

impl StatementText {
    // Nothing yet.
    fn blank() -> StatementText
        ensures { (made result ≡ []) × (result.length ≡ 0) }
    {
        let bytes = [0u8; ROOM];
        StatementText { bytes, length: 0 }
    }

    // Adds a piece.
    fn add_piece(&mut self, form: &[u8], k: usize)
        requires { (length form.now ≤ 12) × (self.old.length + piece_room ≤ statement_room) }
        ensures { (made self.new ≡ made self.old ++ spelled form.now (k ∷ [])) × (self.new.length ≤ self.old.length + piece_room) }
    {
        let at = self.length;
        self.length = at + spell(form, &[k as u64], &mut self.bytes[at..at + PIECE]);
    }

    // Adds a number.
    fn add_number(&mut self, n: usize)
        requires { self.old.length + 20 ≤ statement_room }
        ensures { (made self.new ≡ made self.old ++ decimal n) × (self.new.length ≤ self.old.length + 20) }
    {
        self.length = put_number(n as u64, &mut self.bytes, self.length);
    }
}

// The number on a line's pin.
fn pin_of(img: &[u8], line: usize, pin: usize) -> usize
    requires { (line < 65536) × (pin < 4) }
    ensures { result ≡ word_at img.now (record_place img.now line + 2 + 2 * pin) }
{
    word(img, record_place(img, line) + 2 + 2 * pin)
}

// A gate's statement. It needs no counts, so it takes the image alone.
fn gate(img: &[u8], line: usize) -> StatementText
    requires { IsAccepted img.now × GateOf img.now line }
    ensures { made result ≡ gate_text line (record_of (board_of img.now) line) }
{
    let kind = byte(img, record_place(img, line));
    let pins = pin_count(img, line);
    let mut made = StatementText::blank();
    made.add_piece(GATE, line);
    made.add_piece(word_of(kind), line);
    if pins == 0 {
        return made;
    }
    made.add_number(pin_of(img, line, 0));
    for pin in 1..pins {
        made.add_piece(NEXT_PIN, line);
        made.add_number(pin_of(img, line, pin));
    }
    made.add_piece(CLOSE, line);
    made
}

// The statement of an output.
fn output_statement(line: usize) -> StatementText
    ensures { made result ≡ output_text line }
{
    let mut made = StatementText::blank();
    made.add_piece(OUTPUT, line);
    made.add_number(line);
    made.add_piece(CLOSE, line);
    made
}

// Statement j: inputs, then outputs, then gates.
fn statement(board: Accepted, j: usize) -> StatementText
    requires { j < statement_count board.img.now }
    ensures { made result ≡ statement_of (board_of board.entry.img.now) j }
{
    let counts = board.counts;
    if j < counts.inputs {
        let mut made = StatementText::blank();
        made.add_piece(INPUT, j);
        return made;
    }
    if j < counts.inputs + counts.outputs {
        return output_statement(output(board.img, j - counts.inputs));
    }
    gate(board.img, j - counts.outputs)
}

// How long statement j is.
fn statement_length(board: Accepted, j: usize) -> usize
    requires { j < statement_count board.img.now }
    ensures { (result ≡ length (statement_of (board_of board.entry.img.now) j)) × (result ≤ statement_room) }
{
    statement(board, j).length
}

// Puts statement j behind the first `at` bytes of a target, which keeps its other bytes, and gives where it ends.
fn add_statement(board: Accepted, j: usize, target: &mut [u8], at: usize) -> usize
    requires { (j < statement_count board.img.now) × (at + length (statement_of (board_of board.img.now) j) ≤ length target.old) }
    ensures { let b = board_of board.entry.img.now in (result ≡ at + length (statement_of b j)) × (target.new ≡ take at target.old ++ statement_of b j ++ drop result target.old) }
{
    let made = statement(board, j);
    at + copy(&made.bytes[..made.length], &mut target[at..])
}

// How long the text of an image's board is. That the sum does not overflow is a fact of each step, so it is a loop and no `sum`.
pub fn text_length(board: Accepted) -> usize
    ensures { result ≡ length (text_of (board_of board.entry.img.now)) }
{
    let mut length = 0;
    for j in 0..board.counts.lines + board.counts.outputs {
        length += statement_length(board, j);
    }
    length
}

// Puts the text of an image's board in front of a target, which keeps its other bytes.
pub fn put_text(board: Accepted, target: &mut [u8])
    requires { length (text_of (board_of board.img.now)) ≤ length target.old }
    ensures { target.new ≡ in_front (text_of (board_of board.entry.img.now)) target.old }
{
    let end = board.counts.lines + board.counts.outputs;
    let mut at = 0;
    for j in 0..end {
        at = add_statement(board, j, target, at);
    }
}
