// The image of what is read, made in a room for the largest board.
ghost use Rattle.std.specs.Prelude.{◌≡◌, ◌∷◌, ◌++◌, ◌+◌, ◌*◌, ◌≤◌, ◌<◌, length, take};
ghost use Rattle.board.specs.Limits.{most_lines, most_outputs};
ghost use Rattle.text.specs.Text.{each};
ghost use Rattle.drawing.specs.Image.{word_bytes, trailer_bytes};
ghost use Rattle.drawing.specs.Inner.{Small};

use image::limits::{MOST_LINES, MOST_OUTPUTS};
use text::put::put;

// The longest image without a note, and its outputs.
pub const IMAGE: usize = 12 + 2 * MOST_OUTPUTS + 10 * MOST_LINES;

pub const OUTPUTS: usize = 2 * MOST_OUTPUTS;

// What is read of a board: the records in front of an image, and the outputs beside them until all lines are read.
#[derive(Drop)]
pub struct Stored {
    pub records: [u8; IMAGE],
    pub outputs: [u8; OUTPUTS],
}

// Puts a number in two bytes behind the first `at` of a buffer, which is one of `Stored`'s two arrays, and gives where they end.
fn put_word(value: usize, out: &mut [u8], at: usize) -> usize
    requires { (value < 65536) × (at + 2 ≤ length out.old) }
    ensures { (result ≡ at + 2) × (take result out.new ≡ take at out.old ++ word_bytes value) }
{
    put(&(value as u16).to_le_bytes(), out, at)
}

// Puts a record in a buffer as that of `put_word`. Kind, count and pins come apart: what is read is no record yet.
fn put_record(kind: usize, count: usize, pins: [usize; 4], out: &mut [u8], at: usize) -> usize
    requires { (kind < 256) × (count < 256) × Small pins × (at + 10 ≤ length out.old) }
    ensures { (result ≡ at + 10) × (take result out.new ≡ take at out.old ++ (kind ∷ count ∷ each word_bytes pins)) }
{
    let mut end = put(&[kind as u8, count as u8], out, at);
    for pin in pins {
        end = put_word(pin, out, end);
    }
    end
}

// Puts the trailer in a buffer as that of `put_word`.
fn put_trailer(lines: usize, outputs: usize, out: &mut [u8], at: usize) -> usize
    requires { (lines ≤ most_lines) × (outputs ≤ most_outputs) × (at + 12 ≤ length out.old) }
    ensures { (result ≡ at + 12) × (take result out.new ≡ take at out.old ++ trailer_bytes lines outputs) }
{
    let distance = 12 + 2 * outputs + 10 * lines;
    let a = put_word(lines, out, at);
    let b = put_word(outputs, out, a);
    let c = put_word(distance % 65536, out, b);
    let d = put_word(distance / 65536, out, c);
    put(b"BRD1", out, d)
}

impl Stored {
    // Nothing read.
    pub fn blank() -> Stored {
        let records = [0u8; IMAGE];
        let outputs = [0u8; OUTPUTS];
        Stored { records, outputs }
    }

    // Keeps the record of a line, where it has room.
    pub fn keep_record(&mut self, kind: usize, count: usize, pins: [usize; 4], line: usize)
        requires { (kind < 256) × (count < 256) × Small pins }
        ensures { (self.new.outputs ≡ self.old.outputs) × (line < most_lines → take (10 * line + 10) self.new.records ≡ take (10 * line) self.old.records ++ (kind ∷ count ∷ each word_bytes pins)) }
    {
        if line < MOST_LINES {
            put_record(kind, count, pins, &mut self.records, 10 * line);
        }
    }

    // Keeps an output, where it has room.
    pub fn keep_output(&mut self, line: usize, place: usize)
        requires { line < 65536 }
        ensures { (self.new.records ≡ self.old.records) × (place < most_outputs → take (2 * place + 2) self.new.outputs ≡ take (2 * place) self.old.outputs ++ word_bytes line) }
    {
        if place < MOST_OUTPUTS {
            put_word(line, &mut self.outputs, 2 * place);
        }
    }

    // Puts the outputs and the trailer behind so many records, which makes the image.
    pub fn finish(&mut self, lines: usize, outputs: usize) -> &[u8]
        requires { (lines ≤ most_lines) × (outputs ≤ most_outputs) }
        ensures { result.now ≡ take (10 * lines) self.old.records ++ take (2 * outputs) self.old.outputs ++ trailer_bytes lines outputs }
    {
        // A copy of the outputs lies apart from the records for the compiler too: of two parts of one value it asks the C library to move bytes that may overlap.
        let kept = self.outputs;
        let at = put(&kept[..2 * outputs], &mut self.records, 10 * lines);
        let end = put_trailer(lines, outputs, &mut self.records, at);
        &self.records[..end]
    }
}
