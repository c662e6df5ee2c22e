// A board's records decoded once, one gate a line.
ghost use Rattle.std.specs.Prelude.{◌≡◌, [], ℕ, ◌+◌, ◌≤◌, ◌<◌, length, set};
ghost use Rattle.image.specs.Image.{line_count, output_count, board_of};
ghost use Rattle.image.specs.Refusals.{Accepted as IsAccepted};
ghost use Rattle.lanes.specs.Inner.{Flat, Decoded, gate_at, read_by, as_output};

use image::accepted::Accepted;
use image::numbers::{byte, word};
use image::outputs::output;
use image::trailer::record_place;

// A line's record, its kind and count as the image has them: its kind, how many pins it has, the lines on them, whether it is an output, and a line above which none reads it.
#[derive(Clone, Copy)]
pub struct Gate {
    pub kind: u16,
    pub count: u16,
    pub pins: [u16; 4],
    pub is_output: bool,
    pub last_reader: u16,
}

// What stands where no line is decoded yet.
pub const BLANK: Gate = Gate {
    kind: 1,
    count: 1,
    pins: [1; 4],
    is_output: true,
    last_reader: 1,
};

// A number of 16 bits.
fn short(n: usize) -> u16
    requires { n < 65536 }
    ensures { result ≡ n }
{
    n as u16
}

// Notes a line as the last that reads another.
fn note_reader(line: usize, p: usize, flat: &mut [Gate])
    requires { (line < 65536) × (p < length flat.old) }
    ensures { flat.new ≡ set flat.old p (read_by (gate_at flat.old p) line) }
{
    flat[p].last_reader = short(line);
}

// Marks a line as an output.
fn mark_output(line: usize, flat: &mut [Gate])
    requires { line < length flat.old }
    ensures { flat.new ≡ set flat.old line (as_output (gate_at flat.old line)) }
{
    flat[line].is_output = true;
}

// Decodes a line's record, where the lines below it are decoded, and notes the line as the last that reads each of its pins' lines. It needs no counts, so it takes the image alone.
fn decode_line(img: &[u8], line: usize, flat: &mut [Gate])
    requires { IsAccepted img.now × (line < line_count img.now) × Decoded (board_of img.now) line [] flat.old }
    ensures { Decoded (board_of img.now) (line + 1) [] flat.new }
{
    let at = record_place(img, line);
    let count = byte(img, at + 1);
    let mut pins = [0; 4];
    for j in 0..count {
        let p = word(img, at + 2 + 2 * j);
        note_reader(line, p, flat);
        pins[j] = short(p);
    }
    flat[line] = Gate {
        kind: short(byte(img, at)),
        count: short(count),
        pins,
        is_output: false,
        last_reader: 0,
    };
}

// Marks the lines that are outputs, where every line is decoded. It takes the one count that it needs.
fn mark_outputs(img: &[u8], outputs: usize, flat: &mut [Gate])
    requires { IsAccepted img.now × (outputs ≡ output_count img.now) × Decoded (board_of img.now) (line_count img.now) [] flat.old }
    ensures { Decoded (board_of img.now) (line_count img.now) (board_of img.now).outs flat.new }
{
    for j in 0..outputs {
        mark_output(output(img, j), flat);
    }
}

// Decodes an accepted image's records.
pub fn decode(board: Accepted, flat: &mut [Gate])
    requires { line_count board.img.now ≤ length flat.old }
    ensures { Flat (board_of board.entry.img.now) flat.new }
{
    for i in 0..board.counts.lines {
        decode_line(board.img, i, flat);
    }
    mark_outputs(board.img, board.counts.outputs, flat);
}
