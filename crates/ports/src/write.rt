// Answers on standard output. A long one is written in pieces.
use crate::Terminal;
use image::limits::Entry;
use std::io::Write;
use text::hex::hex_text;
use text::numbers::numbers_text;

// Bytes and numbers that are made into one piece.
const MOST_BYTES: usize = 2048;

const MOST_NUMBERS: usize = 128;

// Room for a piece.
const PIECE: usize = 4096;

impl Terminal {
    // Writes bytes as they stand, unless a write failed before.
    pub fn write(&mut self, bytes: &[u8]) {
        if self.written.is_ok() {
            self.written = self.rt.stdout().write_all(bytes);
        }
    }

    // Writes a word, a space and bytes as HEX, - for none.
    pub fn write_hex(&mut self, word: &[u8], bytes: &[u8]) {
        self.write(word);
        if bytes.is_empty() {
            self.write(b"-");
        }
        self.write_digits(bytes);
        self.write(b"\n");
    }

    // Writes the digits of bytes. The numbers have a loop of their own: one for both would take a closure, with clauses for its buffer, and be longer.
    fn write_digits(&mut self, bytes: &[u8]) {
        for piece in bytes.chunks(MOST_BYTES) {
            let mut out = [0u8; PIECE];
            let n = hex_text(piece, &mut out);
            self.write(&out[..n]);
        }
    }

    // Writes a word, and the numbers of a book, each behind a space.
    pub fn write_entries(&mut self, word: &[u8], book: &[Entry]) {
        self.write(word);
        self.write_numbers(book);
        self.write(b"\n");
    }

    // Writes numbers, each behind a space.
    fn write_numbers(&mut self, numbers: &[Entry]) {
        for piece in numbers.chunks(MOST_NUMBERS) {
            let mut out = [0u8; PIECE];
            let n = numbers_text(piece, &mut out);
            self.write(&out[..n]);
        }
    }
}
