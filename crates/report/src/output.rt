// What goes out: to standard output, or to standard error.
ghost use Rattle.std.specs.Prelude.{◌≤◌, length, take, OnOk};
ghost use Rattle.std.specs.Io.KnownBytes.{Appends};
ghost use Rattle.image.specs.Promise.{numbers as numbers_of};
ghost use Rattle.report.specs.Lines.{refused_text};

use crate::lines::refusal_line;
use image::Refusal;
use std::io;
use std::io::Write;

// Writes a refusal's one line.
pub fn write_refusal<W: Write>(to: &mut W, r: Refusal) -> io::Result<()>
    ensures { OnOk result (Appends (W.contents to.old) (W.contents to.new) (refused_text (numbers_of r))) }
{
    to.write_all(refusal_line(r).as_slice())
}
