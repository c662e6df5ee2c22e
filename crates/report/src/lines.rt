// The line of what a call says.
ghost use Rattle.std.specs.Prelude.{◌≡◌, ◌+◌, ◌≤◌, length};
ghost use Rattle.image.specs.Promise.{numbers as numbers_of, unpacked};
ghost use Rattle.text.specs.Text.{line_room};
ghost use Rattle.text.specs.Made.{made};
ghost use Rattle.report.specs.Lines.{refused_text, line_of, judged_line, found_line, counted_line};

use image::Refusal;
use image::said::{Numbers, refused};
use text::line::Line;

// A refusal's one line: refused 1, refused 5 at 0, or refused 4 at 2.3. It is made of the numbers that C gets, by how many values stand there.
fn refused_line(n: Numbers) -> Line
    ensures { made result ≡ refused_text (unpacked n) }
{
    match n.values {
        0 => Line::of(b"refused #\n", &[n.number]),
        1 => Line::of(b"refused # at #\n", &[n.number, n.first]),
        _ => Line::of(b"refused # at #.#\n", &[n.number, n.first, n.second]),
    }
}

// The line of a refusal.
pub fn refusal_line(r: Refusal) -> Line
    ensures { made result ≡ refused_text (numbers_of r) }
{
    refused_line(refused(r))
}

// A refusal's line, or the form with the values beside 0.
pub fn answer_line(n: Numbers, form: &[u8]) -> Line
    requires { length form.now + 60 ≤ line_room }
    ensures { made result ≡ line_of form.now (unpacked n) }
{
    if n.number != 0 {
        return refused_line(n);
    }
    let values = [n.first, n.second, n.third];
    let said = n.values.min(3) as usize;
    Line::of(form, &values[..said])
}

// Judge's: yes or no.
pub fn judged_line(n: Numbers) -> Line
    ensures { made result ≡ judged_line (unpacked n) }
{
    if (0 < n.values) & (n.first == 1) {
        return answer_line(n, b"yes\n");
    }
    answer_line(n, b"no\n")
}

// Find's: the pattern, or none.
pub fn found_line(n: Numbers) -> Line
    ensures { made result ≡ found_line (unpacked n) }
{
    if n.values == 0 {
        return answer_line(n, b"none\n");
    }
    answer_line(n, b"#\n")
}

// Book's and Alter's, for a book of that length: found 2 of 6.
pub fn counted_line(n: Numbers, all: usize) -> Line
    ensures { made result ≡ counted_line all (unpacked n) }
{
    if n.number != 0 {
        return refused_line(n);
    }
    let found = if n.values == 0 { 0 } else { n.first };
    Line::of(b"found # of #\n", &[found, all as u64])
}
