// Lines from standard input. What comes is answered at once: one read at a time, and no more than what is there.
ghost use Rattle.std.specs.Prelude.{◌≡◌, ◌≤◌, ◌<◌, length, unwrap_or, IfSome};
ghost use Rattle.ports.specs.Input.{roomy};

use crate::Terminal;
use spans::find;
use std::io::Read;

// How much is read before it is brought down: a line, and what came with it.
pub const ROOMY: usize = 262144;

// A line of this many bytes is too long.
const TOO_LONG: usize = 200000;

// What is read and not yet answered, up to the end. Its line begins at the start, and holds no line feed before what is seen; one that was
// too long has no start any more.
#[derive(Clone, Copy)]
pub struct Place {
    start: Option<usize>,
    seen: usize,
    end: usize,
    ghost begun: { unwrap_or start 0 ≤ seen },
    ghost scanned: { seen ≤ end },
    ghost within: { end ≤ roomy },
}

// A line in the buffer, and the next place unless the input ends with it.
#[derive(Clone, Copy)]
struct Heard {
    from: usize,
    to: usize,
    next: Option<Place>,
    ghost begins: { from ≤ to },
    ghost ends: { to ≤ roomy },
}

// What a step finds: a line, one that is too long, neither yet, or the end of the input.
#[derive(Clone, Copy)]
enum Step {
    Line(Heard),
    Long(Place),
    More(Place),
    End,
}

// The buffer that lines are read into, and the place there, which is none after the end of the input.
#[derive(Drop)]
pub struct Input {
    pub buf: [u8; ROOMY],
    pub at: Option<Place>,
}

impl Input {
    // The next line: none where the input ends or a write fails. Of one that is too long this is answered, and it is passed over.
    pub fn listen(&mut self, terminal: &mut Terminal) -> Option<&[u8]>
        ensures { IfSome result (λ line. length line.now ≤ roomy) }
    {
        for _ in 0..u64::MAX {
            match self.at?.step(&terminal.rt, &mut self.buf) {
                Step::Line(heard) => {
                    self.at = heard.next;
                    return Some(&self.buf[heard.from..heard.to]);
                }
                Step::Long(next) => {
                    self.at = Some(next);
                    terminal.write(b"? line too long\n");
                    if terminal.written.is_err() {
                        return None;
                    }
                }
                Step::More(next) => self.at = Some(next),
                Step::End => return None,
            }
        }
        None
    }
}

impl Place {
    // The place before anything is read.
    pub fn first() -> Place {
        Place {
            start: Some(0),
            seen: 0,
            end: 0,
        }
    }

    // What the line is that ends with the line feed at k.
    fn ended(self, k: usize) -> Step
        requires { (self.seen ≤ k) × (k < self.end) }
    {
        let next = Place {
            start: Some(k + 1),
            seen: k + 1,
            end: self.end,
        };
        match self.start {
            None => Step::More(next),
            Some(from) if TOO_LONG <= k - from => Step::Long(next),
            Some(from) => Step::Line(Heard {
                from,
                to: k,
                next: Some(next),
            }),
        }
    }

    // Looks for the end of a line in what is read, and reads on where there is none.
    fn step(self, rt: &HostRuntime, buf: &mut [u8; ROOMY]) -> Step {
        let k = find(buf, self.seen, self.end, b'\n');
        if k < self.end {
            return self.ended(k);
        }
        let Some(start) = self.start else {
            return read_on(rt, buf, None, self.end);
        };
        if TOO_LONG <= self.end - start {
            return Step::Long(Place {
                start: None,
                seen: self.end,
                end: self.end,
            });
        }
        read_on(rt, buf, Some(start), self.end)
    }
}

// Reads on behind the bytes from start to end, or behind the end alone where there is no start. A read that fails is an end of the input.
fn read_behind(rt: &HostRuntime, buf: &mut [u8; ROOMY], start: Option<usize>, end: usize) -> Step
    requires { (unwrap_or start 0 ≤ end) × (end ≤ roomy) }
{
    let n = rt.stdin().read(&mut buf[end..]).unwrap_or(0);
    if 0 < n {
        return Step::More(Place {
            start,
            seen: end,
            end: end + n,
        });
    }
    match start {
        Some(from) if from < end => Step::Line(Heard {
            from,
            to: end,
            next: None,
        }),
        _ => Step::End,
    }
}

// The same, after bringing them to the front where the buffer is full.
fn read_on(rt: &HostRuntime, buf: &mut [u8; ROOMY], start: Option<usize>, end: usize) -> Step
    requires { (unwrap_or start 0 ≤ end) × (end ≤ roomy) }
{
    if end < buf.len() {
        return read_behind(rt, buf, start, end);
    }
    match start {
        None => read_behind(rt, buf, None, 0),
        Some(from) => {
            buf.copy_within(from..end, 0);
            read_behind(rt, buf, Some(0), end - from)
        }
    }
}
