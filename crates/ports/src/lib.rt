// The console's ways in and out: lines from standard input, answers on standard output, and files by name.

#![tactic(auto)]

pub mod files;
pub mod input;
mod write;

ghost use Rattle.std.specs.Prelude.{IsOk};

use std::io;

// The console's way in and out, and how writing its answers went: where a write failed nothing more is written, and the console ends.
#[derive(Drop)]
pub struct Terminal {
    pub rt: HostRuntime,
    pub written: io::Result<()>,
}

impl Terminal {
    // The way of a console that has not written anything yet.
    pub fn new(rt: HostRuntime) -> Terminal
        ensures { IsOk result.written }
    {
        Terminal {
            rt,
            written: Ok(()),
        }
    }
}
