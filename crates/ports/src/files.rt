// Files by name. A name that is no UTF-8 text names no file.
ghost use Rattle.std.specs.Prelude.{◌<◌, length, IfSome};

use std::fs::File;
use std::io::Read;
use std::{fs, str};

// Reads an open file to its end, and gives how many bytes came: none where a read fails or the buffer is full before the end is seen.
fn read_all(file: &mut File, room: &mut [u8]) -> Option<usize>
    ensures { IfSome result (λ n. n < length room.old) }
{
    let mut n = 0;
    // No `for`: each read says how much came.
    while n < room.len() {
        match file.read(&mut room[n..]) {
            Ok(0) => return Some(n),
            Ok(more) => n += more,
            Err(_) => return None,
        }
    }
    None
}

// Reads a file, and gives how many bytes came: none where it can't be read, or fills the buffer.
pub fn read_file(rt: &HostRuntime, path: &[u8], room: &mut [u8]) -> Option<usize>
    ensures { IfSome result (λ n. n < length room.old) }
{
    let name = str::from_utf8(path).ok()?;
    let mut file = fs::open(rt, name).ok()?;
    read_all(&mut file, room)
}

// Writes bytes to a file: nothing is given where not all were written.
pub fn write_file(rt: &HostRuntime, path: &[u8], bytes: &[u8]) -> Option<()> {
    let name = str::from_utf8(path).ok()?;
    fs::write(rt, name, bytes).ok()
}
