// What a HEX word of a command stands for.
ghost use Rattle.kept.specs.Kept.{PutWordLeaves};

use ports::Terminal;
use words::hex::{bytes_of, unpack};

// Puts a HEX word's bytes in front of some room, and gives how many they are; where they are too many, answers so and changes nothing.
pub fn put_word(terminal: &mut Terminal, word: &[u8], room: &mut [u8]) -> Option<usize>
    ensures { PutWordLeaves word.now room.old result room.new }
{
    if room.len() < bytes_of(word) {
        terminal.write(b"? too many bytes\n");
        return None;
    }
    Some(unpack(word, room))
}
