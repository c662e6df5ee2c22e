// What uses nothing that is kept: the list of commands, and why a line can't be read.
use ports::Terminal;
use words::command::Why;

// help: the commands, on one line.
pub fn write_help(terminal: &mut Terminal) {
    terminal.write(
        b"load HEX, open PATH, import PATH, save PATH, export PATH, image, lend rows G F, lend book N, put good HEX, put faulty HEX, put entry K NUMBER, lend pins N, put pin K NUMBER, check, rows PATTERN FAULT, judge PATTERN FAULT, find FAULT, book, pin book, alter LINE HEX, refresh LINE PATTERN, five NAMED VALUES FAULT, show good FROM, show faulty FROM, entries, pin entries, lend target N, target, read HEX, write, help; FAULT is LINE/STUCK or LINE.PIN/STUCK\n",
    );
}

// Why a line is no command.
pub fn write_reason(terminal: &mut Terminal, why: Why) {
    match why {
        Why::Empty => terminal.write(b"? empty line\n"),
        Why::Unknown => terminal.write(b"? no such command\n"),
        Why::Words => terminal.write(b"? too few or too many words\n"),
        Why::Number => terminal.write(b"? not a number of 64 bits\n"),
        Why::Fault => terminal.write(b"? not a fault, as 4/0 or 4.0/1\n"),
        Why::Hex => terminal.write(b"? not HEX\n"),
        Why::Path => terminal.write(b"? not a path\n"),
    }
}
