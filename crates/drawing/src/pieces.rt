// The pieces of the form between its numbers.
ghost use Rattle.std.specs.Prelude.{◌≡◌, [], ◌+◌, ◌≤◌, ◌<◌, length, get_or};
ghost use Rattle.board.specs.Limits.{last_kind};
ghost use Rattle.drawing.specs.Inner.{piece_forms, pins_to, Run};

// An input, and what stands before an output and before a gate; # is the number of the next input or gate.
pub const INPUT: &[u8] = b"INPUT(n#)\n";

pub const OUTPUT: &[u8] = b"OUTPUT(n";

pub const GATE: &[u8] = b"n# = ";

// How statements begin, by section.
const STATEMENTS: [&[u8]; 3] = [INPUT, OUTPUT, GATE];

// What stands behind the last number, and between two pins.
pub const CLOSE: &[u8] = b")\n";

pub const NEXT_PIN: &[u8] = b", n";

// What stands behind a pin.
const BEHIND_PIN: [&[u8]; 2] = [CLOSE, NEXT_PIN];

// The gate words by kind, from 1 on, as records number the kinds; from that of the first tie on a word ends its statement.
pub const WORDS: [&[u8]; 10] = [
    b"BUFF(n",
    b"NOT(n",
    b"AND(n",
    b"NAND(n",
    b"OR(n",
    b"NOR(n",
    b"XOR(n",
    b"XNOR(n",
    b"TIE0()\n",
    b"TIE1()\n",
];

// A number, as kinds are in a record: a word's place in WORDS is compared with it.
pub const FIRST_TIE: usize = 9;

// How the statements of a section and of later ones begin: a section is a place in this table.
pub fn statements_from(section: usize) -> &'static [&'static [u8]]
    requires { section < 3 }
    ensures { Run section 3 result.now }
{
    &STATEMENTS[section..]
}

// What may stand behind one of up to so many pins: another one where it has room.
pub fn behind_pin(left: usize) -> &'static [&'static [u8]]
    requires { 0 < left }
    ensures { Run 3 (pins_to left) result.now }
{
    &BEHIND_PIN[..left.min(2)]
}

// The word of a kind, which is a place in the table of words, counted from 1.
pub fn word_of(kind: usize) -> &'static [u8]
    requires { (1 ≤ kind) × (kind ≤ last_kind) }
    ensures { (result.now ≡ get_or piece_forms (4 + kind) []) × (length result.now ≤ 12) }
{
    WORDS[kind - 1]
}
