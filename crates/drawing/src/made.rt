// The buffer that a statement is made in.
ghost use Rattle.std.specs.Prelude.{◌≤◌};
ghost use Rattle.drawing.specs.Statements.{statement_room};

// The room for a statement.
pub const ROOM: usize = 288;

// A statement as far as it is made: so many bytes in front.
#[derive(Drop)]
pub struct StatementText {
    pub bytes: [u8; ROOM],
    pub length: usize,
    ghost within: { length ≤ statement_room },
}
