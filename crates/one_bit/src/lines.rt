// The flags of the boards, and where each board is in the rule.
use line::Line;
use lock::Table;

// Where a board is in the rule: what its next step does.
#[derive(Clone, Copy, PartialEq, Eq, Debug)]
pub enum Place {
    // nothing
    Out,
    // raises its flag
    Raising,
    // reads the flag of this board
    Reading(u8),
    // lowers its flag, since the flag of this board was high
    Lowering(u8),
    // reads the flag of this board, until it is low
    Awaiting(u8),
    // nothing
    Inside,
    // lowers its flag, and is out
    Leaving,
}

// A board: its flag and its place.
#[derive(Clone, Copy)]
pub struct Board {
    pub(crate) flag: Line,
    pub(crate) place: Place,
}

// All the boards.
#[derive(Clone, Copy)]
pub struct Lines {
    pub(crate) table: Table<Board>,
}
