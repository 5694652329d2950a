// The lines and the phase of each board, above a lock.
use line::Line;
use lock::{Call, MAX_BOARDS, Table};

// Where a board is in the rule: what its next step does.
#[derive(Clone, Copy, PartialEq, Eq, Debug)]
pub enum Phase {
    // nothing
    Out,
    // reads this board's z line for it, to judge the pair
    Pairing(u8),
    // changes its own z line for this board
    Turning(u8),
    // reads this board's y, to note it if high
    Noting(u8),
    // raises its y
    Raising,
    // reads the lowest noted board's y; with none noted, starts in the lock below
    Watching,
    // reads the lowest noted board's z line for it, to judge the pair
    Comparing,
    // steps in the lock below
    Below,
    // leaves the lock below, then lowers its y, and is out
    Leaving,
}

// A board: its line y, its phase, and which boards it has noted (place j - 1 stands for board j).
#[derive(Clone, Copy)]
pub struct Door {
    pub(crate) y: Line,
    pub(crate) phase: Phase,
    pub(crate) notes: [bool; MAX_BOARDS],
}

// The z lines of one board, one for each other board (place j - 1 stands for board j).
#[derive(Clone, Copy)]
pub struct Row {
    pub(crate) z: [Line; MAX_BOARDS],
}

// The boards and their rows of z lines, above a lock, or above the state of one.
#[derive(Drop)]
pub struct Queue<L> {
    pub(crate) doors: Table<Door>,
    // apart from the doors, since the z lines are an array of row structs, read and written back by value, as the rule states them
    pub(crate) rows: Table<Row>,
    pub(crate) below: L,
}

// What a call makes of its board and of its row, and the call that it makes in the lock below.
#[derive(Clone, Copy)]
pub struct Next {
    pub(crate) door: Door,
    pub(crate) row: Row,
    pub(crate) call: Option<Call>,
}
