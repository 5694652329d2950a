// One call on three boards, and what it did.
use line::Line;
use lock::{Call, Refusal, Station};

// The call, its answer, and after it the flags of boards 1 to 3 and the station of the board that it names.
#[derive(Clone, Copy)]
pub struct Row {
    pub call: Call,
    pub answer: Result<(), Refusal>,
    pub flags: [Line; 3],
    pub station: Result<Station, Refusal>,
}
