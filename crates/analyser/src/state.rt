// What an analyser in service holds.
ghost use Rattle.std.specs.Prelude.{Bool, List};

use lock::{Boards, MAX_BOARDS};
use panel::Panel;
use service::Record;
use std::marker::Model;

// The boards that stand ahead of one (place j - 1 stands for board j). The clauses see the marks.
#[derive(Clone, Copy)]
pub struct Ahead {
    pub(crate) marks: [bool; MAX_BOARDS],
}

impl Model for Ahead {
    ghost Value = { List Bool };

    ghost view = { λ ahead. ahead.marks };

    ghost inverse = { λ marks. record { marks = marks } };
}

// A record, and the set of boards ahead, for each board that there can be (place b - 1 is board b's). The two stand apart, since a
// call changes one record alone, while a board that is struck off leaves every set; and a record is lent to be changed in place,
// which a `Table` does not do.
#[derive(Clone, Copy)]
pub struct Desk {
    pub(crate) records: [Record; MAX_BOARDS],
    pub(crate) sets: [Ahead; MAX_BOARDS],
}

// N boards that take turns, by an ordered lock Q, at one interpolator I, and the panel that shows their numbers.
#[derive(Drop)]
pub struct Analyser<Q, I> {
    pub(crate) boards: Boards,
    pub(crate) lock: Q,
    pub(crate) interpolator: I,
    pub(crate) desk: Desk,
    pub(crate) panel: Panel,
}
