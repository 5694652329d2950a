// The table of an analyser: the boards' records, and the sets ahead.
ghost use Rattle.std.specs.Prelude.{◌≡◌, map, replicate};
ghost use Rattle.lock.specs.Most.{most};
ghost use Rattle.service.specs.History.{bits};
ghost use Rattle.service.specs.Records.{blank, waits};
ghost use Rattle.service.specs.Rule.{marked};
ghost use Rattle.analyser.specs.Desks.{none, noted, struck};

use crate::state::{Ahead, Desk};
use lock::{Boards, MAX_BOARDS, Seat};
use service::{Progress, Record, Standing};

impl Ahead {
    // Nobody.
    fn none() -> Ahead
        ensures { result ≡ none }
    {
        Ahead {
            marks: [false; MAX_BOARDS],
        }
    }

    // The same boards without one.
    fn without(self, seat: Seat) -> Ahead
        ensures { result ≡ struck seat.board self }
    {
        let mut marks = self.marks;
        marks[seat.place()] = false;
        Ahead { marks }
    }

    // The set as a number: bit j - 1 stands for board j.
    pub(crate) fn number(self, boards: Boards) -> u32
        ensures { result ≡ bits (marked self) boards.count }
    {
        let mut number = 0;
        for (j, mark) in self.marks[..usize::from(boards.count())].iter().enumerate() {
            if *mark {
                number += 1 << j;
            }
        }
        number
    }
}

impl Desk {
    // All boards are out, and nobody stands ahead of anybody.
    pub(crate) fn new() -> Desk
        ensures { result ≡ record { records = replicate most blank; sets = replicate most none } }
    {
        Desk {
            records: [Record::new(); MAX_BOARDS],
            sets: [Ahead::none(); MAX_BOARDS],
        }
    }

    // The boards that are waiting now.
    pub(crate) fn waiting(self) -> Ahead
        ensures { result ≡ map waits self.records }
    {
        Ahead {
            marks: self.records.map(|record| record.waits()),
        }
    }

    // A board stands ahead of nobody any more.
    pub(crate) fn strike(&mut self, seat: Seat)
        ensures { self.new ≡ record { records = self.old.records; sets = map (struck seat.board) self.old.sets } }
    {
        for ahead in self.sets.iter_mut() {
            *ahead = ahead.without(seat);
        }
    }

    // What a board's step has come to is noted.
    #[inline(always)]
    pub(crate) fn note(&mut self, seat: Seat, progress: Progress)
        ensures { self.new ≡ noted self.old seat.board progress }
    {
        match progress {
            Progress::Passed => self.records[seat.place()].go(Standing::Waiting),
            Progress::Entered => {
                self.records[seat.place()].enter();
                // at once, and not only when it leaves
                self.strike(seat);
            }
            Progress::CameOut => self.records[seat.place()].go(Standing::Out),
            _ => {}
        }
    }
}
