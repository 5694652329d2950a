// The lock that goes by one thing of a backplane: S is as boards take the thing, and E is 1.
ghost use Rattle.backplane.specs.Rule.{Held, after, fresh, shown};
ghost use Rattle.backplane.specs.Keeps.{begins, calls_move, enters_within, exclusive, out_within};

use crate::plane::Backplane;
use crate::taking::Taking;
use lock::{Boards, Call, Lock, Refusal, Station};
use std::marker::PhantomData;

// A backplane on which the board inside has the thing. One lock is one thing: it is neither copied nor cloned.
#[derive(Drop)]
pub struct HeldLock<T> {
    plane: Backplane,
    taking: PhantomData<T>,
    ghost held: { Held plane },
}

impl<T: Taking> Lock for HeldLock<T> {
    type State = Backplane;

    ghost state = { λ l. l.plane };

    ghost fresh = { fresh };

    ghost after = { after T.tries T.enters };

    ghost stations = { shown };

    ghost alone = { λ n. T.alone };

    ghost settle = { λ n. 1 };

    ghost begins = { begins T.sound };

    ghost moves = { calls_move T.sound };

    ghost excludes = { exclusive T.sound };

    ghost enters = { enters_within T.sound };

    ghost settles = { out_within T.sound };

    fn new(boards: Boards) -> HeldLock<T> {
        HeldLock {
            plane: Backplane::new(boards),
            taking: PhantomData,
        }
    }

    fn station(&self, board: u8) -> Result<Station, Refusal> {
        self.plane.station(board)
    }

    #[inline(always)]
    fn perform(&mut self, call: Call) -> Result<(), Refusal> {
        self.plane.perform::<T>(call)
    }
}
