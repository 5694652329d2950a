// The latch lock, an example of a lock that a buyer fits: S is 2 and E is 1.
ghost use Rattle.std.specs.Prelude.{true};
ghost use Rattle.backplane.proofs.Taken.{spares};
ghost use Rattle.backplane.specs.Keeps.{begins, calls_move, enters_within, exclusive, out_within};
ghost use Rattle.backplane.specs.Rule.{fresh, has, shown, taken};
ghost use Rattle.buyer.specs.Keeps.{holds, nears, sound, waits, within};
ghost use Rattle.buyer.specs.Latch.{after, to_enter};

use backplane::{Backplane, HeldLock, Taking};
use lock::{Boards, Call, Lock, Refusal, Station};

// A trying board's step sets a free latch; one that finds its own goes inside, and one that finds another's stays trying.
#[derive(Clone, Copy)]
pub struct Latch;

impl Taking for Latch {
    ghost tries = { taken };

    ghost enters = { has };

    ghost early = { true };

    ghost to_enter = { to_enter };

    ghost alone = { 2 };

    ghost holds = { holds };

    ghost spares = { spares };

    ghost waits = { waits };

    ghost nears = { nears };

    ghost within = { within };

    fn try_to_enter(holder: &mut Option<u8>, board: u8) -> bool {
        match *holder {
            None => {
                *holder = Some(board);
                false
            }
            Some(setter) => setter == board,
        }
    }
}

// A lock of the buyer's own: it gives its rule and shows each point of the meaning of a lock itself, by the lemmas of `backplane`.
// One lock is one thing: it is neither copied nor cloned.
#[derive(Drop)]
pub struct LatchLock {
    lock: HeldLock<Latch>,
}

impl Lock for LatchLock {
    type State = Backplane;

    ghost state = { λ l. l.lock.plane };

    ghost fresh = { fresh };

    ghost after = { after };

    ghost stations = { shown };

    ghost alone = { λ n. 2 };

    ghost settle = { λ n. 1 };

    ghost begins = { begins sound };

    ghost moves = { calls_move sound };

    ghost excludes = { exclusive sound };

    ghost enters = { enters_within sound };

    ghost settles = { out_within sound };

    fn new(boards: Boards) -> LatchLock {
        LatchLock {
            lock: HeldLock::new(boards),
        }
    }

    fn station(&self, board: u8) -> Result<Station, Refusal> {
        self.lock.station(board)
    }

    #[inline(always)]
    fn perform(&mut self, call: Call) -> Result<(), Refusal> {
        self.lock.perform(call)
    }
}
