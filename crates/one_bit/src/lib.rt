// The one-bit lock keeps the meaning of a lock: S is N + 1 and E is 2.
#![tactic(auto)]

ghost use Rattle.std.specs.Prelude.{◌≡◌, ◌+◌, Ok};
ghost use Rattle.line.specs.declared.Line.TheVariants.{High};
ghost use Rattle.lock.specs.declared.station.Station.TheVariants as at;
ghost use Rattle.lock.specs.Stations.{Stands};
ghost use Rattle.one_bit.specs.Rule.{after, flag_told, fresh, shown};
ghost use Rattle.one_bit.specs.Sound.{OwnFlag};
ghost use Rattle.one_bit.specs.Keeps.{local, Good, to_enter, to_settle};
ghost use Rattle.lock.proofs.Local.{calls_move, exclusive, enters_within, out_within};
ghost use Rattle.one_bit.specs.Rule;

mod lines;
mod one_bit_lock;
mod rule;

use line::Line;
pub use lines::{Board, Lines, Place};
use lock::{Boards, Call, Lock, Refusal, Station};
pub use one_bit_lock::OneBit;

impl OneBit {
    // Tells a board's flag: high if the board is inside, and moved by no call of another board.
    pub fn flag(&self, board: u8) -> Result<Line, Refusal>
        ensures tells { result ≡ flag_told self.now.lines board }
        ensures raised { Stands (shown self.now.lines) board at.Inside → result ≡ Ok High }
        ensures owned { OwnFlag self.now.lines board }
    {
        self.lines.flag(board)
    }
}

impl Lock for OneBit {
    type State = Lines;

    ghost state = { λ l. l.lines };

    ghost fresh = { fresh };

    ghost after = { after };

    ghost stations = { shown };

    ghost alone = { λ n. n + 1 };

    ghost settle = { λ n. 2 };

    ghost begins = { local.calls.new };

    ghost moves = { calls_move Rule.fresh Rule.after shown Good local.calls };

    ghost excludes = { exclusive Rule.fresh Rule.after shown Good local.calls };

    ghost enters = { enters_within Rule.fresh Rule.after shown (λ n. n + 1) (λ n. 2) Good to_enter to_settle local };

    ghost settles = { out_within Rule.fresh Rule.after shown (λ n. n + 1) (λ n. 2) Good to_enter to_settle local };

    fn new(boards: Boards) -> OneBit {
        OneBit {
            lines: Lines::new(boards),
        }
    }

    fn station(&self, board: u8) -> Result<Station, Refusal> {
        self.lines.station(board)
    }

    #[inline(always)]
    fn perform(&mut self, call: Call) -> Result<(), Refusal> {
        self.lines.perform(call)
    }
}
