// A backplane with one thing that one board at a time has, the stations of the boards on it, and the rule, call by call.
ghost use Rattle.std.specs.Prelude.{◌≡◌};
ghost use Rattle.lock.specs.Stations.{answer, told};
ghost use Rattle.backplane.specs.Rule.{after, fresh, put, shown, step_at};

use crate::taking::Taking;
use lock::{Boards, Call, Refusal, Station, Table};

// Nobody has the thing, or the board that is its holder.
#[derive(Clone, Copy)]
pub struct Backplane {
    table: Table<Station>,
    holder: Option<u8>,
}

impl Backplane {
    pub(crate) fn new(boards: Boards) -> Backplane
        ensures { result ≡ fresh boards }
    {
        Backplane {
            table: Table::new(boards, Station::Out),
            holder: None,
        }
    }

    pub(crate) fn station(&self, board: u8) -> Result<Station, Refusal>
        ensures { result ≡ told (shown self.now) board }
    {
        self.table.record(board)
    }

    fn go(&mut self, board: u8, station: Station)
        ensures { self.new ≡ put self.old board station }
    {
        let _ = self.table.put(board, station);
    }

    // Judges a call, and then makes it.
    #[inline(always)]
    pub(crate) fn perform<T: Taking>(&mut self, call: Call) -> Result<(), Refusal>
        ensures answers { result ≡ answer (shown self.old) call }
        ensures leaves { self.new ≡ after T.tries T.enters self.old call }
    {
        let station = self.station(call.board())?;
        call.judge(station)?;
        match call {
            Call::Start(board) => self.go(board, Station::Trying),
            Call::Step(board, _) => self.step::<T>(board, station),
            // the thing stays with the board until its own step
            Call::Leave(board) | Call::Pull(board) => self.go(board, Station::Leaving),
        }
        Ok(())
    }

    // Makes the step of a board that stands at a station.
    fn step<T: Taking>(&mut self, board: u8, station: Station)
        ensures { self.new ≡ step_at T.tries T.enters self.old board station }
    {
        match station {
            Station::Trying => {
                if T::try_to_enter(&mut self.holder, board) {
                    self.go(board, Station::Inside);
                }
            }
            Station::Leaving => {
                if self.holder == Some(board) {
                    self.holder = None;
                }
                self.go(board, Station::Out);
            }
            Station::Out | Station::Inside => {}
        }
    }
}
