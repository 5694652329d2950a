// The queue layer over any lock: again a lock, and in order.
#![tactic(auto)]

ghost use Rattle.std.specs.Prelude.{◌≡◌, ◌+◌, ◌-◌, ◌*◌};
ghost use Rattle.line.specs.Rule.{reading};
ghost use Rattle.lock.specs.declared.station.Call.TheVariants.{Start, Pull};
ghost use Rattle.lock.specs.Stations.{accepted, told};
ghost use Rattle.queue.specs.Lines.{OneInChange, OwnLines, y_told};
ghost use Rattle.queue.specs.Rule.{MovedBelow, acted, door_at, new_queue, next_door, next_row, over, queue_after, row_at, seen, sent, shown, station_there, waits, z_of};
ghost use Rattle.queue.specs.Keeps.{all_out, Good, calls};
ghost use Rattle.lock.proofs.Local.{calls_move, exclusive};
ghost use Rattle.queue.specs.Enters.{enters_within};
ghost use Rattle.queue.specs.Settles.{out_within};
ghost use Rattle.queue.specs.Doors.{waits_trying};
ghost use Rattle.queue.specs.Doors;
ghost use Rattle.queue.specs.Ahead.{in_order, passes_within};

mod rule;
mod state;

use line::{Level, Line};
use lock::{Boards, Call, Lock, Ordered, Refusal, Station, Table};
use state::Next;
pub use state::{Door, Phase, Queue, Row};

impl<L: Lock> Queue<L> {
    // Tells a board's line y. In every layer that calls on a new one lead to, no call moves a line of a board that it does
    // not name, and no board has two z lines in change.
    pub fn y(&self, board: u8) -> Result<Line, Refusal>
        ensures tells { result ≡ y_told self.now board }
        ensures owned { OwnLines L.Lock.fresh L.Lock.after L.Lock.stations }
        ensures single { OneInChange L.Lock.fresh L.Lock.after L.Lock.stations }
    {
        self.line_y(board)
    }

    // What `y` tells; the facts over all calls are proved of `y` from it.
    fn line_y(&self, board: u8) -> Result<Line, Refusal>
        ensures { result ≡ y_told self.now board }
    {
        let own = self.doors.record(board)?;
        Ok(own.y)
    }

    // The board of this number; one that is not there is out.
    fn door(&self, board: u8) -> Door
        ensures { result ≡ door_at self.now board }
    {
        self.doors.record(board).unwrap_or(Door::out())
    }

    // The z lines of a board; those of one that is not there are low.
    fn row(&self, board: u8) -> Row
        ensures { result ≡ row_at self.now board }
    {
        self.rows.record(board).unwrap_or(Row::low())
    }

    // Whether a board is out in the lock below.
    fn is_out_below(&self, board: u8) -> bool
        ensures { result ≡ accepted (L.Lock.stations (L.Lock.state self.now.below)) (Start board) }
    {
        self.below.station(board) == Ok(Station::Out)
    }

    // What a step of a board reads; low where it reads nothing, which then makes no difference: an Option would make each rule
    // say so once more.
    #[inline(always)]
    fn read(&self, board: u8, bit: bool, own: Door) -> Level
        ensures { result ≡ seen self.now board bit own.notes own.phase }
    {
        match own.phase {
            Phase::Pairing(j) => self.read_z(j, board, bit),
            Phase::Noting(j) => self.read_y(j, bit),
            Phase::Watching => own.lowest().map_or(Level::Low, |j| self.read_y(j, bit)),
            Phase::Comparing => own
                .lowest()
                .map_or(Level::Low, |j| self.read_z(j, board, bit)),
            _ => Level::Low,
        }
    }

    // Reads board j's z line for another board.
    fn read_z(&self, j: u8, board: u8, bit: bool) -> Level
        ensures { result ≡ reading (z_of (row_at self.now j) board) bit }
    {
        self.row(j).line(board).read(bit)
    }

    // Reads board j's y.
    fn read_y(&self, j: u8, bit: bool) -> Level
        ensures { result ≡ reading (door_at self.now j).y bit }
    {
        self.door(j).y.read(bit)
    }

    // The station of a board: that below while it is there, else by its phase. The calls judge by it too.
    fn stands(&self, board: u8) -> Result<Station, Refusal>
        ensures { result ≡ told (shown (λ l. L.Lock.stations (L.Lock.state l)) self.now) board }
    {
        let own = self.doors.record(board)?;
        Ok(own.phase.station(self.station_below(board)))
    }

    // The station of a board in the lock below; one that is not there is out.
    fn station_below(&self, board: u8) -> Station
        ensures { result ≡ station_there (told (L.Lock.stations (L.Lock.state self.now.below)) board) }
    {
        self.below.station(board).unwrap_or(Station::Out)
    }

    // The pull that a pull of this board makes in the lock below.
    fn pull_below(&self, board: u8) -> Option<Call>
        ensures { result ≡ sent L.Lock.stations (over L.Lock.state self.now) (Pull board) }
    {
        let pull = Call::Pull(board);
        let station = self.below.station(board).ok()?;
        pull.judge(station).ok()?;
        Some(pull)
    }

    // What an accepted call makes of its board and of its row, and the call that it makes in the lock below.
    #[inline(always)]
    fn next(&self, call: Call) -> Next
        ensures door { result.door ≡ next_door L.Lock.stations (over L.Lock.state self.now) call }
        ensures row { result.row ≡ next_row L.Lock.stations (over L.Lock.state self.now) call }
        ensures call { result.call ≡ sent L.Lock.stations (over L.Lock.state self.now) call }
    {
        let board = call.board();
        let others = self.doors.boards().others(board);
        let own = self.door(board);
        let row = self.row(board);
        match call {
            Call::Start(_) => Next {
                door: own.started(others),
                row,
                call: None,
            },
            Call::Step(_, bit) => {
                let out_below = self.is_out_below(board);
                let level = self.read(board, bit, own);
                Next {
                    door: own.stepped(others, row, level, out_below),
                    row: row.stepped(own, out_below),
                    call: own.sent(board, bit, out_below),
                }
            }
            Call::Leave(_) => Next {
                door: own.left(),
                row,
                call: Some(call),
            },
            Call::Pull(_) => Next {
                door: own.pulled(),
                row,
                call: self.pull_below(board),
            },
        }
    }

    // Writes the board and its row, and makes its call, if any, in the lock below.
    #[inline(always)]
    fn act(&mut self, board: u8, next: Next)
        ensures leaves { over L.Lock.state self.new ≡ acted L.Lock.after L.Lock.stations (over L.Lock.state self.old) board next.door next.row next.call }
        ensures moved { MovedBelow L.Lock.after L.Lock.stations L.Lock.fresh (L.Lock.state self.old.below) next.call }
    {
        let _ = self.doors.put(board, next.door);
        let _ = self.rows.put(board, next.row);
        if let Some(made) = next.call {
            let _ = self.below.perform(made);
        }
    }
}

impl<L: Lock> Lock for Queue<L> {
    type State = Queue<L::State>;

    ghost state = { over L.Lock.state };

    ghost fresh = { new_queue L.Lock.fresh };

    ghost after = { queue_after L.Lock.after L.Lock.stations };

    ghost stations = { shown L.Lock.stations };

    ghost alone = { λ n. 4 * n - 1 + L.Lock.alone n };

    ghost settle = { λ n. 2 + L.Lock.settle n };

    ghost begins = { let D = L.Lock in all_out D.fresh D.after D.stations D.begins D.moves };

    ghost moves = { let D = L.Lock in
        calls_move (new_queue D.fresh) (queue_after D.after D.stations) (shown D.stations) (Good D.fresh D.after D.stations D.begins D.moves)
        (calls D.fresh D.after D.stations D.begins D.moves) };

    ghost excludes = { let D = L.Lock in
        exclusive (new_queue D.fresh) (queue_after D.after D.stations) (shown D.stations) (Good D.fresh D.after D.stations D.begins D.moves)
        (calls D.fresh D.after D.stations D.begins D.moves) };

    ghost enters = { let D = L.Lock in enters_within D.fresh D.after D.stations D.begins D.moves D.alone D.enters };

    ghost settles = { let D = L.Lock in out_within D.fresh D.after D.stations D.begins D.moves D.settle D.settles };

    fn new(boards: Boards) -> Queue<L> {
        Queue {
            doors: Table::new(boards, Door::out()),
            rows: Table::new(boards, Row::low()),
            below: L::new(boards),
        }
    }

    fn station(&self, board: u8) -> Result<Station, Refusal> {
        self.stands(board)
    }

    #[inline(always)]
    fn perform(&mut self, call: Call) -> Result<(), Refusal> {
        let board = call.board();
        call.judge(self.stands(board)?)?;
        self.act(board, self.next(call));
        Ok(())
    }
}

impl<L: Lock> Ordered for Queue<L> {
    ghost waits = { waits L.Lock.stations };

    ghost doorway = { λ n. 4 * n - 2 };

    ghost tries = { let D = L.Lock in waits_trying D.fresh D.after D.stations D.begins D.moves };

    ghost doorways = { let D = L.Lock in Doors.doorways D.fresh D.after D.stations D.begins D.moves };

    ghost order = { let D = L.Lock in in_order D.fresh D.after D.stations D.begins D.moves };

    ghost passes = { let D = L.Lock in passes_within D.fresh D.after D.stations D.begins D.moves };

    fn waiting(&self, board: u8) -> Result<bool, Refusal> {
        let own = self.doors.record(board)?;
        Ok(own.phase.waits(self.station_below(board)))
    }
}
