// The rule of the one-bit lock, call by call, on flags and places.
ghost use Rattle.std.specs.Prelude.{◌≡◌};
ghost use Rattle.line.specs.Rule.{begun};
ghost use Rattle.line.specs.declared.Level.TheVariants as to;
ghost use Rattle.line.specs.declared.Line.TheVariants.{Low};
ghost use Rattle.lock.specs.Stations.{answer, told};
ghost use Rattle.one_bit.specs.declared.lines.Place.TheVariants.{Leaving, Out};
ghost use Rattle.one_bit.specs.Rule.{after, changed, flag_told, fresh, lowered, next, onward, put, read_on, seen, shown, station, stepped, wait_on};
ghost use Rattle.one_bit.specs.Rule.{board as made, seat as seat_at};

use crate::lines::{Board, Lines, Place};
use line::{Level, Line};
use lock::{Boards, Call, Others, Refusal, Station, Table};

// The station that a place belongs to.
impl From<Place> for Station {
    ghost from_gives = { λ place s. s ≡ station place };

    fn from(place: Place) -> Station {
        match place {
            Place::Out => Station::Out,
            Place::Inside => Station::Inside,
            Place::Leaving => Station::Leaving,
            _ => Station::Trying,
        }
    }
}

impl Place {
    // Where a board goes once it has read the flags up to board j's: to the next one's but its own, or inside.
    fn onward(others: Others, j: u8) -> Place
        ensures { result ≡ onward others.boards.count others.own j }
    {
        match others.after(j) {
            Some(next) => Place::Reading(next),
            None => Place::Inside,
        }
    }

    // Where a board goes that has read the flag of board j.
    fn read_on(others: Others, j: u8, level: Level) -> Place
        ensures { result ≡ read_on others.boards.count others.own j level }
    {
        match level {
            Level::Low => Place::onward(others, j),
            Level::High => {
                if j < others.own() {
                    Place::Lowering(j)
                } else {
                    Place::Reading(j)
                }
            }
        }
    }

    // Where a board goes that waits for board j's flag to be low.
    fn wait_on(j: u8, level: Level) -> Place
        ensures { result ≡ wait_on j level }
    {
        match level {
            Level::Low => Place::Raising,
            Level::High => Place::Awaiting(j),
        }
    }
}

impl Board {
    // A board that is out.
    fn out() -> Board
        ensures { result ≡ made Low Out }
    {
        Board {
            flag: Line::Low,
            place: Place::Out,
        }
    }

    // The board at another place, with its flag as it is.
    fn at(self, place: Place) -> Board
        ensures { result ≡ made self.flag place }
    {
        Board { place, ..self }
    }

    // One half of a change of the flag to a level: the first, after which the board stays where it is, or the second,
    // after which it is at `then`.
    fn change(self, to: Level, then: Place) -> Board
        ensures { result ≡ changed self.flag to self.place «then» }
    {
        let place = if self.flag.in_change() {
            then
        } else {
            self.place
        };
        Board {
            flag: self.flag.change(to),
            place,
        }
    }

    // Puts the flag in change to low, unless it rests there.
    fn lower(self) -> Board
        ensures { result ≡ made (begun self.flag to.Low) Leaving }
    {
        Board {
            flag: self.flag.begin(Level::Low),
            place: Place::Leaving,
        }
    }

    // Begins to lower a high flag; makes any other low, and is out. A door of the queue
    // layer does the like with its y; what the two share is in `Line`.
    fn go_out(self) -> Board
        ensures { result ≡ lowered self.flag }
    {
        match self.flag {
            Line::High => self.lower(),
            _ => Board {
                flag: self.flag.end(),
                place: Place::Out,
            },
        }
    }

    // One step of this board, beside the others, that reads `level` if it reads a flag.
    fn stepped(self, others: Others, level: Level) -> Board
        ensures { result ≡ stepped others.boards.count others.own level self.flag self.place }
    {
        match self.place {
            Place::Out | Place::Inside => self,
            Place::Raising => self.change(Level::High, Place::onward(others, 0)),
            Place::Reading(j) => self.at(Place::read_on(others, j, level)),
            Place::Lowering(j) => self.change(Level::Low, Place::Awaiting(j)),
            Place::Awaiting(j) => self.at(Place::wait_on(j, level)),
            Place::Leaving => self.go_out(),
        }
    }
}

impl Lines {
    pub(crate) fn new(boards: Boards) -> Lines
        ensures { result ≡ fresh boards }
    {
        Lines {
            table: Table::new(boards, Board::out()),
        }
    }

    // The board of this number; one that is not there is out, with its flag low.
    pub(crate) fn seat(&self, board: u8) -> Board
        ensures { result ≡ seat_at self.now board }
    {
        self.table.record(board).unwrap_or(Board::out())
    }

    pub(crate) fn station(&self, board: u8) -> Result<Station, Refusal>
        ensures { result ≡ told (shown self.now) board }
    {
        let own = self.table.record(board)?;
        Ok(Station::from(own.place))
    }

    // The flag of a board.
    pub(crate) fn flag(&self, board: u8) -> Result<Line, Refusal>
        ensures { result ≡ flag_told self.now board }
    {
        let own = self.table.record(board)?;
        Ok(own.flag)
    }

    // What a step reads of a flag, if its board's place names one; low where it reads none, which then makes no difference: an Option would make
    // each rule say so once more.
    fn read(&self, bit: bool, place: Place) -> Level
        ensures { result ≡ seen self.now bit place }
    {
        match place {
            Place::Reading(j) | Place::Awaiting(j) => self.seat(j).flag.read(bit),
            _ => Level::Low,
        }
    }

    fn put(&mut self, board: u8, next: Board)
        ensures { self.new ≡ put self.old board next }
    {
        let _ = self.table.put(board, next);
    }

    // What an accepted call makes of its board. A start and a leave move no flag; a pull puts one that is not at rest low
    // in change to low, and the next step makes it low.
    #[inline(always)]
    fn next(&self, call: Call) -> Board
        ensures { result ≡ next self.now call }
    {
        let board = call.board();
        let own = self.seat(board);
        match call {
            Call::Start(_) => own.at(Place::Raising),
            Call::Step(_, bit) => {
                let level = self.read(bit, own.place);
                own.stepped(self.table.boards().others(board), level)
            }
            Call::Leave(_) => own.at(Place::Leaving),
            Call::Pull(_) => own.lower(),
        }
    }

    #[inline(always)]
    pub(crate) fn perform(&mut self, call: Call) -> Result<(), Refusal>
        ensures answers { result ≡ answer (shown self.old) call }
        ensures leaves { self.new ≡ after self.old call }
    {
        call.judge(self.station(call.board())?)?;
        self.put(call.board(), self.next(call));
        Ok(())
    }
}
