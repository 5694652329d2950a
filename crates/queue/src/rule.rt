// The rule of the queue layer for one board: its door, its row of z lines, and what it asks of the lock below.
ghost use Rattle.std.specs.Prelude.{◌≡◌};
ghost use Rattle.line.specs.declared.Level.TheVariants as to;
ghost use Rattle.line.specs.declared.Line.TheVariants.{Low};
ghost use Rattle.line.specs.Rule.{begun};
ghost use Rattle.lock.specs.Others.{other_after};
ghost use Rattle.lock.specs.Stations.{place_of};
ghost use Rattle.queue.specs.declared.state.Phase.TheVariants.{Leaving, Out, Watching};
ghost use Rattle.queue.specs.Rule.{compared, door, door_step, favours, low_row, lowered, lowest, none, noted, noting};
ghost use Rattle.queue.specs.Rule.{paired, pairing, put_at, raised, row_step, sent_step, settled, station, strike, turned, turned_on, waits_at, watched, z_of};

use crate::state::{Door, Phase, Row};
use line::{Level, Line};
use lock::{Call, MAX_BOARDS, Others, Station, place_of};

// Whether the pair of board `own` at level `mine` and board j at level `its` favours `own`.
fn pair_favours(own: u8, mine: Level, j: u8, its: Level) -> bool
    ensures { result ≡ favours own mine j its }
{
    if mine == its { own < j } else { j < own }
}

// The array with board j's place written, if it has one.
fn placed<T: Copy>(items: [T; MAX_BOARDS], j: u8, item: T) -> [T; MAX_BOARDS]
    ensures { result ≡ put_at items (place_of j) item }
{
    let mut items = items;
    if let Some(i) = place_of(j) {
        items[i] = item;
    }
    items
}

impl Phase {
    // The station that a phase belongs to, of a board that is at station `below` in the lock below; a `From` sees one value alone.
    pub(crate) fn station(self, below: Station) -> Station
        ensures { result ≡ station below self }
    {
        match self {
            Phase::Out => Station::Out,
            Phase::Below => below,
            Phase::Leaving => Station::Leaving,
            _ => Station::Trying,
        }
    }

    // Whether a board at this phase, and at station `below` in the lock below, has passed its doorway and is not yet inside.
    pub(crate) fn waits(self, below: Station) -> bool
        ensures { result ≡ waits_at below self }
    {
        match self {
            Phase::Watching | Phase::Comparing => true,
            Phase::Below => below == Station::Trying,
            _ => false,
        }
    }

    // Reads the y of the other boards from this one on, then raises the own.
    fn noting(next: Option<u8>) -> Phase
        ensures { result ≡ noting next }
    {
        match next {
            Some(j) => Phase::Noting(j),
            None => Phase::Raising,
        }
    }

    // Judges the pairs with the other boards from this one on, then reads their y.
    fn pairing(others: Others, next: Option<u8>) -> Phase
        ensures { result ≡ pairing others.boards.count others.own next }
    {
        match next {
            Some(j) => Phase::Pairing(j),
            None => Phase::noting(others.after(0)),
        }
    }

    // Goes on once the own z line for board j has its new level.
    fn turned(others: Others, j: u8, ends: bool) -> Phase
        ensures { result ≡ turned_on others.boards.count others.own j ends }
    {
        if ends {
            Phase::pairing(others, others.after(j))
        } else {
            Phase::Turning(j)
        }
    }

    // Goes on once the pair with board j has been judged.
    fn paired(others: Others, j: u8, favoured: bool) -> Phase
        ensures { result ≡ paired others.boards.count others.own j favoured }
    {
        if favoured {
            Phase::Turning(j)
        } else {
            Phase::pairing(others, others.after(j))
        }
    }
}

impl Row {
    // Every z line is low.
    pub(crate) fn low() -> Row
        ensures { result ≡ low_row }
    {
        Row {
            z: [Line::Low; MAX_BOARDS],
        }
    }

    // The z line for board j. A closure would not know that the place lies within the row.
    pub(crate) fn line(self, j: u8) -> Line
        ensures { result ≡ z_of self j }
    {
        match place_of(j) {
            Some(i) => self.z[i],
            None => Line::Low,
        }
    }

    // One half of a change of the z line for board j.
    fn turned(self, j: u8) -> Row
        ensures { result ≡ turned self j }
    {
        let line = self.line(j);
        Row {
            z: placed(self.z, j, line.change(!line.heading())),
        }
    }

    // A z line in change gets its new level.
    fn settled(self) -> Row
        ensures { result ≡ settled self }
    {
        Row {
            z: self.z.map(Line::end),
        }
    }

    // The row of a board after its step.
    pub(crate) fn stepped(self, own: Door, out_below: bool) -> Row
        ensures { result ≡ row_step self out_below own.y own.phase }
    {
        match own.phase {
            Phase::Turning(j) => self.turned(j),
            Phase::Leaving if out_below && own.y != Line::High => self.settled(),
            _ => self,
        }
    }
}

impl Door {
    // A board that is out.
    pub(crate) fn out() -> Door
        ensures { result ≡ door Low Out none }
    {
        Door {
            y: Line::Low,
            phase: Phase::Out,
            notes: [false; MAX_BOARDS],
        }
    }

    // The board at another phase, with its y and notes as they are.
    fn at(self, phase: Phase) -> Door
        ensures { result ≡ door self.y phase self.notes }
    {
        Door { phase, ..self }
    }

    // The lowest board that is noted.
    #[inline(always)]
    pub(crate) fn lowest(self) -> Option<u8>
        ensures { result ≡ lowest self.notes }
    {
        let place = self.notes.iter().position(|noted| *noted)?;
        Some(place as u8 + 1)
    }

    // A started board: its y is as it was, and none is noted yet.
    pub(crate) fn started(self, others: Others) -> Door
        ensures { result ≡ door self.y (pairing others.boards.count others.own (other_after others.boards.count others.own 0)) none }
    {
        Door {
            y: self.y,
            phase: Phase::pairing(others, others.after(0)),
            ..Door::out()
        }
    }

    // A board that leaves.
    pub(crate) fn left(self) -> Door
        ensures { result ≡ door self.y Leaving self.notes }
    {
        self.at(Phase::Leaving)
    }

    // A board that leaves, with its y in change to low unless it rests there.
    pub(crate) fn pulled(self) -> Door
        ensures { result ≡ door (begun self.y to.Low) Leaving self.notes }
    {
        Door {
            y: self.y.begin(Level::Low),
            phase: Phase::Leaving,
            ..self
        }
    }

    // Board j has been read: it is noted if its y is high.
    fn noted(self, j: u8, level: Level) -> [bool; MAX_BOARDS]
        ensures { result ≡ noted self.notes j level }
    {
        match level {
            Level::Low => self.notes,
            Level::High => placed(self.notes, j, true),
        }
    }

    // The board looks for the lowest noted board again, with board j struck off.
    fn struck_off(self, j: u8) -> Door
        ensures { result ≡ door self.y Watching (strike self.notes j) }
    {
        Door {
            phase: Phase::Watching,
            notes: placed(self.notes, j, false),
            ..self
        }
    }

    // The y of the lowest noted board has been read; with none noted, the board has been started below.
    fn watched(self, out_below: bool, level: Level) -> Door
        ensures { result ≡ watched self.y self.notes out_below level (lowest self.notes) }
    {
        match self.lowest() {
            None if out_below => self.at(Phase::Below),
            None => self.at(Phase::Watching),
            Some(j) => match level {
                Level::Low => self.struck_off(j),
                Level::High => self.at(Phase::Comparing),
            },
        }
    }

    // The pair with the lowest noted board has been judged.
    fn compared(self, own: u8, row: Row, level: Level) -> Door
        ensures { result ≡ compared own row level self.y self.notes (lowest self.notes) }
    {
        match self.lowest() {
            None => self.at(Phase::Watching),
            Some(j) => {
                if pair_favours(own, row.line(j).heading(), j, level) {
                    self.struck_off(j)
                } else {
                    self.at(Phase::Watching)
                }
            }
        }
    }

    // One half of raising y; the second half passes the doorway.
    fn raised(self) -> Door
        ensures { result ≡ raised self.y self.notes }
    {
        let phase = if self.y.in_change() {
            Phase::Watching
        } else {
            Phase::Raising
        };
        Door {
            y: self.y.change(Level::High),
            phase,
            ..self
        }
    }

    // Begins to lower a high y; makes any other low, and is out: as a board of the one-bit lock with its flag; what the
    // two share is in `Line`.
    fn lowered(self) -> Door
        ensures { result ≡ lowered self.y self.notes }
    {
        match self.y {
            Line::High => self.pulled(),
            _ => Door {
                y: self.y.end(),
                phase: Phase::Out,
                ..self
            },
        }
    }

    // One step of this board, beside the others, whose z lines are `row`, that reads `level` if it reads a line.
    pub(crate) fn stepped(self, others: Others, row: Row, level: Level, out_below: bool) -> Door
        ensures { result ≡ door_step others.boards.count others.own row level out_below self.y self.notes self.phase }
    {
        match self.phase {
            Phase::Out | Phase::Below => self,
            Phase::Pairing(j) => {
                let favoured = pair_favours(others.own(), row.line(j).heading(), j, level);
                self.at(Phase::paired(others, j, favoured))
            }
            Phase::Turning(j) => self.at(Phase::turned(others, j, row.line(j).in_change())),
            Phase::Noting(j) => Door {
                phase: Phase::noting(others.after(j)),
                notes: self.noted(j, level),
                ..self
            },
            Phase::Raising => self.raised(),
            Phase::Watching => self.watched(out_below, level),
            Phase::Comparing => self.compared(others.own(), row, level),
            Phase::Leaving if out_below => self.lowered(),
            Phase::Leaving => self,
        }
    }

    // The call that a step of this board makes in the lock below.
    pub(crate) fn sent(self, own: u8, bit: bool, out_below: bool) -> Option<Call>
        ensures { result ≡ sent_step own bit out_below self.notes self.phase }
    {
        match self.phase {
            Phase::Watching if self.lowest().is_none() => Some(Call::Start(own)),
            Phase::Below => Some(Call::Step(own, bit)),
            Phase::Leaving if !out_below => Some(Call::Step(own, bit)),
            _ => None,
        }
    }
}
