// Where a board stands in a lock, what can be asked of a lock, and why it refuses.
ghost use Rattle.std.specs.Prelude.{◌≡◌, Some};
ghost use Rattle.std.specs.Fmt.{padded};
ghost use Rattle.lock.specs.Names.{station_name};
ghost use Rattle.lock.specs.Numbers.{refused_by};
ghost use Rattle.lock.specs.Stations.{board as named, judged_at};

use std::fmt;

// A board is out, trying to go inside, inside, or leaving.
#[derive(Clone, Copy, PartialEq, Eq, Debug)]
pub enum Station {
    Out,
    Trying,
    Inside,
    Leaving,
}

impl fmt::Display for Station {
    ghost output = { λ station. Some (station_name station) };

    ghost styled_output = { λ station spec. Some (padded spec (station_name station)) };

    fn fmt<W: fmt::Write>(&self, f: &mut fmt::Formatter<W>) -> fmt::Result {
        f.pad(match self {
            Station::Out => "out",
            Station::Trying => "trying",
            Station::Inside => "inside",
            Station::Leaving => "leaving",
        })
    }
}

// A call on a lock, with its board; a step carries a bit too.
#[derive(Clone, Copy, PartialEq, Eq, Debug)]
pub enum Call {
    Start(u8),
    Step(u8, bool),
    Leave(u8),
    Pull(u8),
}

impl Call {
    // The board that the call names.
    #[inline(always)]
    pub fn board(self) -> u8
        ensures { result ≡ named self }
    {
        match self {
            Call::Start(board) | Call::Step(board, _) | Call::Leave(board) | Call::Pull(board) =>
                board,
        }
    }

    // Judges the call by the station at which its board stands.
    #[inline(always)]
    pub fn judge(self, station: Station) -> Result<(), Refusal>
        ensures { result ≡ judged_at self station }
    {
        match (self, station) {
            (Call::Step(_, _), _) => Ok(()),
            (Call::Start(_), Station::Out) => Ok(()),
            (Call::Leave(_), Station::Inside) => Ok(()),
            (Call::Pull(_), Station::Trying | Station::Inside) => Ok(()),
            (Call::Start(_), _) => Err(Refusal::NotOut),
            (Call::Leave(_), _) => Err(Refusal::NotInside),
            (Call::Pull(_), _) => Err(Refusal::NotEngaged),
        }
    }
}

// Why a lock refuses a call.
#[derive(Clone, Copy, PartialEq, Eq, Debug)]
pub enum Refusal {
    // the board is 0 or above N
    NoSuchBoard,
    // a start of a board that is not out
    NotOut,
    // a pull of a board that is out or leaving
    NotEngaged,
    // a leave of a board that is not inside
    NotInside,
}

// The number by which the refusal is told.
impl From<Refusal> for u8 {
    ghost from_gives = { λ refusal n. n ≡ refused_by refusal };

    fn from(refusal: Refusal) -> u8 {
        match refusal {
            Refusal::NoSuchBoard => 1,
            Refusal::NotOut => 2,
            Refusal::NotEngaged => 4,
            Refusal::NotInside => 5,
        }
    }
}
