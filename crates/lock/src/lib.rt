// The meaning of a lock: N boards, their stations, and what every implementation has to show.
#![tactic(auto)]

ghost use Rattle.std.specs.Prelude.{◌≡◌, ℕ, Bool, true, false, List, is_ok};
ghost use Rattle.lock.specs.declared.boards.Boards.{Boards};
ghost use Rattle.lock.specs.declared.station.Call.{Call};
ghost use Rattle.lock.specs.declared.station.Call.TheVariants.{Start, Step, Leave, Pull};
ghost use Rattle.lock.specs.declared.station.Station.{Station};
ghost use Rattle.lock.specs.Order.{Doorways, InOrder, PassesWithin, WaitsTrying, waits_told};
ghost use Rattle.lock.specs.Stations.{AtMostOne, Moves, answer, told};
ghost use Rattle.lock.specs.Runs.{AllOut, CallsMove, Exclusive, EntersWithin, OutWithin, run};

mod boards;
mod fitting;
mod station;
mod table;

pub use boards::{Boards, MAX_BOARDS, Others, Seat};
pub use fitting::{FitRefusal, FittingList};
pub use station::{Call, Refusal, Station};
pub use table::{Table, place_of};

// A lock for N boards. What the code holds is a value of the type; `state` is the part of it that
// the lock's rule speaks of, and `after` is that rule, call by call.
pub trait Lock: Sized {
    type State;

    ghost state: { Self → Self.State };

    // The state of a new lock for so many boards.
    ghost fresh: { Boards → Self.State };

    // The state that a call leaves, accepted or refused.
    ghost after: { Self.State → Call → Self.State };

    // The stations of boards 1 to N, in order.
    ghost stations: { Self.State → List Station };

    // S: the own steps, by N, in which a board that is started alone goes inside.
    ghost alone: { ℕ → ℕ };

    // E: the own steps, by N, in which a leaving board is out.
    ghost settle: { ℕ → ℕ };

    fn new(boards: Boards) -> Self
        ensures { state result ≡ fresh boards };

    // Tells a board's station, and changes nothing.
    fn station(&self, board: u8) -> Result<Station, Refusal>
        ensures { result ≡ told (stations (state self.now)) board };

    // Makes a call: the board is judged first, then its station. A refused call changes nothing: that is a fact about a call, and
    // not about a value, so it stands in the contract of each.
    fn perform(&mut self, call: Call) -> Result<(), Refusal>
        ensures answers { result ≡ answer (stations (state self.old)) call }
        ensures leaves { state self.new ≡ after (state self.old) call }
        ensures moves { is_ok result ≡ true → Moves (stations (state self.old)) call (stations (state self.new)) }
        ensures kept { is_ok result ≡ false → self.new ≡ self.old };

    // The four calls by their names, each one line over `perform`, so that a holder of a lock need not build a `Call`. The locks
    // have their `perform` inlined here, so that each of the four comes to its own case alone, and costs no more than that.

    // Takes an out board to trying.
    final fn start(&mut self, board: u8) -> Result<(), Refusal>
        ensures answers { result ≡ answer (stations (state self.old)) (Start board) }
        ensures leaves { state self.new ≡ after (state self.old) (Start board) }
        ensures moves { is_ok result ≡ true → Moves (stations (state self.old)) (Start board) (stations (state self.new)) }
        ensures kept { is_ok result ≡ false → self.new ≡ self.old }
    {
        self.perform(Call::Start(board))
    }

    // May take a trying board inside, or a leaving board out.
    final fn step(&mut self, board: u8, bit: bool) -> Result<(), Refusal>
        ensures answers { result ≡ answer (stations (state self.old)) (Step board bit) }
        ensures leaves { state self.new ≡ after (state self.old) (Step board bit) }
        ensures moves { is_ok result ≡ true → Moves (stations (state self.old)) (Step board bit) (stations (state self.new)) }
        ensures kept { is_ok result ≡ false → self.new ≡ self.old }
    {
        self.perform(Call::Step(board, bit))
    }

    // Takes an inside board to leaving.
    final fn leave(&mut self, board: u8) -> Result<(), Refusal>
        ensures answers { result ≡ answer (stations (state self.old)) (Leave board) }
        ensures leaves { state self.new ≡ after (state self.old) (Leave board) }
        ensures moves { is_ok result ≡ true → Moves (stations (state self.old)) (Leave board) (stations (state self.new)) }
        ensures kept { is_ok result ≡ false → self.new ≡ self.old }
    {
        self.perform(Call::Leave(board))
    }

    // Takes a trying or inside board to leaving.
    final fn pull(&mut self, board: u8) -> Result<(), Refusal>
        ensures answers { result ≡ answer (stations (state self.old)) (Pull board) }
        ensures leaves { state self.new ≡ after (state self.old) (Pull board) }
        ensures moves { is_ok result ≡ true → Moves (stations (state self.old)) (Pull board) (stations (state self.new)) }
        ensures kept { is_ok result ≡ false → self.new ≡ self.old }
    {
        self.perform(Call::Pull(board))
    }

    ghost begins: { AllOut fresh stations };

    ghost moves: { CallsMove fresh after stations };

    ghost excludes: { Exclusive fresh after stations };

    ghost enters: { EntersWithin fresh after stations alone };

    ghost settles: { OutWithin fresh after stations settle };
}

// A lock that keeps order. A started board is in its doorway until it passes it by its own steps; from then on it waits,
// until it is inside or pulled. A board goes inside only when none stands ahead of it: ahead are those that waited when its
// start was accepted, and since then were neither inside nor pulled.
pub trait Ordered: Lock {
    // A board has passed its doorway and is not yet inside.
    ghost waits: { Self.State → ℕ → Bool };

    // The own steps, by N, in which a started board passes its doorway.
    ghost doorway: { ℕ → ℕ };

    // Tells whether a board has passed its doorway and is not yet inside, and changes nothing.
    fn waiting(&self, board: u8) -> Result<bool, Refusal>
        ensures { result ≡ waits_told Self.Lock.fresh Self.Lock.after Self.Lock.stations waits (Self.Lock.state self.now) board };

    ghost tries: { WaitsTrying Self.Lock.fresh Self.Lock.after Self.Lock.stations waits };

    ghost doorways: { Doorways Self.Lock.fresh Self.Lock.after Self.Lock.stations waits };

    ghost order: { InOrder Self.Lock.fresh Self.Lock.after Self.Lock.stations waits };

    ghost passes: { PassesWithin Self.Lock.fresh Self.Lock.after Self.Lock.stations waits doorway };
}

// Makes a new lock and every call of a list on it, in order, accepted or refused.
pub fn replay<L: Lock>(boards: Boards, calls: &[Call]) -> L
    ensures leaves { L.Lock.state result ≡ run L.Lock.after (L.Lock.fresh boards) calls.now }
    ensures excludes { AtMostOne (L.Lock.stations (L.Lock.state result)) }
{
    let mut lock = L::new(boards);
    for call in calls {
        let _ = lock.perform(*call);
    }
    lock
}
