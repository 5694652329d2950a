// An analyser in service: N boards take turns at one interpolator, over any ordered lock and any interpolator.
#![tactic(auto)]

ghost use Rattle.std.specs.Prelude.{◌≡◌, ℕ, ◌+◌, ◌*◌, false, List, [], is_ok};
ghost use Rattle.lock.specs.declared.boards.Boards.{Boards};
ghost use Rattle.panel.specs.Panels.{blank};
ghost use Rattle.queue.specs.Rule.{over};
ghost use Rattle.service.specs.declared.event.Event.{Event};
ghost use Rattle.service.specs.History.{Asked, History, Pulled, Stepped, last_shown, painted, panel_of, set_ahead, station, step_reading};
ghost use Rattle.service.specs.Law.{Lawful};
ghost use Rattle.service.specs.Rule.{ahead_told, ask_answer, ask_leaves, lockwork, new_view, pull_answer, pull_leaves, station_told, step_answer, step_leaves};
ghost use Rattle.service.specs.Runs.{grown};
ghost use Rattle.analyser.specs.Service.{Carries, Leads, Tells, puts, queued, showing, view};

use interpolator::Interpolator;
use lock::{Boards, FittingList, Lock, Ordered};
use panel::{Panel, Reading};
use queue::Queue;
use service::{Progress, Refusal, Standing};

mod calls;
mod desk;
mod state;

pub use state::{Ahead, Analyser, Desk};

// In the clauses `lockwork Q.Lock Q.Ordered.own` is the lock by its rule, `I.Interpolator.FULL_SCALE` the full scale, and `view ..` of
// an analyser what matters of it. They are written out each time, since no definition can name the lock and the interpolator of
// a bound.
impl<Q: Ordered, I: Interpolator> Analyser<Q, I> {
    // A new analyser of so many boards, with a new lock and a new interpolator.
    fn over(boards: Boards) -> Analyser<Q, I>
        ensures boards { result.boards ≡ boards }
        ensures panel { result.panel ≡ blank }
        ensures leads { Leads (lockwork Q.Lock Q.Ordered.own) Q.Lock.state I.Interpolator boards [] result }
        ensures law { (es : List Event) → Lawful boards.count I.Interpolator.FULL_SCALE (showing (lockwork Q.Lock Q.Ordered.own) boards.count) (grown (lockwork Q.Lock Q.Ordered.own) I.Interpolator.FULL_SCALE (new_view (lockwork Q.Lock Q.Ordered.own) I.Interpolator.FULL_SCALE boards) [] es) }
    {
        Analyser {
            boards,
            lock: Q::new(boards),
            interpolator: I::new(),
            desk: Desk::new(),
            panel: Panel::new(),
        }
    }

    // A board asks for a stay, with its counts, and is told the set of boards ahead of it. Refused are a board that is not there,
    // one that is not out, and a count above full scale, in this order.
    pub fn ask(&mut self, board: u8, start: u32, stop: u32) -> Result<u32, Refusal>
        ensures answers { result ≡ ask_answer (lockwork Q.Lock Q.Ordered.own) I.Interpolator.FULL_SCALE (view Q.Lock.state I.Interpolator self.old) board start stop }
        ensures leaves { view Q.Lock.state I.Interpolator self.new ≡ ask_leaves (lockwork Q.Lock Q.Ordered.own) I.Interpolator.FULL_SCALE (view Q.Lock.state I.Interpolator self.old) board start stop result }
        ensures panel { self.new.panel ≡ self.old.panel }
        ensures interpolator { self.new.interpolator ≡ self.old.interpolator }
        ensures kept { is_ok result ≡ false → self.new ≡ self.old }
        ensures law { Carries (lockwork Q.Lock Q.Ordered.own) Q.Lock.state I.Interpolator self.old (Asked board start stop result) self.new }
    {
        self.do_ask(board, start, stop)
    }

    // A board takes a step, with a bit for what it reads in change. At which step a waiting board goes inside, a leaving board comes
    // out and a doorway is passed is the lock's affair: the lock's own rule says it, and the law what holds of it.
    pub fn step(&mut self, board: u8, bit: bool) -> Result<Progress, Refusal>
        ensures answers { result ≡ step_answer (lockwork Q.Lock Q.Ordered.own) I.Interpolator.FULL_SCALE (view Q.Lock.state I.Interpolator self.old) board bit }
        ensures leaves { view Q.Lock.state I.Interpolator self.new ≡ step_leaves (lockwork Q.Lock Q.Ordered.own) I.Interpolator.FULL_SCALE (view Q.Lock.state I.Interpolator self.old) board bit }
        ensures panel { self.new.panel ≡ painted self.old.panel (step_reading board result) }
        ensures interpolator { puts (view Q.Lock.state I.Interpolator self.old) board ≡ false → self.new.interpolator ≡ self.old.interpolator }
        ensures kept { is_ok result ≡ false → self.new ≡ self.old }
        ensures law { Carries (lockwork Q.Lock Q.Ordered.own) Q.Lock.state I.Interpolator self.old (Stepped board bit result) self.new }
    {
        self.do_step(board, bit)
    }

    // Ends a board's stay. Refused are a board that is not there, and one that is out or leaving.
    pub fn pull(&mut self, board: u8) -> Result<(), Refusal>
        ensures answers { result ≡ pull_answer (lockwork Q.Lock Q.Ordered.own) I.Interpolator.FULL_SCALE (view Q.Lock.state I.Interpolator self.old) board }
        ensures leaves { view Q.Lock.state I.Interpolator self.new ≡ pull_leaves (lockwork Q.Lock Q.Ordered.own) I.Interpolator.FULL_SCALE (view Q.Lock.state I.Interpolator self.old) board result }
        ensures panel { self.new.panel ≡ self.old.panel }
        ensures interpolator { self.new.interpolator ≡ self.old.interpolator }
        ensures kept { is_ok result ≡ false → self.new ≡ self.old }
        ensures law { Carries (lockwork Q.Lock Q.Ordered.own) Q.Lock.state I.Interpolator self.old (Pulled board result) self.new }
    {
        self.do_pull(board)
    }

    // Tells a board's station, and changes nothing.
    pub fn station(&self, board: u8) -> Result<Standing, Refusal>
        ensures tells { result ≡ station_told (view Q.Lock.state I.Interpolator self.now) board }
        ensures law { Tells (lockwork Q.Lock Q.Ordered.own) Q.Lock.state I.Interpolator self.now board (λ _ h. station h board) result }
    {
        self.standing(board)
    }

    // Tells the set of boards ahead of a board, and changes nothing: bit j - 1 stands for board j.
    pub fn ahead(&self, board: u8) -> Result<u32, Refusal>
        ensures tells { result ≡ ahead_told (view Q.Lock.state I.Interpolator self.now) board }
        ensures law { Tells (lockwork Q.Lock Q.Ordered.own) Q.Lock.state I.Interpolator self.now board (λ n h. set_ahead n h board) result }
    {
        self.set_ahead(board)
    }

    // The reading that the panel shows: that of the last answer 4, if there was one.
    pub fn reading(&self) -> Option<Reading>
        ensures tells { result ≡ self.now.panel.last }
        ensures law { (h : History) → self.now.panel ≡ panel_of h → result ≡ last_shown h }
    {
        self.panel.reading()
    }

    // How often the panel was painted anew.
    pub fn repaints(&self) -> u32
        ensures tells { result ≡ self.now.panel.repaints }
        ensures law { (h : History) → self.now.panel ≡ panel_of h → result ≡ (panel_of h).repaints }
    {
        self.panel.repaints()
    }

    // The number of boards.
    pub fn boards(&self) -> u8
        ensures tells { result ≡ self.now.boards.count }
        ensures law { (n : Boards) (h : History) → Leads (lockwork Q.Lock Q.Ordered.own) Q.Lock.state I.Interpolator n h self.now → result ≡ n.count }
    {
        self.boards.count()
    }
}

impl<L: Lock, I: Interpolator> Analyser<Queue<L>, I> {
    // Puts a fitting list into service with a kind of lock and a kind of interpolator, both new for its N: an analyser with the
    // queue layer on that lock. The list is used up. Whatever events come from here on, their history is lawful.
    pub fn put_into_service(list: FittingList) -> Analyser<Queue<L>, I>
        ensures boards { result.boards ≡ list.boards }
        ensures panel { result.panel ≡ blank }
        ensures leads { Leads (queued L.Lock) (over L.Lock.state) I.Interpolator list.boards [] result }
        ensures law { (es : List Event) → Lawful list.boards.count I.Interpolator.FULL_SCALE (4 * list.boards.count + 4 + L.Lock.alone list.boards.count) (grown (queued L.Lock) I.Interpolator.FULL_SCALE (new_view (queued L.Lock) I.Interpolator.FULL_SCALE list.boards) [] es) }
    {
        Analyser::over(list.boards())
    }
}
