// The work of each call on an analyser, step by step. It stands apart from the public calls, since the law is proved from its
// contract once, and not at each return; so what a public call promises of the panel and the interpolator, its work promises too.
ghost use Rattle.std.specs.Prelude.{◌≡◌, true, false, pos, ◌-ℤ◌, is_ok, Ok, MatchResult};
ghost use Rattle.lock.specs.Stations.{among};
ghost use Rattle.service.specs.declared.refusal.Refusal.TheVariants.{NoSuchBoard};
ghost use Rattle.service.specs.History.{painted, step_reading};
ghost use Rattle.service.specs.Rule.{ahead_told, ask_answer, ask_leaves, inside_step, lockwork, own, pull_answer, pull_leaves, station_told, step_answer, step_leaves};
ghost use Rattle.analyser.specs.Service.{come_to, puts, putting, view};

use crate::state::Analyser;
use interpolator::{Interpolator, within_scale};
use lock::{Ordered, Seat, Station};
use panel::Reading;
use service::{Progress, Record, Refusal, Stage, Standing};

// The number that a board shows: the second count taken minus the first.
fn difference(first: u32, second: u32) -> i64
    ensures { result ≡ pos second -ℤ pos first }
{
    i64::from(second) - i64::from(first)
}

impl<Q: Ordered, I: Interpolator> Analyser<Q, I> {
    // The seat of a board, if the board is there.
    fn seat(&self, board: u8) -> Result<Seat, Refusal>
        ensures { MatchResult result (λ s. (s.board ≡ board) × (among self.now.boards.count board ≡ true)) (λ e. (e ≡ NoSuchBoard) × (among self.now.boards.count board ≡ false)) }
    {
        self.boards.seat(board).ok_or(Refusal::NoSuchBoard)
    }

    // The record of a board.
    fn record(&self, seat: Seat) -> Record
        ensures { result ≡ own (view Q.Lock.state I.Interpolator self.now) seat.board }
    {
        let place = seat.place();
        self.desk.records[place]
    }

    pub(crate) fn standing(&self, board: u8) -> Result<Standing, Refusal>
        ensures { result ≡ station_told (view Q.Lock.state I.Interpolator self.now) board }
    {
        let seat = self.seat(board)?;
        Ok(self.record(seat).standing)
    }

    // The set ahead of a board that is in its doorway or waiting, and else nobody.
    pub(crate) fn set_ahead(&self, board: u8) -> Result<u32, Refusal>
        ensures { result ≡ ahead_told (view Q.Lock.state I.Interpolator self.now) board }
    {
        let seat = self.seat(board)?;
        match self.record(seat).standing {
            Standing::Doorway | Standing::Waiting => {
                Ok(self.desk.sets[seat.place()].number(self.boards))
            }
            _ => Ok(0),
        }
    }

    // What a step of a board that had this station has come to in the lock.
    #[inline(always)]
    fn come_to(&self, board: u8, standing: Standing) -> Progress
        ensures { result ≡ come_to (lockwork Q.Lock Q.Ordered.own) (Q.Lock.state self.now.lock) board standing }
    {
        match standing {
            Standing::Doorway if self.lock.waiting(board) == Ok(true) => Progress::Passed,
            Standing::Waiting if self.lock.station(board) == Ok(Station::Inside) =>
                Progress::Entered,
            Standing::Leaving if self.lock.station(board) == Ok(Station::Out) => Progress::CameOut,
            _ => Progress::Working,
        }
    }

    fn step_inside(&mut self, seat: Seat) -> Progress
        ensures answers { result ≡ (inside_step (lockwork Q.Lock Q.Ordered.own) I.Interpolator.FULL_SCALE (view Q.Lock.state I.Interpolator self.old) seat.board (own (view Q.Lock.state I.Interpolator self.old) seat.board) (own (view Q.Lock.state I.Interpolator self.old) seat.board).stage).tells }
        ensures leaves { view Q.Lock.state I.Interpolator self.new ≡ (inside_step (lockwork Q.Lock Q.Ordered.own) I.Interpolator.FULL_SCALE (view Q.Lock.state I.Interpolator self.old) seat.board (own (view Q.Lock.state I.Interpolator self.old) seat.board) (own (view Q.Lock.state I.Interpolator self.old) seat.board).stage).left }
        ensures panel { self.new.panel ≡ painted self.old.panel (step_reading seat.board (Ok result)) }
        ensures interpolator { putting (own (view Q.Lock.state I.Interpolator self.old) seat.board).stage ≡ false → self.new.interpolator ≡ self.old.interpolator }
    {
        let own = self.record(seat);
        match own.stage {
            Stage::Arrived => {
                let _ = self.interpolator.put_start(own.start);
                self.desk.records[seat.place()].advance(Stage::StartPut);
                Progress::Working
            }
            Stage::StartPut => {
                let _ = self.interpolator.put_stop(own.stop);
                self.desk.records[seat.place()].advance(Stage::StopPut);
                Progress::Working
            }
            Stage::StopPut => {
                let first = self.interpolator.take_start();
                self.desk.records[seat.place()].advance(Stage::StartTaken(first));
                Progress::Working
            }
            Stage::StartTaken(first) => {
                let second = self.interpolator.take_stop();
                self.desk.records[seat.place()].advance(Stage::StopTaken(first, second));
                Progress::Working
            }
            Stage::StopTaken(first, second) => {
                let _ = self.lock.leave(seat.board());
                self.desk.records[seat.place()].go(Standing::Leaving);
                let number = difference(first, second);
                self.panel.show(Reading::new(seat.board(), number));
                Progress::Shown(number)
            }
        }
    }

    pub(crate) fn do_step(&mut self, board: u8, bit: bool) -> Result<Progress, Refusal>
        ensures answers { result ≡ step_answer (lockwork Q.Lock Q.Ordered.own) I.Interpolator.FULL_SCALE (view Q.Lock.state I.Interpolator self.old) board bit }
        ensures leaves { view Q.Lock.state I.Interpolator self.new ≡ step_leaves (lockwork Q.Lock Q.Ordered.own) I.Interpolator.FULL_SCALE (view Q.Lock.state I.Interpolator self.old) board bit }
        ensures panel { self.new.panel ≡ painted self.old.panel (step_reading board result) }
        ensures interpolator { puts (view Q.Lock.state I.Interpolator self.old) board ≡ false → self.new.interpolator ≡ self.old.interpolator }
        ensures kept { is_ok result ≡ false → self.new ≡ self.old }
    {
        let seat = self.seat(board)?;
        match self.record(seat).standing {
            Standing::Out => Ok(Progress::Idle),
            Standing::Inside => Ok(self.step_inside(seat)),
            standing => {
                let _ = self.lock.step(board, bit);
                let progress = self.come_to(board, standing);
                self.desk.note(seat, progress);
                Ok(progress)
            }
        }
    }

    // The board, then its station, then the counts are judged. Whoever waits now stands ahead of the board that asks.
    pub(crate) fn do_ask(&mut self, board: u8, start: u32, stop: u32) -> Result<u32, Refusal>
        ensures answers { result ≡ ask_answer (lockwork Q.Lock Q.Ordered.own) I.Interpolator.FULL_SCALE (view Q.Lock.state I.Interpolator self.old) board start stop }
        ensures leaves { view Q.Lock.state I.Interpolator self.new ≡ ask_leaves (lockwork Q.Lock Q.Ordered.own) I.Interpolator.FULL_SCALE (view Q.Lock.state I.Interpolator self.old) board start stop result }
        ensures panel { self.new.panel ≡ self.old.panel }
        ensures interpolator { self.new.interpolator ≡ self.old.interpolator }
        ensures kept { is_ok result ≡ false → self.new ≡ self.old }
    {
        let seat = self.seat(board)?;
        let Standing::Out = self.record(seat).standing else {
            return Err(Refusal::NotOut);
        };
        within_scale::<I>(start)?;
        within_scale::<I>(stop)?;
        let waiting = self.desk.waiting();
        let _ = self.lock.start(board);
        self.desk.records[seat.place()].ask(start, stop);
        self.desk.sets[seat.place()] = waiting;
        Ok(waiting.number(self.boards))
    }

    // A board that is pulled stands ahead of nobody any more.
    pub(crate) fn do_pull(&mut self, board: u8) -> Result<(), Refusal>
        ensures answers { result ≡ pull_answer (lockwork Q.Lock Q.Ordered.own) I.Interpolator.FULL_SCALE (view Q.Lock.state I.Interpolator self.old) board }
        ensures leaves { view Q.Lock.state I.Interpolator self.new ≡ pull_leaves (lockwork Q.Lock Q.Ordered.own) I.Interpolator.FULL_SCALE (view Q.Lock.state I.Interpolator self.old) board result }
        ensures panel { self.new.panel ≡ self.old.panel }
        ensures interpolator { self.new.interpolator ≡ self.old.interpolator }
        ensures kept { is_ok result ≡ false → self.new ≡ self.old }
    {
        let seat = self.seat(board)?;
        match self.record(seat).standing {
            Standing::Out | Standing::Leaving => Err(Refusal::NotEngaged),
            _ => {
                let _ = self.lock.pull(board);
                self.desk.records[seat.place()].go(Standing::Leaving);
                self.desk.strike(seat);
                Ok(())
            }
        }
    }
}
