// A list of events on an analyser in service: by the analyser's public calls, one after the other, with two lists that are filled.
#![tactic(auto)]

ghost use Rattle.std.specs.Prelude.{◌≡◌, ◌+◌, ◌*◌, false, [], map, length, is_ok, IfOk, MatchResult, OnOk};
ghost use Rattle.analyser.specs.Service.{Leads, queued, view};
ghost use Rattle.filling.specs.Lists.{free_places};
ghost use Rattle.queue.specs.Rule.{over};
ghost use Rattle.runs.specs.Events.{Performed, puts_by};
ghost use Rattle.runs.specs.Runs.{Ran, Served, filled, numbered, readings as readings_in, run_answer};
ghost use Rattle.service.specs.declared.answer.Sign.TheVariants.{Minus};
ghost use Rattle.service.specs.History.{answer_of, painted, reading_of, step_reading};
ghost use Rattle.service.specs.Rule.{lockwork, new_view};
ghost use Rattle.service.specs.Runs.{after_all, grown, next, painted_all, replies, reply};

mod reply;

use analyser::Analyser;
use filling::{Filling, Stamped};
use interpolator::Interpolator;
use lock::{FittingList, Lock, Ordered};
use panel::Reading;
use queue::Queue;
pub use reply::Reply;
use service::{Answer, Event, Progress, Refusal};

// The reading that a step put on the panel.
fn shown(board: u8, told: Result<Progress, Refusal>) -> Option<Reading>
    ensures { result ≡ step_reading board told }
{
    match told {
        Ok(Progress::Shown(number)) => Some(Reading::new(board, number)),
        _ => None,
    }
}

// One event: the call that it names is made. It carries the law on. Lock, full scale and view are written out in the clauses, since
// no definition can name the lock and the interpolator of a bound.
pub fn handle<Q: Ordered, I: Interpolator>(analyser: &mut Analyser<Q, I>, event: Event) -> Reply
    ensures answer { result.answer ≡ answer_of (reply (lockwork Q.Lock Q.Ordered.own) I.Interpolator.FULL_SCALE (view Q.Lock.state I.Interpolator analyser.old) event) }
    ensures shown { result.shown ≡ reading_of (reply (lockwork Q.Lock Q.Ordered.own) I.Interpolator.FULL_SCALE (view Q.Lock.state I.Interpolator analyser.old) event) }
    ensures leaves { view Q.Lock.state I.Interpolator analyser.new ≡ next (lockwork Q.Lock Q.Ordered.own) I.Interpolator.FULL_SCALE (view Q.Lock.state I.Interpolator analyser.old) event }
    ensures panel { analyser.new.panel ≡ painted analyser.old.panel (reading_of (reply (lockwork Q.Lock Q.Ordered.own) I.Interpolator.FULL_SCALE (view Q.Lock.state I.Interpolator analyser.old) event)) }
    ensures interpolator { puts_by (view Q.Lock.state I.Interpolator analyser.old) event ≡ false → analyser.new.interpolator ≡ analyser.old.interpolator }
    ensures kept { result.answer.sign ≡ Minus → analyser.new ≡ analyser.old }
    ensures law { Performed (lockwork Q.Lock Q.Ordered.own) Q.Lock.state I.Interpolator analyser.old event result.answer analyser.new }
{
    match event {
        Event::Ask { board, start, stop } => Reply {
            answer: Answer::of_ask(board, analyser.ask(board, start, stop)),
            shown: None,
        },
        Event::Step { board, bit } => {
            let told = analyser.step(board, bit);
            Reply {
                answer: Answer::of_step(board, told),
                shown: shown(board, told),
            }
        }
        Event::Pull { board } => Reply {
            answer: Answer::of_pull(board, analyser.pull(board)),
            shown: None,
        },
    }
}

// Goes through the events from the first to the last. Each answer, refused or not, is filled into the one list, and each reading
// shown into the other, both with the place of their event.
pub fn run<Q: Ordered, I: Interpolator>(
    analyser: &mut Analyser<Q, I>,
    events: &[Event],
    answers: &mut Filling<Stamped<Answer>>,
    readings: &mut Filling<Stamped<Reading>>,
) -> Result<(), filling::Refusal>
    ensures result { result ≡ run_answer (free_places answers.old.places.now answers.old.len) (free_places readings.old.places.now readings.old.len) (length events.now) }
    ensures leaves { MatchResult result (λ _. view Q.Lock.state I.Interpolator analyser.new ≡ after_all (lockwork Q.Lock Q.Ordered.own) I.Interpolator.FULL_SCALE (view Q.Lock.state I.Interpolator analyser.old) events.now) (λ _. analyser.new ≡ analyser.old) }
    ensures panel { MatchResult result (λ _. analyser.new.panel ≡ painted_all analyser.old.panel (replies (lockwork Q.Lock Q.Ordered.own) I.Interpolator.FULL_SCALE (view Q.Lock.state I.Interpolator analyser.old) events.now)) (λ _. analyser.new.panel ≡ analyser.old.panel) }
    ensures answers { MatchResult result (λ _. answers.new.places.now ≡ filled answers.old.places.now answers.old.len (numbered 0 (map answer_of (replies (lockwork Q.Lock Q.Ordered.own) I.Interpolator.FULL_SCALE (view Q.Lock.state I.Interpolator analyser.old) events.now)))) (λ _. answers.new ≡ answers.old) }
    ensures answers_len { MatchResult result (λ _. answers.new.len ≡ answers.old.len + length events.now) (λ _. answers.new.len ≡ answers.old.len) }
    ensures answers_lender { answers.new.places.ghost_name ≡ answers.old.places.ghost_name }
    ensures readings { MatchResult result (λ _. readings.new.places.now ≡ filled readings.old.places.now readings.old.len (readings_in 0 (replies (lockwork Q.Lock Q.Ordered.own) I.Interpolator.FULL_SCALE (view Q.Lock.state I.Interpolator analyser.old) events.now))) (λ _. readings.new ≡ readings.old) }
    ensures readings_len { MatchResult result (λ _. readings.new.len ≡ readings.old.len + length (readings_in 0 (replies (lockwork Q.Lock Q.Ordered.own) I.Interpolator.FULL_SCALE (view Q.Lock.state I.Interpolator analyser.old) events.now))) (λ _. readings.new.len ≡ readings.old.len) }
    ensures readings_lender { readings.new.places.ghost_name ≡ readings.old.places.ghost_name }
    ensures law { OnOk result (Ran (lockwork Q.Lock Q.Ordered.own) Q.Lock.state I.Interpolator analyser.old events.now analyser.new) }
{
    if answers.free() < events.len() || readings.free() < events.len() {
        return Err(filling::Refusal::NoFreePlace);
    }
    for (place, event) in events.iter().enumerate() {
        let reply = handle(analyser, *event);
        answers.push(Stamped::new(place, reply.answer))?;
        if let Some(reading) = reply.shown {
            readings.push(Stamped::new(place, reading))?;
        }
    }
    Ok(())
}

// Puts the list into service and goes through the events. What the clause `law` says is the whole promise to an outsider: it
// speaks of the events and of what was filled in, and of nothing that the analyser keeps.
pub fn serve<L: Lock + Drop, I: Interpolator + Drop>(
    list: FittingList,
    events: &[Event],
    answers: &mut Filling<Stamped<Answer>>,
    readings: &mut Filling<Stamped<Reading>>,
) -> Result<Analyser<Queue<L>, I>, filling::Refusal>
    ensures result { is_ok result ≡ is_ok (run_answer (free_places answers.old.places.now answers.old.len) (free_places readings.old.places.now readings.old.len) (length events.now)) }
    ensures law { IfOk result (λ a. Served list.boards.count I.Interpolator.FULL_SCALE (4 * list.boards.count + 4 + L.Lock.alone list.boards.count) events.now answers.old.places.now answers.old.len answers.new.places.now readings.old.places.now readings.old.len readings.new.places.now a.panel) }
    ensures leads { IfOk result (λ a. Leads (queued L.Lock) (over L.Lock.state) I.Interpolator list.boards (grown (queued L.Lock) I.Interpolator.FULL_SCALE (new_view (queued L.Lock) I.Interpolator.FULL_SCALE list.boards) [] events.now) a) }
    ensures answers { is_ok result ≡ false → answers.new ≡ answers.old }
    ensures answers_lender { answers.new.places.ghost_name ≡ answers.old.places.ghost_name }
    ensures readings { is_ok result ≡ false → readings.new ≡ readings.old }
    ensures readings_lender { readings.new.places.ghost_name ≡ readings.old.places.ghost_name }
{
    let mut analyser = Analyser::put_into_service(list);
    run(&mut analyser, events, answers, readings)?;
    Ok(analyser)
}
