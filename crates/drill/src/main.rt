// Drill: many calls, drawn by a fixed rule, on every lock at every number of boards; the outcome is compared with what a
// second model of the rules wrote (tools/model.py).
#![tactic(auto)]

use cell::CellLock;
use line::Line;
use lock::{Boards, Call, Lock, MAX_BOARDS, Ordered, Refusal, Station};
use one_bit::OneBit;
use queue::Queue;
use std::alloc::{AllocError, Global};

// A line is printed after every so many calls, so many times.
const CALLS: u8 = 25;

const LINES: u8 = 12;

// Calls drawn by a fixed rule, so that the model can draw the same.
#[derive(Drop)]
struct Dice {
    seed: u32,
}

impl Dice {
    fn new(count: u8) -> Dice {
        Dice {
            seed: u32::from(count),
        }
    }

    // A number below 65,536: the upper half of a linear congruential generator.
    fn roll(&mut self) -> u32 {
        self.seed = self
            .seed
            .wrapping_mul(1_664_525)
            .wrapping_add(1_013_904_223);
        self.seed >> 16
    }

    // A call of one of the boards, or now and then of one that is not there; steps are the most frequent. The kind is a number
    // here alone, as it is drawn.
    fn call(&mut self, count: u8) -> Call {
        let kind = self.roll() % 16;
        let board = ((self.roll() % (u32::from(count) + 2)) & 0xff) as u8;
        let bit = self.roll() % 2 == 1;
        match kind {
            0 | 1 => Call::Start(board),
            2 => Call::Leave(board),
            3 => Call::Pull(board),
            _ => Call::Step(board, bit),
        }
    }
}

// One sign a board, as the drill prints it; `Display` would give the station's name.
fn station_letter(station: Result<Station, Refusal>) -> char {
    match station {
        Ok(Station::Out) => 'o',
        Ok(Station::Trying) => 't',
        Ok(Station::Inside) => 'I',
        Ok(Station::Leaving) => 'l',
        Err(_) => '?',
    }
}

// One sign a flag likewise.
fn line_letter(line: Result<Line, Refusal>) -> char {
    match line {
        Ok(Line::Low) => '_',
        Ok(Line::Rising) => '/',
        Ok(Line::High) => '^',
        Ok(Line::Falling) => '\\',
        Err(_) => '?',
    }
}

// A lock that is drilled, with what is printed of it.
trait Drilled: Lock + Drop {
    // The boards in order, a sign each.
    fn shown(&self, heap: Global, count: u8) -> Result<String, AllocError>;
}

// A text of one sign for each board.
fn signs<F: Fn(u8) -> char>(heap: Global, count: u8, sign: F) -> Result<String, AllocError>
    requires { F.IsAlwaysCallable sign }
{
    let mut text = String::new(heap);
    for board in 1..=count {
        text.push(sign(board))?;
    }
    Ok(text)
}

// The stations, and then the flags.
impl Drilled for OneBit {
    fn shown(&self, heap: Global, count: u8) -> Result<String, AllocError> {
        let stations = signs(heap, count, |board| station_letter(self.station(board)))?;
        let flags = signs(heap, count, |board| line_letter(self.flag(board)))?;
        format!(in heap; "{stations} {flags}")
    }
}

impl Drilled for CellLock {
    fn shown(&self, heap: Global, count: u8) -> Result<String, AllocError> {
        signs(heap, count, |board| station_letter(self.station(board)))
    }
}

// A board that waits past its doorway is told apart.
impl<L: Lock + Drop> Drilled for Queue<L> {
    fn shown(&self, heap: Global, count: u8) -> Result<String, AllocError> {
        signs(heap, count, |board| match self.waiting(board) {
            Ok(true) => 'w',
            _ => station_letter(self.station(board)),
        })
    }
}

// Makes some calls, and tells how many were refused.
fn some_calls<L: Lock>(lock: &mut L, dice: &mut Dice, count: u8) -> usize {
    (0..CALLS)
        .filter(|_| lock.perform(dice.call(count)).is_err())
        .count()
}

fn drill_lock<L: Drilled>(rt: &HostRuntime, name: &str, boards: Boards) -> anyhow::Result<()> {
    let count = boards.count();
    let mut dice = Dice::new(count);
    let mut lock = L::new(boards);
    for _ in 0..LINES {
        let refused = some_calls(&mut lock, &mut dice, count);
        let shown = lock.shown(rt.alloc(), count)?;
        println!(rt; "{name} {count} {refused:>2} {shown}")?;
    }
    Ok(())
}

fn drill(rt: &HostRuntime) -> anyhow::Result<()> {
    for boards in (1..=MAX_BOARDS as u8).filter_map(Boards::new) {
        drill_lock::<OneBit>(rt, "one-bit", boards)?;
        drill_lock::<CellLock>(rt, "cell", boards)?;
        drill_lock::<Queue<OneBit>>(rt, "queue on one-bit", boards)?;
        drill_lock::<Queue<CellLock>>(rt, "queue on cell", boards)?;
    }
    Ok(())
}

fn main(rt: HostRuntime) -> anyhow::Result<()> {
    drill(&rt)
}
