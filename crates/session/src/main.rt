// A bench session: three boards are fitted, put into service over the one-bit lock and the register, and go through a list of
// events; every answer and the panel are printed. Then a buyer's own lock and interpolator are put into service in the same way.
#![tactic(auto)]

use analyser::Analyser;
use anyhow::anyhow;
use buyer::{LatchLock, Summed};
use interpolator::{Interpolator, Register};
use lock::{FitRefusal, FittingList, Lock, Ordered};
use one_bit::OneBit;
use queue::Queue;
use runs::handle;
use service::{Answer, Event, Standing};
use std::fmt;
use std::iter::repeat_n;

// Board 2 passes its doorway, then boards 1 and 3 ask and find it ahead of them. 2 goes inside and shows its number while the
// others contend; 3 is pulled while it waits, asks again, and is refused once; 1 shows its number, and then 3.
const BENCH: [(Event, u8); 24] = [
    (
        Event::Ask {
            board: 2,
            start: 350,
            stop: 100,
        },
        1,
    ),
    (
        Event::Step {
            board: 2,
            bit: false,
        },
        9,
    ),
    (
        Event::Ask {
            board: 1,
            start: 5,
            stop: 5,
        },
        1,
    ),
    (
        Event::Ask {
            board: 3,
            start: 0,
            stop: 4_294_967_295,
        },
        1,
    ),
    (
        Event::Step {
            board: 1,
            bit: true,
        },
        3,
    ),
    (
        Event::Step {
            board: 3,
            bit: true,
        },
        3,
    ),
    (
        Event::Step {
            board: 2,
            bit: true,
        },
        3,
    ),
    (
        Event::Step {
            board: 1,
            bit: false,
        },
        8,
    ),
    (
        Event::Step {
            board: 3,
            bit: false,
        },
        6,
    ),
    (
        Event::Ask {
            board: 1,
            start: 7,
            stop: 9,
        },
        1,
    ),
    (
        Event::Step {
            board: 2,
            bit: false,
        },
        4,
    ),
    (Event::Pull { board: 3 }, 1),
    (
        Event::Step {
            board: 2,
            bit: false,
        },
        3,
    ),
    (
        Event::Step {
            board: 3,
            bit: false,
        },
        2,
    ),
    (Event::Pull { board: 3 }, 1),
    (
        Event::Ask {
            board: 3,
            start: 0,
            stop: 4_294_967_295,
        },
        1,
    ),
    (
        Event::Step {
            board: 2,
            bit: false,
        },
        3,
    ),
    (
        Event::Step {
            board: 1,
            bit: false,
        },
        8,
    ),
    (
        Event::Step {
            board: 3,
            bit: true,
        },
        10,
    ),
    (
        Event::Step {
            board: 1,
            bit: false,
        },
        7,
    ),
    (
        Event::Step {
            board: 3,
            bit: false,
        },
        15,
    ),
    (
        Event::Ask {
            board: 4,
            start: 1,
            stop: 1,
        },
        1,
    ),
    (
        Event::Step {
            board: 0,
            bit: true,
        },
        1,
    ),
    (Event::Pull { board: 1 }, 1),
];

// Two boards ask in turn; the second finds the first ahead of it.
const BUYER: [(Event, u8); 6] = [
    (
        Event::Ask {
            board: 1,
            start: 120,
            stop: 1_000,
        },
        1,
    ),
    (
        Event::Step {
            board: 1,
            bit: false,
        },
        10,
    ),
    (
        Event::Ask {
            board: 2,
            start: 1_000,
            stop: 120,
        },
        1,
    ),
    (
        Event::Step {
            board: 2,
            bit: false,
        },
        11,
    ),
    (
        Event::Step {
            board: 1,
            bit: false,
        },
        11,
    ),
    (
        Event::Step {
            board: 2,
            bit: false,
        },
        13,
    ),
];

// Three boards in service.
fn three_boards<L: Lock, I: Interpolator>() -> Result<Analyser<Queue<L>, I>, FitRefusal> {
    let mut list = FittingList::begin();
    list.fit()?;
    list.fit()?;
    Ok(Analyser::put_into_service(list))
}

// The station of a board, for a table: one that is not there has none. The words are those of this table alone.
#[derive(Drop)]
struct Place(Option<Standing>);

impl fmt::Display for Place {
    fn fmt<W: fmt::Write>(&self, f: &mut fmt::Formatter<W>) -> fmt::Result {
        match self.0 {
            Some(standing) => standing.fmt(f),
            None => f.pad("none"),
        }
    }
}

fn place_of<Q: Ordered, I: Interpolator>(analyser: &Analyser<Q, I>, board: u8) -> Place {
    Place(analyser.station(board).ok())
}

// The set ahead of a board; 0 of one that is not there.
fn ahead<Q: Ordered, I: Interpolator>(analyser: &Analyser<Q, I>, board: u8) -> u32 {
    analyser.ahead(board).unwrap_or(0)
}

fn print_row<Q: Ordered, I: Interpolator>(
    rt: &HostRuntime,
    no: usize,
    analyser: &Analyser<Q, I>,
    answer: Answer,
) -> anyhow::Result<()> {
    let Answer {
        letter,
        board,
        sign,
        number,
        value,
    } = answer;
    let (first, second, third) = (
        place_of(analyser, 1),
        place_of(analyser, 2),
        place_of(analyser, 3),
    );
    let (a, b, c) = (ahead(analyser, 1), ahead(analyser, 2), ahead(analyser, 3));
    let repaints = analyser.repaints();
    // zeros where there is no reading yet
    let (shown, by) = analyser
        .reading()
        .map_or((0, 0), |reading| (reading.number(), reading.board()));
    println!(rt;
        "{no:>3}  {letter} {board}  {sign}{number}  {value:>11}  {first:<7} {second:<7} {third:<7}  {a} {b} {c}  {by} {shown:>11} {repaints}"
    )?;
    Ok(())
}

fn hold<L: Lock + Drop, I: Interpolator + Drop>(
    rt: &HostRuntime,
    title: &str,
    turns: &[(Event, u8)],
) -> anyhow::Result<()> {
    let Ok(mut analyser) = three_boards::<L, I>() else {
        return Err(anyhow!("three boards are too many"));
    };
    println!(rt; "{title}")?;
    println!(rt;
        " no  call answer     value  board 1 board 2 board 3  ahead  panel: board, number, repaints"
    )?;
    let events = turns
        .iter()
        .flat_map(|(event, times)| repeat_n(*event, usize::from(*times)));
    for (no, event) in (1..).zip(events) {
        let answer = handle(&mut analyser, event).answer;
        print_row(rt, no, &analyser, answer)?;
    }
    Ok(())
}

fn session(rt: &HostRuntime) -> anyhow::Result<()> {
    hold::<OneBit, Register>(rt, "One-bit lock and register", &BENCH)?;
    println!(rt; "")?;
    hold::<LatchLock, Summed>(rt, "A buyer's latch lock and interpolator", &BUYER)
}

fn main(rt: HostRuntime) -> anyhow::Result<()> {
    session(&rt)
}
