// Three boards take turns, on fixed schedules: over the one-bit lock, each call printed with what it did, and over the queue
// layer on it, where they go inside in the order in which they passed their doorways.
#![tactic(auto)]

mod play;
mod row;

use anyhow::anyhow;
use lock::{Boards, Call, Lock, Ordered, Refusal, Station};
use one_bit::OneBit;
use play::play;
use queue::Queue;
use row::Row;
use std::fmt;

// Boards 1 and 2 contend, and 2 gives way; 1 reads 2's flag in change at both bits. Board 3 waits for 1, a lower board,
// and 2 is pulled while it raises its flag. Then some calls are refused, and 2 waits for 3, a higher board.
const SCHEDULE: [Call; 49] = [
    Call::Start(1),
    Call::Start(2),
    Call::Step(1, false),
    Call::Step(2, false),
    Call::Step(1, false),
    Call::Step(2, false),
    Call::Step(2, false),
    Call::Step(1, true),
    Call::Step(2, false),
    Call::Step(1, true),
    Call::Step(1, false),
    Call::Step(1, false),
    Call::Start(3),
    Call::Step(3, false),
    Call::Step(3, false),
    Call::Step(3, true),
    Call::Step(2, true),
    Call::Step(3, true),
    Call::Step(3, false),
    Call::Step(3, false),
    Call::Leave(1),
    Call::Step(1, false),
    Call::Step(3, true),
    Call::Step(3, false),
    Call::Step(1, false),
    Call::Step(2, false),
    Call::Step(2, false),
    Call::Pull(2),
    Call::Step(3, false),
    Call::Step(3, false),
    Call::Step(3, false),
    Call::Step(2, false),
    Call::Step(3, false),
    Call::Start(2),
    Call::Start(3),
    Call::Leave(2),
    Call::Pull(1),
    Call::Start(4),
    Call::Step(2, false),
    Call::Step(2, false),
    Call::Step(2, false),
    Call::Step(2, true),
    Call::Leave(3),
    Call::Step(3, false),
    Call::Step(3, false),
    Call::Step(2, false),
    Call::Leave(2),
    Call::Step(2, false),
    Call::Step(2, false),
];

// Over the queue layer on the one-bit lock, each call so many times: board 2 passes its doorway before 1 is started, so 1
// waits for it, though its number is lower; 3, started last, is in its doorway, is pulled, and starts again behind 1.
const QUEUED: [(Call, u8); 21] = [
    (Call::Start(2), 1),
    (Call::Step(2, false), 7),
    (Call::Step(2, false), 1),
    (Call::Start(1), 1),
    (Call::Step(1, false), 9),
    (Call::Step(1, true), 1),
    (Call::Start(3), 1),
    (Call::Step(3, true), 3),
    (Call::Pull(3), 1),
    (Call::Step(3, false), 1),
    (Call::Step(1, true), 20),
    (Call::Start(3), 1),
    (Call::Step(3, false), 10),
    (Call::Step(2, false), 5),
    (Call::Leave(2), 1),
    (Call::Step(2, false), 4),
    (Call::Step(3, false), 20),
    (Call::Step(1, false), 8),
    (Call::Leave(1), 1),
    (Call::Step(1, false), 4),
    (Call::Step(3, false), 10),
];

// Where a board stands, for a table: a dash for one that is not there. Over the queue layer a trying board is in its doorway, or waits.
#[derive(Drop)]
enum Place {
    At(Station),
    Doorway,
    Waiting,
    Nowhere,
}

impl From<Result<Station, Refusal>> for Place {
    fn from(station: Result<Station, Refusal>) -> Place {
        station.map_or(Place::Nowhere, Place::At)
    }
}

impl fmt::Display for Place {
    fn fmt<W: fmt::Write>(&self, f: &mut fmt::Formatter<W>) -> fmt::Result {
        match self {
            Place::At(station) => station.fmt(f),
            Place::Doorway => f.pad("doorway"),
            Place::Waiting => f.pad("waiting"),
            Place::Nowhere => f.pad("-"),
        }
    }
}

// What is called, of which board, and with which bit: three columns of the table, so three texts and not one.
fn call_parts(call: Call) -> (&'static str, u8, &'static str) {
    match call {
        Call::Start(board) => ("start", board, "-"),
        Call::Step(board, true) => ("step", board, "1"),
        Call::Step(board, false) => ("step", board, "0"),
        Call::Leave(board) => ("leave", board, "-"),
        Call::Pull(board) => ("pull", board, "-"),
    }
}

// The number by which a call was refused, 0 where it was accepted, as the column has it.
fn refused_by(answer: Result<(), Refusal>) -> u8 {
    answer.err().map_or(0, u8::from)
}

fn print_row(rt: &impl Print, place: usize, row: Row) -> anyhow::Result<()> {
    let (name, board, bit) = call_parts(row.call);
    let refused = refused_by(row.answer);
    let [first, second, third] = row.flags;
    let station = Place::from(row.station);
    println!(rt;
        "{place:>3}  {name:<5}  {board:>5}  {bit:>3}  {refused:>7}  {first:<7}  {second:<7}  {third:<7}  {station}"
    )?;
    Ok(())
}

fn standing(lock: &Queue<OneBit>, board: u8) -> Place {
    match (lock.station(board), lock.waiting(board)) {
        (Ok(Station::Trying), Ok(false)) => Place::Doorway,
        (Ok(Station::Trying), _) => Place::Waiting,
        (station, _) => station.into(),
    }
}

// Makes a call so many times, and tells the last answer.
fn perform_times(lock: &mut Queue<OneBit>, call: Call, times: u8) -> Result<(), Refusal> {
    let mut answer = Ok(());
    for _ in 0..times {
        answer = lock.perform(call);
    }
    answer
}

fn print_queued(
    rt: &impl Print,
    lock: &Queue<OneBit>,
    call: Call,
    times: u8,
    answer: Result<(), Refusal>,
) -> anyhow::Result<()> {
    let (name, board, _) = call_parts(call);
    let refused = refused_by(answer);
    let first = standing(lock, 1);
    let second = standing(lock, 2);
    let third = standing(lock, 3);
    println!(rt;
        "{name:<5}  {board:>5}  {times:>5}  {refused:>7}  {first:<7}  {second:<7}  {third:<7}"
    )?;
    Ok(())
}

fn take_turns_in_order(rt: &HostRuntime, boards: Boards) -> anyhow::Result<()> {
    println!(rt; "\ncall   board  times  refused  board 1  board 2  board 3")?;
    let mut lock: Queue<OneBit> = Queue::new(boards);
    for (call, times) in QUEUED {
        let answer = perform_times(&mut lock, call, times);
        print_queued(rt, &lock, call, times, answer)?;
    }
    Ok(())
}

fn take_turns(rt: &HostRuntime) -> anyhow::Result<()> {
    let Some(boards) = Boards::new(3) else {
        return Err(anyhow!("three boards are too many"));
    };
    println!(rt; " no  call   board  bit  refused  flag 1   flag 2   flag 3   station")?;
    let rows = play(rt.alloc(), boards, &SCHEDULE)?;
    for (place, row) in (1..).zip(&rows) {
        print_row(rt, place, *row)?;
    }
    take_turns_in_order(rt, boards)
}

fn main(rt: HostRuntime) -> anyhow::Result<()> {
    take_turns(&rt)
}
