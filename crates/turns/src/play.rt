// Calls on a one-bit lock, one after the other, each with what it did.
ghost use Rattle.std.specs.Prelude.{◌≡◌, ℕ, take, IfOk};
ghost use Rattle.lock.specs.Runs.{run};
ghost use Rattle.lock.specs.Stations.{AtMostOne};
ghost use Rattle.one_bit.specs.Rule.{after, fresh, seat, shown};
ghost use Rattle.turns.specs.Rows.{row_of, rows_of};

use crate::row::Row;
use line::Line;
use lock::{Boards, Call, Lock};
use one_bit::OneBit;
use std::alloc::{AllocError, Global};

// The flag of a board; one that is not there drives no line.
fn flag(lock: &OneBit, board: u8) -> Line
    ensures { result ≡ (seat lock.now.lines board).flag }
{
    lock.flag(board).unwrap_or(Line::Low)
}

// Makes one call, and tells what it did.
pub fn turn(lock: &mut OneBit, call: Call) -> Row
    ensures tells { result ≡ row_of lock.old.lines call }
    ensures leaves { lock.new.lines ≡ after lock.old.lines call }
{
    let answer = lock.perform(call);
    let station = lock.station(call.board());
    Row {
        call,
        answer,
        flags: [flag(lock, 1), flag(lock, 2), flag(lock, 3)],
        station,
    }
}

// Makes a new lock and every call of a list on it. Whatever the calls are, at no moment are two boards inside.
pub fn play(heap: Global, boards: Boards, calls: &[Call]) -> Result<Vec<Row>, AllocError>
    ensures tells { IfOk result (λ v. v.items ≡ rows_of (fresh boards) calls.now) }
    ensures excludes { (k : ℕ) → AtMostOne (shown (run after (fresh boards) (take k calls.now))) }
{
    let mut lock = OneBit::new(boards);
    let mut rows = Vec::new(heap);
    for call in calls {
        rows.push(turn(&mut lock, *call))?;
    }
    Ok(rows)
}
