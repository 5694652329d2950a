// A table with one record for each board.
ghost use Rattle.std.specs.Prelude.{◌≡◌, ◌<◌, IfOk, IfSome};
ghost use Rattle.lock.specs.Stations.{place_of};
ghost use Rattle.lock.specs.Most.{most};
ghost use Rattle.lock.specs.Tables.{asked, filled, judged, placed, written};

use crate::boards::{Boards, MAX_BOARDS};
use crate::station::Refusal;

// Where a board stands in an array with a place for every board that there can be. A place is a bare index, so there is no
// type of its own to convert into.
pub fn place_of(board: u8) -> Option<usize>
    ensures tells { result ≡ place_of board }
    ensures within { IfSome result (λ i. i < most) }
{
    let place = usize::from(board);
    if 1 <= place && place <= MAX_BOARDS {
        Some(place - 1)
    } else {
        None
    }
}

// There is room for as many boards as there can be, in an array, as there is no heap; the first N records are in use.
#[derive(Clone, Copy)]
pub struct Table<T> {
    pub(crate) boards: Boards,
    pub(crate) records: [T; MAX_BOARDS],
}

impl<T: Copy> Table<T> {
    // The same record for every board.
    pub fn new(boards: Boards, first: T) -> Table<T>
        ensures { result ≡ filled boards first }
    {
        Table {
            boards,
            records: [first; MAX_BOARDS],
        }
    }

    pub fn boards(&self) -> Boards
        ensures { result ≡ self.now.boards }
    {
        self.boards
    }

    // The place of a board's record.
    fn place(&self, board: u8) -> Result<usize, Refusal>
        ensures tells { result ≡ placed self.now board }
        ensures within { IfOk result (λ i. i < most) }
    {
        let seat = self.boards.seat(board).ok_or(Refusal::NoSuchBoard)?;
        Ok(seat.place())
    }

    // The record of a board.
    pub fn record(&self, board: u8) -> Result<T, Refusal>
        ensures { (d : T) → result ≡ asked self.now board d }
    {
        let place = self.place(board)?;
        Ok(self.records[place])
    }

    // Writes the record of a board, and no other.
    pub fn put(&mut self, board: u8, record: T) -> Result<(), Refusal>
        ensures answers { result ≡ judged self.old board }
        ensures leaves { self.new ≡ written self.old board «record» }
    {
        let place = self.place(board)?;
        self.records[place] = record;
        Ok(())
    }
}
