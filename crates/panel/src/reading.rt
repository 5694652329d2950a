// A reading: the number that a board shows on the panel.
ghost use Rattle.std.specs.Prelude.{◌≡◌, true};
ghost use Rattle.panel.specs.Readings.{alike, made, told};

// The number is in ticks, and may lie below zero. Two readings are equal where their numbers are, whichever boards showed them.
#[derive(Clone, Copy)]
#[derive_where(PartialEq, Eq)]
pub struct Reading {
    #[derive_where(skip(EqHashOrd))]
    board: u8,
    number: i64,
}

impl Reading {
    pub fn new(board: u8, number: i64) -> Reading
        ensures { result ≡ made board number }
    {
        Reading { board, number }
    }

    // The board that showed it.
    pub fn board(self) -> u8
        ensures { result ≡ self.board }
    {
        self.board
    }

    // The number that it shows.
    pub fn number(self) -> i64
        ensures { result ≡ told self }
    {
        self.number
    }

    // Whether two readings are the same, as the panel's rule calls what `==` tells: their numbers are equal, whichever boards
    // showed them.
    pub fn same(self, other: Reading) -> bool
        ensures tells { result ≡ alike self other }
        ensures only { result ≡ true → told self ≡ told other }
        ensures always { told self ≡ told other → result ≡ true }
    {
        self == other
    }
}
