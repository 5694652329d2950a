// The number of boards of an analyser: from one to the maximum.
ghost use Rattle.std.specs.Prelude.{◌≡◌, ◌+◌, ◌-◌, ◌<◌, ◌≤◌, ◌⊎◌, true, false, MatchOption};
ghost use Rattle.lock.specs.Most.{most};
ghost use Rattle.lock.specs.Others.{other_after};
ghost use Rattle.lock.specs.Stations.{among};

// The most boards that one analyser has; `most` says the same to the clauses.
pub const MAX_BOARDS: usize = 8;

// How many boards there are, numbered from 1 up to this.
#[derive(Clone, Copy)]
pub struct Boards {
    pub(crate) count: u8,
    ghost some: { 1 ≤ count },
    ghost few: { count ≤ most },
}

impl Boards {
    // So many boards, or nothing where there are none or too many, as `NonZeroU8::new` has it: an error
    // would tell no more.
    pub fn new(count: u8) -> Option<Boards>
        ensures { MatchOption result ((count < 1) ⊎ (most < count)) (λ n. n.count ≡ count) }
    {
        if count >= 1 && usize::from(count) <= MAX_BOARDS {
            Some(Boards { count })
        } else {
            None
        }
    }

    // The number of boards of a list that begins.
    pub(crate) fn one() -> Boards
        ensures { result.count ≡ 1 }
    {
        Boards { count: 1 }
    }

    // One board more, where there is room for it.
    pub(crate) fn one_more(self) -> Option<Boards>
        ensures { MatchOption result (most ≤ self.count) (λ n. (self.count < most) × (n.count ≡ self.count + 1)) }
    {
        Boards::new(self.count + 1)
    }

    pub fn count(self) -> u8
        ensures { result ≡ self.count }
    {
        self.count
    }

    // The seat of a board, if there is such a board.
    pub fn seat(self, board: u8) -> Option<Seat>
        ensures { MatchOption result (among self.count board ≡ false) (λ s. (s.board ≡ board) × (among self.count board ≡ true)) }
    {
        if 1 <= board && board <= self.count {
            Some(Seat { board })
        } else {
            None
        }
    }

    // The boards but one.
    pub fn others(self, own: u8) -> Others
        ensures boards { result.boards ≡ self }
        ensures own { result.own ≡ own }
    {
        Others { boards: self, own }
    }

    // The most boards that there can be.
    pub fn most() -> usize
        ensures { result ≡ most }
    {
        MAX_BOARDS
    }
}

// The boards but a board's own, as that board goes through them in rising order.
#[derive(Clone, Copy)]
pub struct Others {
    pub(crate) boards: Boards,
    pub(crate) own: u8,
}

impl Others {
    // The board that is left out.
    pub fn own(self) -> u8
        ensures { result ≡ self.own }
    {
        self.own
    }

    // The lowest of the others above j.
    pub fn after(self, j: u8) -> Option<u8>
        ensures { result ≡ other_after self.boards.count self.own j }
    {
        let Others { boards, own } = self;
        let past = if j < boards.count && j + 1 == own {
            own
        } else {
            j
        };
        if past < boards.count {
            Some(past + 1)
        } else {
            None
        }
    }
}

// The number of a board that is there, once it has been judged: it lies from 1 to the maximum.
#[derive(Clone, Copy)]
pub struct Seat {
    pub(crate) board: u8,
    ghost low: { 1 ≤ board },
    ghost high: { board ≤ most },
}

impl Seat {
    // The board's number.
    pub fn board(self) -> u8
        ensures { result ≡ self.board }
    {
        self.board
    }

    // The board's place in an array with a place for every board that there can be.
    pub fn place(self) -> usize
        ensures place { result ≡ self.board - 1 }
        ensures within { result < most }
    {
        usize::from(self.board) - 1
    }
}
