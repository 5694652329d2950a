// The fitting list: the boards that an analyser is to have, fitted one by one.
ghost use Rattle.std.specs.Prelude.{◌≡◌, ◌<◌, false, ◌⊎◌, is_ok, MatchOption};
ghost use Rattle.lock.specs.Fitting.{fit_answered, fit_number, fitted};
ghost use Rattle.lock.specs.Most.{most};

use crate::boards::Boards;

// Why a board cannot be fitted.
#[derive(Clone, Copy, PartialEq, Eq, Debug)]
pub enum FitRefusal {
    // the list has as many boards as there can be
    Full,
}

// The number by which the refusal is told.
impl From<FitRefusal> for u8 {
    ghost from_gives = { λ refusal n. n ≡ fit_number refusal };

    fn from(refusal: FitRefusal) -> u8 {
        match refusal {
            FitRefusal::Full => 7,
        }
    }
}

// A list that is still being fitted. It is neither copied nor cloned: putting it into service uses it up.
#[derive(Drop)]
pub struct FittingList {
    boards: Boards,
}

impl FittingList {
    // A list begins with one board.
    pub fn begin() -> FittingList
        ensures { result.boards.count ≡ 1 }
    {
        FittingList {
            boards: Boards::one(),
        }
    }

    // A list to which so many boards are fitted, or nothing where that is none or too many.
    pub fn of(count: u8) -> Option<FittingList>
        ensures { MatchOption result ((count < 1) ⊎ (most < count)) (λ list. list.boards.count ≡ count) }
    {
        if count == 0 {
            return None;
        }
        let mut list = FittingList::begin();
        for fitted in 1..count {
            list.fit().ok()?;
        }
        Some(list)
    }

    // Fits one board more.
    pub fn fit(&mut self) -> Result<(), FitRefusal>
        ensures answers { result ≡ fit_answered self.old.boards.count }
        ensures leaves { self.new.boards.count ≡ fitted self.old.boards.count }
        ensures kept { is_ok result ≡ false → self.new ≡ self.old }
    {
        self.boards = self.boards.one_more().ok_or(FitRefusal::Full)?;
        Ok(())
    }

    // The number of boards fitted so far, for which a lock can be made.
    pub fn boards(&self) -> Boards
        ensures { result ≡ self.now.boards }
    {
        self.boards
    }
}
