// What a step of a board answers.
ghost use Rattle.std.specs.Prelude.{◌≡◌};
ghost use Rattle.service.specs.Numbers.{told_by, value_of};

#[derive(Clone, Copy)]
pub enum Progress {
    // the board is out
    Idle,
    // none of the others
    Working,
    // it passed its doorway
    Passed,
    // it went inside
    Entered,
    // it showed this number, and is leaving
    Shown(i64),
    // it came out
    CameOut,
}

// The number by which the answer is told.
impl From<Progress> for u8 {
    ghost from_gives = { λ progress n. n ≡ told_by progress };

    fn from(progress: Progress) -> u8 {
        match progress {
            Progress::Idle => 0,
            Progress::Working => 1,
            Progress::Passed => 2,
            Progress::Entered => 3,
            Progress::Shown(_) => 4,
            Progress::CameOut => 5,
        }
    }
}

impl Progress {
    // The value that goes with the answer: the number shown, if one was.
    pub(crate) fn value(self) -> i64
        ensures { result ≡ value_of self }
    {
        match self {
            Progress::Shown(number) => number,
            _ => 0,
        }
    }
}
