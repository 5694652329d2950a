// Why an analyser in service refuses a call.
ghost use Rattle.std.specs.Prelude.{◌≡◌};
ghost use Rattle.service.specs.Numbers.{passed_on, refused_by};

#[derive(Clone, Copy, PartialEq, Eq, Debug)]
pub enum Refusal {
    // the board is 0 or above N
    NoSuchBoard,
    // an ask of a board that is not out
    NotOut,
    // an ask with a count above the interpolator's full scale
    AboveFullScale,
    // a pull of a board that is out or leaving
    NotEngaged,
}

// The number by which the refusal is told.
impl From<Refusal> for u8 {
    ghost from_gives = { λ refusal n. n ≡ refused_by refusal };

    fn from(refusal: Refusal) -> u8 {
        match refusal {
            Refusal::NoSuchBoard => 1,
            Refusal::NotOut => 2,
            Refusal::AboveFullScale => 3,
            Refusal::NotEngaged => 4,
        }
    }
}

// What an interpolator refuses of a count, an analyser refuses by a refusal of its own, so that none of an interpolator's
// reaches further.
impl From<interpolator::Refusal> for Refusal {
    ghost from_gives = { λ refusal result. result ≡ passed_on refusal };

    fn from(_: interpolator::Refusal) -> Refusal {
        Refusal::AboveFullScale
    }
}
