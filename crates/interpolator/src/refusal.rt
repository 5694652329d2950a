// Why an interpolator refuses a call.
ghost use Rattle.std.specs.Prelude.{◌≡◌};
ghost use Rattle.interpolator.specs.Numbers.{refused_by};

#[derive(Clone, Copy, PartialEq, Eq, Debug)]
pub enum Refusal {
    // a put of a count above full scale
    AboveFullScale,
}

// The number by which the refusal is told.
impl From<Refusal> for u8 {
    ghost from_gives = { λ refusal n. n ≡ refused_by refusal };

    fn from(refusal: Refusal) -> u8 {
        match refusal {
            Refusal::AboveFullScale => 3,
        }
    }
}
