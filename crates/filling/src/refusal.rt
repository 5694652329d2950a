// Why a filling list refuses a record.
ghost use Rattle.std.specs.Prelude.{◌≡◌};
ghost use Rattle.filling.specs.Numbers.{refused_by};

#[derive(Clone, Copy, PartialEq, Eq, Debug)]
pub enum Refusal {
    // no free place is left
    NoFreePlace,
}

// The number by which the refusal is told.
impl From<Refusal> for u8 {
    ghost from_gives = { λ refusal n. n ≡ refused_by refusal };

    fn from(refusal: Refusal) -> u8 {
        match refusal {
            Refusal::NoFreePlace => 6,
        }
    }
}
