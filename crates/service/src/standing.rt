// The station of a board in service: where it stands, by its own calls.
ghost use Rattle.std.specs.Prelude.{Some};
ghost use Rattle.std.specs.Fmt.{padded};
ghost use Rattle.service.specs.Names.{standing_name};

use std::fmt;

#[derive(Clone, Copy, PartialEq, Eq, Debug)]
pub enum Standing {
    Out,
    // from its ask on, until it has told the others that it waits
    Doorway,
    // past its doorway, and not yet inside
    Waiting,
    // at the interpolator
    Inside,
    Leaving,
}

impl fmt::Display for Standing {
    ghost output = { λ standing. Some (standing_name standing) };

    ghost styled_output = { λ standing spec. Some (padded spec (standing_name standing)) };

    fn fmt<W: fmt::Write>(&self, f: &mut fmt::Formatter<W>) -> fmt::Result {
        f.pad(match self {
            Standing::Out => "out",
            Standing::Doorway => "doorway",
            Standing::Waiting => "waiting",
            Standing::Inside => "inside",
            Standing::Leaving => "leaving",
        })
    }
}
