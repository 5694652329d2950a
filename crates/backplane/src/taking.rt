// How a trying board comes by the one thing of its backplane, and goes inside.
ghost use Rattle.std.specs.Prelude.{◌≡◌, ℕ, Bool, Option};
ghost use Rattle.backplane.specs.Taking.{HoldsInside, Nears, Sound, SparesOthers, WaitsWith, Within};

// Reading who has the thing and taking it is one operation, so one step of a trying board. An implementation says what that
// step does; all else is the lock's.
pub trait Taking {
    // Who has the thing after a step of a trying board.
    ghost tries: { Option ℕ → ℕ → Option ℕ };

    // Whether that step takes the board inside.
    ghost enters: { Option ℕ → ℕ → Bool };

    // Whether a board may have the thing while it is still trying.
    ghost early: { Bool };

    // The own steps that take a trying board inside, while all others are out.
    ghost to_enter: { Option ℕ → ℕ → ℕ };

    // S: the most of them.
    ghost alone: { ℕ };

    // Makes the step of a trying board, and tells whether the board goes inside.
    fn try_to_enter(holder: &mut Option<u8>, board: u8) -> bool
        ensures leaves { holder.new ≡ tries holder.old board }
        ensures tells { result ≡ enters holder.old board };

    ghost holds: { HoldsInside tries enters };

    ghost spares: { SparesOthers tries };

    ghost waits: { WaitsWith tries enters early };

    ghost nears: { Nears tries enters early to_enter };

    ghost within: { Within to_enter alone };

    // All of these together, from which the lock is proved.
    ghost sound: { Sound tries enters early to_enter alone } = { record { holds = holds; spares = spares; waits = waits; nears = nears; within = within } };
}
