// The cell lock, for backplanes with one cell: S is 1 and E is 1.
#![tactic(auto)]

ghost use Rattle.std.specs.Prelude.{false};
ghost use Rattle.backplane.proofs.Taken.{spares};
ghost use Rattle.backplane.specs.Rule.{taken};
ghost use Rattle.cell.specs.Keeps.{holds, nears, waits, within};
ghost use Rattle.cell.specs.Rule.{enters};

pub use backplane::Backplane;
use backplane::{HeldLock, Taking};

// A trying board's step takes a free cell and goes inside, or finds it taken and stays trying.
#[derive(Clone, Copy)]
pub struct Cell;

pub type CellLock = HeldLock<Cell>;

impl Taking for Cell {
    ghost tries = { taken };

    ghost enters = { enters };

    ghost early = { false };

    ghost to_enter = { λ h b. 1 };

    ghost alone = { 1 };

    ghost holds = { holds };

    ghost spares = { spares };

    ghost waits = { waits };

    ghost nears = { nears };

    ghost within = { within };

    fn try_to_enter(holder: &mut Option<u8>, board: u8) -> bool {
        let free = holder.is_none();
        if free {
            *holder = Some(board);
        }
        free
    }
}
