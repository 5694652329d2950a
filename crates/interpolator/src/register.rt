// The register kind: it keeps both counts.
ghost use Rattle.std.proofs.Common.{lit≤};

use crate::Interpolator;
use crate::refusal::Refusal;

#[derive(Clone, Copy)]
pub struct Register {
    start: u32,
    stop: u32,
}

impl Interpolator for Register {
    const FULL_SCALE: u32 = 4_294_967_295;

    ghost FULL_SCALE = { 4294967295 };

    ghost start = { λ s. s.start };

    ghost stop = { λ s. s.stop };

    ghost bounded = { lit≤ tt };

    fn new() -> Register {
        Register { start: 0, stop: 0 }
    }

    // Full scale is the greatest count that there is, so no put is above it.
    fn put_start(&mut self, count: u32) -> Result<(), Refusal> {
        self.start = count;
        Ok(())
    }

    fn put_stop(&mut self, count: u32) -> Result<(), Refusal> {
        self.stop = count;
        Ok(())
    }

    fn take_start(&self) -> u32 {
        self.start
    }

    fn take_stop(&self) -> u32 {
        self.stop
    }
}
