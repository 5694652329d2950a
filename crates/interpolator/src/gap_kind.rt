// The gap kind: it keeps the start and the signed gap to the stop.
ghost use Rattle.interpolator.specs.Gaps.{gap_scale, stop_at};
ghost use Rattle.std.proofs.Common.{lit≤};

use crate::gap::Gap;
use crate::refusal::Refusal;
use crate::{Interpolator, judge};

impl Interpolator for Gap {
    const FULL_SCALE: u32 = 16_777_215;

    ghost FULL_SCALE = { gap_scale };

    ghost start = { λ s. s.start };

    ghost stop = { λ s. stop_at s.start s.gap };

    ghost bounded = { lit≤ tt };

    fn new() -> Gap {
        Gap { start: 0, gap: 0 }
    }

    // The gap moves against the start, so that the stop stays.
    fn put_start(&mut self, count: u32) -> Result<(), Refusal> {
        judge(Self::FULL_SCALE, count)?;
        let stop = self.take_stop();
        *self = Gap {
            start: count,
            gap: i64::from(stop) - i64::from(count),
        };
        Ok(())
    }

    fn put_stop(&mut self, count: u32) -> Result<(), Refusal> {
        judge(Self::FULL_SCALE, count)?;
        self.gap = i64::from(count) - i64::from(self.start);
        Ok(())
    }

    fn take_start(&self) -> u32 {
        self.start
    }

    fn take_stop(&self) -> u32 {
        (i64::from(self.start) + self.gap) as u32
    }
}
