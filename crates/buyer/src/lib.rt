// Examples of what a buyer fits: an interpolator that keeps the start and the sum of both counts, and the latch lock.
#![tactic(auto)]

ghost use Rattle.std.specs.Prelude.{◌≡◌, ◌-◌, false, is_ok};
ghost use Rattle.buyer.specs.Intervals.{told};
ghost use Rattle.buyer.specs.Scale.{sum_scale};
ghost use Rattle.std.proofs.Common.{lit≤};

mod latch;
mod summed;

pub use backplane::Backplane;
use interpolator::{Interpolator, Refusal, judge, within_scale};
pub use latch::{Latch, LatchLock};
pub use summed::Summed;

impl Interpolator for Summed {
    const FULL_SCALE: u32 = 99_999_999;

    ghost FULL_SCALE = { sum_scale };

    ghost start = { λ s. s.start };

    ghost stop = { λ s. s.sum - s.start };

    ghost bounded = { lit≤ tt };

    fn new() -> Summed {
        Summed { start: 0, sum: 0 }
    }

    // The sum moves with the start, so that the stop stays.
    fn put_start(&mut self, count: u32) -> Result<(), Refusal> {
        judge(Self::FULL_SCALE, count)?;
        *self = Summed {
            start: count,
            sum: count + self.take_stop(),
        };
        Ok(())
    }

    fn put_stop(&mut self, count: u32) -> Result<(), Refusal> {
        judge(Self::FULL_SCALE, count)?;
        self.sum = self.start + count;
        Ok(())
    }

    fn take_start(&self) -> u32 {
        self.start
    }

    fn take_stop(&self) -> u32 {
        self.sum - self.start
    }
}

// The stop minus the start, through any interpolator; both counts are judged before one is put.
pub fn interval<I: Interpolator>(
    interpolator: &mut I,
    start: u32,
    stop: u32,
) -> Result<i64, Refusal>
    ensures tells { result ≡ told I.Interpolator.FULL_SCALE start stop }
    ensures kept { is_ok result ≡ false → interpolator.new ≡ interpolator.old }
{
    within_scale::<I>(start)?;
    within_scale::<I>(stop)?;
    interpolator.put_start(start)?;
    interpolator.put_stop(stop)?;
    let first = interpolator.take_start();
    let second = interpolator.take_stop();
    Ok(i64::from(second) - i64::from(first))
}

#[cfg(test)]
mod tests {
    use super::*;
    use interpolator::{Gap, Register};

    // The interval of 350 to 100, and what comes of a stop of 20,000,000.
    fn both<I: Interpolator + Drop>() -> (Result<i64, Refusal>, Result<i64, Refusal>) {
        let mut interpolator = I::new();
        let short = interval(&mut interpolator, 350, 100);
        let long = interval(&mut interpolator, 0, 20_000_000);
        (short, long)
    }

    #[test]
    fn every_kind_tells_the_interval(rt: HostRuntime) {
        assert_eq!(rt; both::<Register>(), (Ok(-250), Ok(20_000_000)));
        assert_eq!(rt; both::<Gap>(), (Ok(-250), Err(Refusal::AboveFullScale)));
        assert_eq!(rt; both::<Summed>(), (Ok(-250), Ok(20_000_000)));
    }
}
