// The record of the summing interpolator: the start, and the sum of start and stop.
ghost use Rattle.std.specs.Prelude.{◌+◌, ◌≤◌};
ghost use Rattle.buyer.specs.Scale.{sum_scale};

// Both counts lie within full scale, so that the sum fits.
#[derive(Clone, Copy)]
pub struct Summed {
    pub(crate) start: u32,
    pub(crate) sum: u32,
    ghost within: { start ≤ sum_scale },
    ghost least: { start ≤ sum },
    ghost most: { sum ≤ start + sum_scale },
}
