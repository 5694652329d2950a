// The gap kind's record: the start, and how far the stop lies from it.
ghost use Rattle.std.specs.Prelude.{◌≡◌, ◌≤◌, true};
ghost use Rattle.interpolator.specs.Gaps.{gap_scale, stands, stop_at};

// The gap is the stop minus the start, below zero where the stop comes first. The facts say that
// the start, and the stop that comes of the two, lie from 0 to full scale.
#[derive(Clone, Copy)]
pub struct Gap {
    pub(crate) start: u32,
    pub(crate) gap: i64,
    ghost within: { start ≤ gap_scale },
    ghost whole: { stands start gap ≡ true },
    ghost reaches: { stop_at start gap ≤ gap_scale },
}
