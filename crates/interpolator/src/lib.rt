// The meaning of an interpolator: two counts, start and stop, and what every implementation has to show.
#![tactic(auto)]

ghost use Rattle.std.specs.Prelude.{◌≡◌, ℕ, ◌≤◌, false, is_ok};
ghost use Rattle.interpolator.specs.Counts.{put, put_answered};

mod facts;
mod gap;
mod gap_kind;
mod refusal;
mod register;

pub use facts::{gap_accepts_full_scale, gap_refuses_one_more};
pub use gap::Gap;
pub use refusal::Refusal;
pub use register::Register;

// Two counts, both 0 when new. Putting one changes that one only; taking one tells it and changes nothing.
pub trait Interpolator: Sized {
    // The full scale: the greatest count that can be put.
    const FULL_SCALE: u32;

    // The same for the clauses: an implementation gives both, and the check proves them equal.
    ghost FULL_SCALE: { ℕ };

    // The two counts that a value stands for, whatever it keeps.
    ghost start: { Self → ℕ };

    ghost stop: { Self → ℕ };

    // Both counts are 0.
    fn new() -> Self
        ensures start { start result ≡ 0 }
        ensures stop { stop result ≡ 0 };

    // Four calls, and not two with a choice of the count: each is made at a moment of its own, and no caller chooses.

    // Puts the start and leaves the stop; above full scale it is refused, and the whole value stays.
    fn put_start(&mut self, count: u32) -> Result<(), Refusal>
        ensures answers { result ≡ put_answered FULL_SCALE count }
        ensures start { start self.new ≡ put FULL_SCALE count (start self.old) }
        ensures stop { stop self.new ≡ stop self.old }
        ensures kept { is_ok result ≡ false → self.new ≡ self.old };

    // Puts the stop and leaves the start, likewise.
    fn put_stop(&mut self, count: u32) -> Result<(), Refusal>
        ensures answers { result ≡ put_answered FULL_SCALE count }
        ensures start { start self.new ≡ start self.old }
        ensures stop { stop self.new ≡ put FULL_SCALE count (stop self.old) }
        ensures kept { is_ok result ≡ false → self.new ≡ self.old };

    // Tells the start, and changes nothing.
    fn take_start(&self) -> u32
        ensures tells { result ≡ start self.now }
        ensures kept { self.exit.now ≡ self.entry.now };

    // Tells the stop, and changes nothing.
    fn take_stop(&self) -> u32
        ensures tells { result ≡ stop self.now }
        ensures kept { self.exit.now ≡ self.entry.now };

    ghost bounded: { FULL_SCALE ≤ 4294967295 };
}

// Judges a count that is to be put, by a full scale. An implementation calls it with its own: a generic call at its own type
// would lead back to the implementation.
pub fn judge(full_scale: u32, count: u32) -> Result<(), Refusal>
    ensures { result ≡ put_answered full_scale count }
{
    if count <= full_scale {
        Ok(())
    } else {
        Err(Refusal::AboveFullScale)
    }
}

// Judges a count that is to be put: within the full scale of an interpolator, or refused.
pub fn within_scale<I: Interpolator>(count: u32) -> Result<(), Refusal>
    ensures { result ≡ put_answered I.Interpolator.FULL_SCALE count }
{
    judge(I::FULL_SCALE, count)
}

#[cfg(test)]
mod tests {
    use super::*;
    use std::process::Abort;
    use std::test::Fail;

    // Both counts are put, then each again by itself, then a start above full scale where there is one.
    fn exercise<I: Interpolator + Drop>(rt: &impl Abort, above: Option<u32>) -> Result<(), Fail> {
        let mut i = I::new();
        assert_eq!(rt; (i.take_start(), i.take_stop()), (0, 0));
        i.put_start(350)?;
        i.put_stop(100)?;
        assert_eq!(rt; (i.take_start(), i.take_stop()), (350, 100));
        i.put_start(0)?;
        assert_eq!(rt; (i.take_start(), i.take_stop()), (0, 100));
        i.put_stop(I::FULL_SCALE)?;
        assert_eq!(rt; (i.take_start(), i.take_stop()), (0, I::FULL_SCALE));
        if let Some(count) = above {
            assert_eq!(rt; i.put_start(count), Err(Refusal::AboveFullScale));
            assert_eq!(rt; (i.take_start(), i.take_stop()), (0, I::FULL_SCALE));
        }
        Ok(())
    }

    #[test]
    fn register_keeps_both(rt: HostRuntime) -> Result<(), Fail> {
        exercise::<Register>(&rt, None)
    }

    #[test]
    fn gap_keeps_both(rt: HostRuntime) -> Result<(), Fail> {
        exercise::<Gap>(&rt, Some(16_777_216))
    }
}
