// Facts of the gap kind's rule, on its code, at every gap interpolator: 16,777,215 is accepted, 16,777,216 refused.
ghost use Rattle.std.specs.Prelude.{◌≡◌, Ok, Err};
ghost use Rattle.interpolator.specs.Gaps.{stop_at};
ghost use Rattle.interpolator.specs.declared.refusal.Refusal.TheVariants.{AboveFullScale};

use crate::Interpolator;
use crate::gap::Gap;
use crate::refusal::Refusal;

pub fn gap_accepts_full_scale(gap: &mut Gap) -> Result<(), Refusal>
    ensures answers { result ≡ Ok tt }
    ensures start { gap.new.start ≡ 16777215 }
    ensures stop { stop_at gap.new.start gap.new.gap ≡ 16777215 }
{
    gap.put_start(16_777_215)?;
    gap.put_stop(16_777_215)
}

pub fn gap_refuses_one_more(gap: &mut Gap) -> (Result<(), Refusal>, Result<(), Refusal>)
    ensures start { result.0 ≡ Err AboveFullScale }
    ensures stop { result.1 ≡ Err AboveFullScale }
    ensures kept { gap.new ≡ gap.old }
{
    let start = gap.put_start(16_777_216);
    let stop = gap.put_stop(16_777_216);
    (start, stop)
}
