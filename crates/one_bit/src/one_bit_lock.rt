// The one-bit lock: flags and places that fit each other.
ghost use Rattle.one_bit.specs.Sound.{Apart, Fits, Raised};

use crate::lines::Lines;

// One lock is one thing: it is neither copied nor cloned.
#[derive(Drop)]
pub struct OneBit {
    pub(crate) lines: Lines,
    ghost raised: { Raised lines },
    ghost fits: { Fits lines },
    ghost apart: { Apart lines },
}
