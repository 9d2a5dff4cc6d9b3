// A coordinate of a location: a signed count of 1/16,384.
ghost use Rattle.std.specs.Prelude.{◌≡◌};
ghost use Rattle.numbers.specs.Types.{fixed};
ghost use Rattle.numbers.specs.Rounding.{nearest};

use std::num::saturating_f64_to_i16;

#[derive(Clone, Copy, PartialEq, Eq, PartialOrd, Ord, Default, Debug)]
pub struct F2Dot14(i16);

impl F2Dot14 {
    pub const ZERO: F2Dot14 = F2Dot14(0);

    // No `From`: the original's name says that the number is a count of 1/16,384, and no coordinate.
    pub fn from_bits(count: i16) -> Self
        ensures { result ≡ fixed count }
    {
        F2Dot14(count)
    }

    // No `From`: it would not say, as the original's name does, that the number is a count.
    pub fn to_bits(self) -> i16
        ensures { result ≡ self.0 }
    {
        self.0
    }

    // The whole count nearest to `count`, halves away from zero, held to the range; 0 for a NaN.
    pub fn rounded(count: f64) -> Self
        ensures { result ≡ fixed (nearest count) }
    {
        F2Dot14(saturating_f64_to_i16(count.round()))
    }
}
