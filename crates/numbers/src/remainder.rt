// The remainder of a float by 2, by operations that are everywhere the same machine instructions: no call of the C library's `fmod`.
ghost use Rattle.std.specs.Prelude.{◌≡◌, ℕ, ℤ, false};
ghost use Rattle.std.specs.Float.{binary64, fin};
ghost use Rattle.std.specs.Float.Ieee.{rem};
ghost use Rattle.numbers.specs.Turns.{two};

use std::num::{nearest_u64_to_f64, saturating_f64_to_u64};

// 2^53: from here on every f64 is a multiple of 2.
const ALL_EVEN_FROM: f64 = 9007199254740992.0;

// The remainder of a size, which is a number with no minus.
fn rem_of_size(size: f64) -> f64
    ensures { (m : ℕ) (e : ℤ) → size ≡ fin false m e → result ≡ rem binary64 size two }
{
    if size < ALL_EVEN_FROM {
        let even = saturating_f64_to_u64(size) / 2 * 2;
        size - nearest_u64_to_f64(even)
    } else {
        0.0
    }
}

// The remainder of r by 2, with the sign of r; a NaN where r is not finite.
pub(crate) fn rem_two(r: f64) -> f64
    ensures { result ≡ rem binary64 r two }
{
    if !r.is_finite() {
        return f64::NAN;
    }
    rem_of_size(r.abs()).copysign(r)
}
