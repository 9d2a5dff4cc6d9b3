// From one width of float to the other, by name: `From` does not narrow, and its widening asks that x is no NaN.
ghost use Rattle.std.specs.Prelude.{◌≡◌};
ghost use Rattle.numbers.specs.Rounding.{narrowed};

use std::num::{f32_to_f64_with_nan, nearest_f64_to_f32_with_nan};

// The nearest f32, of two equally near the even one; a NaN stays a NaN.
pub fn narrow(x: f64) -> f32
    ensures { result ≡ narrowed x }
{
    nearest_f64_to_f32_with_nan(x)
}

// The same value as an f64; a NaN stays a NaN.
pub fn widen(x: f32) -> f64
    ensures { result ≡ x }
{
    f32_to_f64_with_nan(x)
}
