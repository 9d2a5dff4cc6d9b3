// Sine, cosine and tangent of an angle counted in half-turns, by one fixed polynomial, so that every machine draws the same.
ghost use Rattle.std.specs.Prelude.{◌≡◌};
ghost use Rattle.numbers.specs.Turns as turns;
ghost use Rattle.std.specs.Float.{nan};

use crate::floats::{narrow, widen};
use crate::remainder::rem_two;

#[derive(Clone, Copy, Debug)]
pub struct CosSin {
    pub cos: f32,
    pub sin: f32,
}

// A quarter of a full turn.
#[derive(Clone, Copy)]
enum Quarter {
    First,
    Second,
    Third,
    Fourth,
}

// The f64 with the bits 400921FB54442D18.
const PI: f64 = 3.141592653589793;

// (2k − 1)(2k) for k from 8 down to 1.
const COSINE_DIVISORS: [u8; 8] = [240, 182, 132, 90, 56, 30, 12, 2];

// 2k(2k + 1) for k from 7 down to 1.
const SINE_DIVISORS: [u8; 7] = [210, 156, 110, 72, 42, 20, 6];

// The angle r modulo 2, from 0 up to 2.
fn modulo(r: f64) -> f64
    ensures { result ≡ turns.modulo r }
{
    let t = rem_two(r);
    let t = if t < 0.0 { t + 2.0 } else { t };
    if t == 2.0 { 0.0 } else { t }
}

// No `From`: an angle is no quarter, and what lies past the quarter's start is lost.
fn quarter_of(t: f64) -> Quarter
    ensures { result ≡ turns.quarter t }
{
    if t < 0.5 {
        Quarter::First
    } else if t < 1.0 {
        Quarter::Second
    } else if t < 1.5 {
        Quarter::Third
    } else {
        Quarter::Fourth
    }
}

impl Quarter {
    // Where it begins, in half-turns.
    fn start(self) -> f64
        ensures { result ≡ turns.start self }
    {
        match self {
            Quarter::First => 0.0,
            Quarter::Second => 0.5,
            Quarter::Third => 1.0,
            Quarter::Fourth => 1.5,
        }
    }

    // Turns a cosine and a sine on by the quarters before this one.
    fn turned(self, c: f64, s: f64) -> CosSin
        ensures { result ≡ turns.turned self c s }
    {
        let (cos, sin) = match self {
            Quarter::First => (c, s),
            Quarter::Second => (-s, c),
            Quarter::Third => (-c, -s),
            Quarter::Fourth => (s, -c),
        };
        CosSin {
            cos: narrow(cos),
            sin: narrow(sin),
        }
    }
}

// From 1, for each divisor in turn, one less the product of w over it and the sum so far.
fn series(w: f64, divisors: &[u8]) -> f64
    ensures { result ≡ turns.series w turns.one divisors.now }
{
    let mut y = 1.0;
    for d in divisors {
        y = 1.0 - (w / *d as f64) * y;
    }
    y
}

fn cosine(v: f64) -> f64
    ensures { result ≡ turns.cosine v }
{
    series(v * v, &COSINE_DIVISORS)
}

fn sine(v: f64) -> f64
    ensures { result ≡ turns.sine v }
{
    v * series(v * v, &SINE_DIVISORS)
}

// Cosine and sine of an angle in half-turns; both a NaN where it is not finite.
pub fn cos_sin(half_turns: f32) -> CosSin
    ensures { result ≡ turns.cos_sin half_turns }
{
    if !half_turns.is_finite() {
        return CosSin {
            cos: f32::NAN,
            sin: f32::NAN,
        };
    }
    let t = modulo(widen(half_turns));
    let quarter = quarter_of(t);
    let v = (t - quarter.start()) * PI;
    quarter.turned(cosine(v), sine(v))
}

// The sine over the cosine of an angle in half-turns.
pub fn tangent(half_turns: f32) -> f32
    ensures { result ≡ turns.tan half_turns }
{
    let both = cos_sin(half_turns);
    both.sin / both.cos
}
