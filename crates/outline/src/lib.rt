// Strokes, the pens that take them, and a pen that transforms them on their way.
// A pen is a state and a fixed step for each stroke; every function promises the pen after it by those steps.
#![tactic(auto)]

mod pens;
mod strokes;
mod transform_pen;

pub use pens::{OutlinePen, draw_stroke, draw_strokes};
pub use strokes::{PathStyle, Stroke};
pub use transform_pen::{TransformPen, draw_through};
