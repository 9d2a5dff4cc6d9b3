// The tape: strokes as bytes in lent memory.
// The contracts pin the bytes written, those left alone, the length, and the count of strokes that did not fit.
#![tactic(auto)]

mod codes;
mod pen;
mod taping;

pub use codes::{StrokeCode, UnknownCode};
pub use pen::{TapeEnd, TapePen};
pub use taping::tape_through;

#[cfg(test)]
mod tests;
