// The numbers of a font: glyph numbers, coordinates, sizes, and the sine and cosine of half-turns.
// Every function promises its value, to the bit, by a definition in specs/, for every input.
#![tactic(auto)]

mod by_hand;
mod fixed;
mod floats;
mod glyph_id;
mod remainder;
mod sizes;
mod turns;

pub use by_hand::numbers_stand;
pub use fixed::F2Dot14;
pub use floats::{narrow, widen};
pub use glyph_id::GlyphId;
pub use sizes::Size;
pub use turns::{CosSin, cos_sin, tangent};

#[cfg(test)]
mod tests;
