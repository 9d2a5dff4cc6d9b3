// Matrices that place the parts of a glyph, and the decomposed transform that a component stores one as.
// Every function promises its value, to the bit, by a definition in specs/, for every input.
#![tactic(auto)]

mod affine;
mod by_hand;
mod decomposed;

pub use affine::Matrix;
pub use by_hand::matrices_stand;
pub use decomposed::DecomposedTransform;

#[cfg(test)]
mod tests;
