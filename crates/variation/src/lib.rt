// How much of a variation applies at a location.
#![tactic(auto)]

mod by_hand;
mod scalars;

pub use by_hand::variation_stands;
pub use scalars::{factor, region_scalar};
