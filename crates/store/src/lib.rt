// What an outline store replies: for an outline its need and, at each location, size and style, its strokes; and widths.
// A store is anything that shows these replies; a stroke store shows them from slices.
#![tactic(auto)]

mod faults;
mod lent;
mod scaling;
mod stores;
mod stroke_store;
mod table;

pub use faults::OutlineFault;
pub use stores::OutlineStore;
pub use table::{OutlineRow, StrokeStore};
