// A font over slices. Whatever the slices hold, each record has a reply: a list past its maximum or its slice is missing,
// and a component list ends there in a flaw.
#![tactic(auto)]

mod opening;
mod parts;
mod table;
mod table_font;
mod tables;

pub use table::{CheckedHead, TableFont};
pub use tables::{ComponentRow, DeltaSetRow, GlyphRow, Tables};
