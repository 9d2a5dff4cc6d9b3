// What a font replies: its head, and a record for each number of each kind.
// A font is anything that shows these replies; the code above is proved once for all of them.
#![tactic(auto)]

mod components;
mod conditions;
mod flags;
mod fonts;
mod heads;
mod lent;
mod variations;

pub use components::{Component, GlyphList, ListEnd, StoredTransform};
pub use conditions::{Condition, Step};
pub use flags::VarcFlags;
pub use fonts::Font;
pub use heads::Head;
pub use variations::{DeltaSetSize, RegionAxis};
