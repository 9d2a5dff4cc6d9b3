// The slices of a table font. Beside the numbers of its records stand their rows, and the rows' lists stand in slices of their own.
use directory::{Rows, Span};
use font::{Component, Condition, ListEnd, RegionAxis, Step};

// Where a glyph's components stand, and how their list ends.
#[derive(Clone, Copy)]
pub struct GlyphRow {
    pub components: Span,
    pub end: ListEnd,
}

// A component, and where its axis values stand, if it has them.
#[derive(Clone, Copy)]
pub struct ComponentRow {
    pub component: Component,
    pub values: Option<Span>,
}

#[derive(Clone, Copy)]
pub struct DeltaSetRow {
    pub regions: Span,
    pub deltas: Span,
}

#[derive(Clone, Copy)]
pub struct Tables<'a> {
    pub glyphs: Rows<'a, GlyphRow>,
    pub components: &'a [ComponentRow],
    pub values: &'a [i32],
    // a null, or where the steps stand
    pub conditions: Rows<'a, Condition<Span>>,
    pub steps: &'a [Step],
    pub lists: Rows<'a, Span>,
    pub list_axes: &'a [u16],
    pub regions: Rows<'a, Span>,
    pub region_axes: &'a [RegionAxis],
    pub sets: Rows<'a, DeltaSetRow>,
    pub set_regions: &'a [u16],
    pub deltas: &'a [i32],
}
