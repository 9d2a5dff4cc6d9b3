// The calls of a job.
use directory::Span;
use numbers::{GlyphId, Size};
use outline::PathStyle;

// Two kinds, and no `Option`: an unscaled call draws too.
#[derive(Clone, Copy)]
pub enum CallKind {
    Draw(Size, PathStyle),
    Unscaled,
}

// A call, with its location as a span of the job's coordinates: a vector of its own would make it no value to copy.
#[derive(Clone, Copy)]
pub struct Call {
    pub kind: CallKind,
    pub glyph: GlyphId,
    pub location: Span,
}
