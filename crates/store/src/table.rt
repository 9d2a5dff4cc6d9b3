// Outlines and widths in slices.
use crate::faults::OutlineFault;
use directory::{Rows, Span};
use outline::Stroke;

// One outline: its need, where its strokes stand, and the fault that it ends in, if it ends in one.
#[derive(Clone, Copy)]
pub struct OutlineRow {
    pub need: u64,
    pub strokes: Span,
    pub fault: Option<OutlineFault>,
}

// The rows stand beside the numbers of their glyphs.
#[derive(Clone, Copy)]
pub struct StrokeStore<'a> {
    pub units_per_em: u16,
    pub outlines: Rows<'a, OutlineRow>,
    pub strokes: &'a [Stroke],
    pub widths: Rows<'a, i32>,
}
