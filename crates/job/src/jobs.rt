// A job as it is read.
use crate::calls::Call;
use directory::Span;
use font::{Condition, Head, RegionAxis, Step};
use numbers::F2Dot14;
use outline::Stroke;
use std::alloc::Global;
use std::collections::BTreeMap;
use store::OutlineRow;
use table_font::{ComponentRow, DeltaSetRow, GlyphRow};
use trace::Entry;

// Depth, edges and list size, as they are asked for.
#[derive(Clone, Copy)]
pub struct Range {
    pub depth: u32,
    pub edges: u32,
    pub entries: usize,
}

// What is lent to each call: open-glyph records, coordinates, and bytes of base buffer.
#[derive(Clone, Copy)]
pub struct Lent {
    pub records: usize,
    pub coordinates: usize,
    pub buffer: usize,
}

// Each map has the rows of its records by their numbers; the lists stand one after the other in the vectors, and the rows
// name them by place, since a font and a store are read from slices.
#[derive(Drop)]
pub struct Job {
    pub head: Option<Head>,
    pub range: Option<Range>,
    pub lent: Option<Lent>,
    pub tape: Option<usize>,
    pub upem: Option<u16>,
    pub entries: Vec<Entry>,
    pub glyphs: BTreeMap<u32, GlyphRow>,
    pub components: Vec<ComponentRow>,
    pub values: Vec<i32>,
    pub conditions: BTreeMap<u32, Condition<Span>>,
    pub steps: Vec<Step>,
    pub lists: BTreeMap<u32, Span>,
    pub list_axes: Vec<u16>,
    pub regions: BTreeMap<u32, Span>,
    pub region_axes: Vec<RegionAxis>,
    pub sets: BTreeMap<u32, DeltaSetRow>,
    pub set_regions: Vec<u16>,
    pub deltas: Vec<i32>,
    pub outlines: BTreeMap<u32, OutlineRow>,
    pub strokes: Vec<Stroke>,
    pub widths: BTreeMap<u32, i32>,
    pub calls: Vec<Call>,
    pub coordinates: Vec<F2Dot14>,
}

impl Job {
    pub(crate) fn new(heap: Global) -> Self {
        Job {
            head: None,
            range: None,
            lent: None,
            tape: None,
            upem: None,
            entries: Vec::new(heap),
            glyphs: BTreeMap::new(heap),
            components: Vec::new(heap),
            values: Vec::new(heap),
            conditions: BTreeMap::new(heap),
            steps: Vec::new(heap),
            lists: BTreeMap::new(heap),
            list_axes: Vec::new(heap),
            regions: BTreeMap::new(heap),
            region_axes: Vec::new(heap),
            sets: BTreeMap::new(heap),
            set_regions: Vec::new(heap),
            deltas: Vec::new(heap),
            outlines: BTreeMap::new(heap),
            strokes: Vec::new(heap),
            widths: BTreeMap::new(heap),
            calls: Vec::new(heap),
            coordinates: Vec::new(heap),
        }
    }
}
