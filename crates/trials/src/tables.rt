// Slices that a font and a store are made of.
use directory::{Rows, Span};
use font::{Component, Condition, ListEnd, RegionAxis, Step, StoredTransform, VarcFlags};
use numbers::{F2Dot14, GlyphId};
use outline::Stroke;
use store::{OutlineFault, OutlineRow, StrokeStore};
use table_font::{ComponentRow, DeltaSetRow, GlyphRow, Tables};

const PLAIN: StoredTransform = StoredTransform {
    translate_x: 100,
    translate_y: 0,
    rotation: 0,
    scale_x: 0,
    scale_y: 0,
    skew_x: 0,
    skew_y: 0,
    center_x: 0,
    center_y: 0,
};

const PART: Component = Component {
    flags: VarcFlags(16),
    glyph: GlyphId::NOTDEF,
    transform: PLAIN,
    condition: None,
    axis_list: None,
    axis_values_var: None,
    transform_var: None,
};

// Glyph 30 is out of order, and so are all after it.
pub const GLYPH_IDS: [u32; 5] = [10, 20, 40, 30, 50];

pub const GLYPHS: [GlyphRow; 5] = [
    GlyphRow {
        components: Span { start: 0, count: 1 },
        end: ListEnd::Well,
    },
    GlyphRow {
        components: Span { start: 1, count: 5 },
        end: ListEnd::Well,
    },
    GlyphRow {
        components: Span { start: 9, count: 0 },
        end: ListEnd::Well,
    },
    GlyphRow {
        components: Span { start: 0, count: 1 },
        end: ListEnd::Well,
    },
    GlyphRow {
        components: Span { start: 0, count: 1 },
        end: ListEnd::Well,
    },
];

pub const COMPONENTS: [ComponentRow; 3] = [
    ComponentRow {
        component: PART,
        values: Some(Span { start: 1, count: 2 }),
    },
    ComponentRow {
        component: PART,
        values: Some(Span { start: 2, count: 2 }),
    },
    ComponentRow {
        component: PART,
        values: None,
    },
];

pub const VALUES: [i32; 3] = [7, -8, 9];

pub const STEPS: [Step; 2] = [Step::Both, Step::Not];

pub const CONDITIONS: [Condition<Span>; 3] = [
    Condition::Null,
    Condition::Steps(Span { start: 0, count: 2 }),
    Condition::Steps(Span { start: 1, count: 2 }),
];

pub const LISTS: [Span; 2] = [Span { start: 0, count: 2 }, Span { start: 3, count: 0 }];

pub const SETS: [DeltaSetRow; 2] = [
    DeltaSetRow {
        regions: Span { start: 0, count: 1 },
        deltas: Span { start: 0, count: 2 },
    },
    DeltaSetRow {
        regions: Span { start: 0, count: 1 },
        deltas: Span { start: 0, count: 3 },
    },
];

pub const AXIS: RegionAxis = RegionAxis {
    axis: 1,
    start: F2Dot14::ZERO,
    peak: F2Dot14::ZERO,
    end: F2Dot14::ZERO,
};

pub const REGION_AXES: [RegionAxis; 1] = [AXIS];

pub const ONE_SPAN: [Span; 1] = [Span { start: 0, count: 1 }];

// Numbers 0, 1, 2 of conditions, 0 and 1 of lists and sets, 0 of regions.
pub const COUNTED: [u32; 3] = [0, 1, 2];

pub const AXES: [u16; 2] = [5, 6];

pub const REGIONS: [u16; 1] = [3];

pub const DELTAS: [i32; 2] = [100, -100];

pub fn tables() -> Tables<'static> {
    Tables {
        glyphs: Rows::new(&GLYPH_IDS, &GLYPHS),
        components: &COMPONENTS,
        values: &VALUES,
        conditions: Rows::new(&COUNTED, &CONDITIONS),
        steps: &STEPS,
        lists: Rows::new(&COUNTED, &LISTS),
        list_axes: &AXES,
        regions: Rows::new(&COUNTED, &ONE_SPAN),
        region_axes: &REGION_AXES,
        sets: Rows::new(&COUNTED, &SETS),
        set_regions: &REGIONS,
        deltas: &DELTAS,
    }
}

pub const STROKES: [Stroke; 3] = [
    Stroke::Move(0.0, 0.0),
    Stroke::Line(50.0, 0.0),
    Stroke::Close,
];

pub const OUTLINES: [OutlineRow; 3] = [
    OutlineRow {
        need: 24,
        strokes: Span { start: 0, count: 3 },
        fault: None,
    },
    OutlineRow {
        need: 8,
        strokes: Span { start: 1, count: 1 },
        fault: Some(OutlineFault(513)),
    },
    OutlineRow {
        need: 8,
        strokes: Span { start: 2, count: 2 },
        fault: None,
    },
];

pub const WIDTHS: [i32; 1] = [-7];

// Outlines 0, 1 and 2, and the width of glyph 0.
pub fn store(units_per_em: u16) -> StrokeStore<'static> {
    StrokeStore {
        units_per_em,
        outlines: Rows::new(&COUNTED, &OUTLINES),
        strokes: &STROKES,
        widths: Rows::new(&COUNTED, &WIDTHS),
    }
}
