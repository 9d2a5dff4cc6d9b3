// The components of a glyph.
ghost use Rattle.std.specs.Prelude.{Some};
ghost use Rattle.font.specs.Texts.{transform_text, end_text};

use crate::flags::VarcFlags;
use numbers::GlyphId;
use std::fmt;

// The nine numbers of a transform as they are stored: rotation and skew count 1/4,096, scale 1/1,024.
// No generic type with the nine floats of `DecomposedTransform`: the units differ from field to field, and not the type alone.
#[derive(Clone, Copy, Default)]
pub struct StoredTransform {
    pub translate_x: i16,
    pub translate_y: i16,
    pub rotation: i16,
    pub scale_x: i16,
    pub scale_y: i16,
    pub skew_x: i16,
    pub skew_y: i16,
    pub center_x: i16,
    pub center_y: i16,
}

// As `tx 100 ty 0 rot 0 ..`: each number after its key.
impl fmt::Display for StoredTransform {
    ghost output = { λ transform. Some (transform_text transform) };

    fn fmt<W: fmt::Write>(&self, f: &mut fmt::Formatter<W>) -> fmt::Result {
        let StoredTransform {
            translate_x: tx,
            translate_y: ty,
            rotation: rot,
            scale_x: sx,
            scale_y: sy,
            skew_x: kx,
            skew_y: ky,
            center_x: cx,
            center_y: cy,
        } = *self;
        write!(f, "tx {tx} ty {ty}")?;
        write!(f, " rot {rot} sx {sx}")?;
        write!(f, " sy {sy} kx {kx}")?;
        write!(f, " ky {ky} cx {cx}")?;
        write!(f, " cy {cy}")
    }
}

// One component, but for its axis values, which are consulted one by one.
#[derive(Clone, Copy)]
pub struct Component {
    pub flags: VarcFlags,
    pub glyph: GlyphId,
    pub transform: StoredTransform,
    pub condition: Option<u32>,
    pub axis_list: Option<u32>,
    pub axis_values_var: Option<u32>,
    pub transform_var: Option<u32>,
}

// How a component list ends. A kind with no value beside it, so no `Result`.
#[derive(Clone, Copy)]
pub enum ListEnd {
    Well,
    Flaw,
}

// As `well` or `in a flaw`.
impl fmt::Display for ListEnd {
    ghost output = { λ end. Some (end_text end) };

    fn fmt<W: fmt::Write>(&self, f: &mut fmt::Formatter<W>) -> fmt::Result {
        match *self {
            ListEnd::Well => write!(f, "well"),
            ListEnd::Flaw => write!(f, "in a flaw"),
        }
    }
}

// How many components a glyph has, and how their list ends.
#[derive(Clone, Copy)]
pub struct GlyphList {
    pub count: usize,
    pub end: ListEnd,
}
