// Where a variation applies, and by how much.
ghost use Rattle.std.specs.Prelude.{Some};
ghost use Rattle.font.specs.Texts.{axis_text};

use numbers::F2Dot14;
use std::fmt;

// One axis of a region: where it begins to apply, where it applies whole, and where it ends.
#[derive(Clone, Copy, Default)]
pub struct RegionAxis {
    pub axis: u16,
    pub start: F2Dot14,
    pub peak: F2Dot14,
    pub end: F2Dot14,
}

// As `1 0 16384 16384`: the axis, then start, peak and end as counts.
impl fmt::Display for RegionAxis {
    ghost output = { λ axis. Some (axis_text axis) };

    fn fmt<W: fmt::Write>(&self, f: &mut fmt::Formatter<W>) -> fmt::Result {
        let RegionAxis {
            axis,
            start,
            peak,
            end,
        } = *self;
        let (start, peak, end) = (start.to_bits(), peak.to_bits(), end.to_bits());
        write!(f, "{axis} {start} {peak} {end}")
    }
}

// How many region numbers and deltas a delta set has.
#[derive(Clone, Copy)]
pub struct DeltaSetSize {
    pub regions: usize,
    pub deltas: usize,
}
