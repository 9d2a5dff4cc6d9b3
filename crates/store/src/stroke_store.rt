// A stroke store shows its outlines at every location and style alike, scaled by its own units per em.
ghost use Rattle.std.specs.Prelude.{◌≡◌};
ghost use Rattle.std.specs.Option.{option_map};
ghost use Rattle.directory.specs.Parts.{part_of};
ghost use Rattle.store.specs.Tables.{outline_in, width_in};
ghost use Rattle.store.specs.Shorts.{short_in};

use crate::faults::OutlineFault;
use crate::scaling::draw_scaled;
use crate::stores::OutlineStore;
use crate::table::{OutlineRow, StrokeStore};
use directory::part;
use numbers::{F2Dot14, GlyphId, Size};
use outline::{OutlinePen, PathStyle, Stroke};

// The most strokes that an outline may have.
const MOST_STROKES: usize = 65535;

impl<'a> StrokeStore<'a> {
    fn row_strokes(&self, row: OutlineRow) -> Option<&[Stroke]>
        ensures { option_map (λ x. x.now) result ≡ part_of self.now.strokes.now row.strokes 65535 }
    {
        part(self.strokes, row.strokes, MOST_STROKES)
    }
}

impl<'a> OutlineStore for StrokeStore<'a> {
    ghost outline = { outline_in };

    ghost width = { width_in };

    ghost short = { short_in };

    fn outline_need(&self, id: GlyphId) -> Option<u64> {
        let row = self.outlines.row(id.to_u32())?;
        let _strokes = self.row_strokes(row)?;
        Some(row.need)
    }

    fn draw_outline<P: OutlinePen>(
        &self,
        id: GlyphId,
        _location: &[F2Dot14],
        size: Size,
        _style: PathStyle,
        pen: &mut P,
    ) -> Result<(), OutlineFault> {
        let row = self.outlines.row(id.to_u32()).ok_or(OutlineFault::MISSING)?;
        let strokes = self.row_strokes(row).ok_or(OutlineFault::MISSING)?;
        draw_scaled(strokes, size.linear_scale(self.units_per_em), pen);
        row.fault.map_or(Ok(()), Err)
    }

    fn advance_width(&self, id: GlyphId, _location: &[F2Dot14]) -> i32 {
        self.widths.row(id.to_u32()).unwrap_or(0)
    }
}
