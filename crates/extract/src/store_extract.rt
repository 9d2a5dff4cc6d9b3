// A store by a closed list: the listed outlines and widths as below; the rest is missing, or of width 0.
ghost use Rattle.trace.specs.Extracts.{left_outlines, left_widths};
ghost use Rattle.extract.specs.Shown.{extract_short};

use crate::extracts::Extract;
use numbers::{F2Dot14, GlyphId, Size};
use outline::{OutlinePen, PathStyle};
use store::{OutlineFault, OutlineStore};
use trace::Entry;

impl<'t, S: OutlineStore> OutlineStore for Extract<'t, S> {
    ghost outline = { λ x. left_outlines x.table.entries.now (S.OutlineStore.outline x.below) };

    ghost width = { λ x. left_widths x.table.entries.now (S.OutlineStore.width x.below) };

    ghost short = { λ x. extract_short x.table.entries.now (S.OutlineStore.outline x.below) (S.OutlineStore.short x.below) };

    fn outline_need(&self, id: GlyphId) -> Option<u64> {
        self.shown(Entry::Outline(id))?.outline_need(id)
    }

    fn draw_outline<P: OutlinePen>(
        &self,
        id: GlyphId,
        location: &[F2Dot14],
        size: Size,
        style: PathStyle,
        pen: &mut P,
    ) -> Result<(), OutlineFault> {
        let below = self.shown(Entry::Outline(id)).ok_or(OutlineFault::MISSING)?;
        below.draw_outline(id, location, size, style, pen)
    }

    fn advance_width(&self, id: GlyphId, location: &[F2Dot14]) -> i32 {
        self.shown(Entry::Width(id))
            .map_or(0, |below| below.advance_width(id, location))
    }
}
