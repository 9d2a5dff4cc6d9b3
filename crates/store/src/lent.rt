// A store that is lent is a store too, so that a caller keeps its own.
use crate::faults::OutlineFault;
use crate::stores::OutlineStore;
use numbers::{F2Dot14, GlyphId, Size};
use outline::{OutlinePen, PathStyle};

impl<'a, S: OutlineStore> OutlineStore for &'a S {
    ghost outline = { λ s. S.OutlineStore.outline s.now };

    ghost width = { λ s. S.OutlineStore.width s.now };

    ghost short = { λ s. S.OutlineStore.short s.now };

    fn outline_need(&self, id: GlyphId) -> Option<u64> {
        (**self).outline_need(id)
    }

    fn draw_outline<P: OutlinePen>(
        &self,
        id: GlyphId,
        location: &[F2Dot14],
        size: Size,
        style: PathStyle,
        pen: &mut P,
    ) -> Result<(), OutlineFault> {
        (**self).draw_outline(id, location, size, style, pen)
    }

    fn advance_width(&self, id: GlyphId, location: &[F2Dot14]) -> i32 {
        (**self).advance_width(id, location)
    }
}
