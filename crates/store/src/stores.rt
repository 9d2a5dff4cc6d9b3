// The trait of all outline stores. Consulting a record changes nothing, and its reply never differs.
ghost use Rattle.std.specs.Prelude.{◌≡◌, ℕ, List, ℤ};
ghost use Rattle.numbers.specs.declared.fixed.F2Dot14.{F2Dot14 as Coordinate};
ghost use Rattle.outline.specs.Drawn.{drawn};
ghost use Rattle.store.specs.Replies.{OutlineReply, need_of, outcome, Short};

use crate::faults::OutlineFault;
use numbers::{F2Dot14, GlyphId, Size};
use outline::{OutlinePen, PathStyle};

pub trait OutlineStore {
    ghost outline: { Self → ℕ → OutlineReply };

    ghost width: { Self → ℕ → List Coordinate → ℤ };

    // no outline has more strokes than its maximum
    ghost short: { (s : Self) → Short (outline s) };

    // The bytes that an outline needs, or none where it is missing.
    fn outline_need(&self, id: GlyphId) -> Option<u64>
        ensures { result ≡ need_of (outline self.now id.0) };

    // Draws an outline; the pen has its strokes also where it ends in a fault. The parameters are the original's.
    fn draw_outline<P: OutlinePen>(
        &self,
        id: GlyphId,
        location: &[F2Dot14],
        size: Size,
        style: PathStyle,
        pen: &mut P,
    ) -> Result<(), OutlineFault>
        ensures value { result ≡ (outcome (outline self.now id.0) location.now size style).ends }
        ensures after { pen.new ≡ drawn P.OutlinePen.step pen.old (outcome (outline self.now id.0) location.now size style).strokes };

    fn advance_width(&self, id: GlyphId, location: &[F2Dot14]) -> i32
        ensures { result ≡ width self.now id.0 location.now };
}
