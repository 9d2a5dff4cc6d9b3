// Strokes at a size.
ghost use Rattle.std.specs.Prelude.{◌≡◌, map};
ghost use Rattle.outline.specs.Drawn.{drawn};
ghost use Rattle.outline.specs.Scaled.{scaled};

use outline::{OutlinePen, Stroke, draw_stroke};

// Hands strokes to a pen, each at a scale.
pub fn draw_scaled<P: OutlinePen>(strokes: &[Stroke], s: f32, pen: &mut P)
    ensures { pen.new ≡ drawn P.OutlinePen.step pen.old (map (scaled s) strokes.now) }
{
    for stroke in strokes {
        draw_stroke(stroke.scaled(s), pen);
    }
}
