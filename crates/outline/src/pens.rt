// A pen takes an outline's strokes one by one.
ghost use Rattle.std.specs.Prelude.{◌≡◌};
ghost use Rattle.outline.specs.declared.strokes.Stroke.{Stroke as Strokes};
ghost use Rattle.outline.specs.declared.strokes.Stroke.TheVariants.{Move, Line, Quad, Curve, Close};
ghost use Rattle.outline.specs.Drawn.{drawn};

use crate::strokes::Stroke;

// Coordinates one by one, and no points: so the original's pens take them.
pub trait OutlinePen {
    // The pen after one stroke.
    ghost step: { Self → Strokes → Self };

    fn move_to(&mut self, x: f32, y: f32)
        ensures { self.new ≡ step self.old (Move x y) };

    fn line_to(&mut self, x: f32, y: f32)
        ensures { self.new ≡ step self.old (Line x y) };

    fn quad_to(&mut self, cx0: f32, cy0: f32, x: f32, y: f32)
        ensures { self.new ≡ step self.old (Quad cx0 cy0 x y) };

    fn curve_to(&mut self, cx0: f32, cy0: f32, cx1: f32, cy1: f32, x: f32, y: f32)
        ensures { self.new ≡ step self.old (Curve cx0 cy0 cx1 cy1 x y) };

    fn close(&mut self)
        ensures { self.new ≡ step self.old Close };
}

// Hands one stroke to the pen. Inlined, so that a stroke that was just made is not told apart once more.
#[inline(always)]
pub fn draw_stroke<P: OutlinePen>(stroke: Stroke, pen: &mut P)
    ensures { pen.new ≡ P.OutlinePen.step pen.old stroke }
{
    match stroke {
        Stroke::Move(x, y) => pen.move_to(x, y),
        Stroke::Line(x, y) => pen.line_to(x, y),
        Stroke::Quad(cx0, cy0, x, y) => pen.quad_to(cx0, cy0, x, y),
        Stroke::Curve(cx0, cy0, cx1, cy1, x, y) => pen.curve_to(cx0, cy0, cx1, cy1, x, y),
        Stroke::Close => pen.close(),
    }
}

// Hands the strokes to the pen, in their order.
pub fn draw_strokes<P: OutlinePen>(strokes: &[Stroke], pen: &mut P)
    ensures { pen.new ≡ drawn P.OutlinePen.step pen.old strokes.now }
{
    for stroke in strokes {
        draw_stroke(*stroke, pen);
    }
}
