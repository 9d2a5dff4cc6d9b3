// A pen over another that takes every stroke through a matrix first.
ghost use Rattle.std.specs.Prelude.{◌≡◌, map};
ghost use Rattle.outline.specs.Drawn.{drawn};
ghost use Rattle.outline.specs.Through.{moved, through};

use crate::pens::{OutlinePen, draw_stroke, draw_strokes};
use crate::strokes::Stroke;
use matrices::Matrix;

#[derive(Drop)]
pub struct TransformPen<'a, P> {
    pub pen: &'a mut P,
    pub matrix: Matrix,
}

impl<'a, P: OutlinePen> TransformPen<'a, P> {
    // Hands the pen one stroke, through the matrix. Inlined, so that each method of the pen is left with its own kind of stroke.
    #[inline(always)]
    fn draw(&mut self, stroke: Stroke)
        ensures { self.new ≡ through P.OutlinePen.step self.old stroke }
    {
        draw_stroke(stroke.moved(self.matrix), self.pen);
    }
}

impl<'a, P: OutlinePen> OutlinePen for TransformPen<'a, P> {
    ghost step = { through P.OutlinePen.step };

    fn move_to(&mut self, x: f32, y: f32) {
        self.draw(Stroke::Move(x, y));
    }

    fn line_to(&mut self, x: f32, y: f32) {
        self.draw(Stroke::Line(x, y));
    }

    fn quad_to(&mut self, cx0: f32, cy0: f32, x: f32, y: f32) {
        self.draw(Stroke::Quad(cx0, cy0, x, y));
    }

    fn curve_to(&mut self, cx0: f32, cy0: f32, cx1: f32, cy1: f32, x: f32, y: f32) {
        self.draw(Stroke::Curve(cx0, cy0, cx1, cy1, x, y));
    }

    fn close(&mut self) {
        self.draw(Stroke::Close);
    }
}

// Hands the strokes to the pen, each through the matrix.
#[tactic(auto, using(crate::proofs::Layers::through_name, crate::proofs::Layers::through_now))]
pub fn draw_through<P: OutlinePen>(strokes: &[Stroke], matrix: Matrix, pen: &mut P)
    ensures { pen.new ≡ drawn P.OutlinePen.step pen.old (map (moved matrix) strokes.now) }
{
    let mut layer = TransformPen { pen, matrix };
    draw_strokes(strokes, &mut layer);
}
