// What an outline is drawn with.
use matrices::Matrix;
use std::fmt;

// One stroke: its kind, and its points in the order of the path, control points first.
#[derive(Clone, Copy, Debug)]
pub enum Stroke {
    Move(f32, f32),
    Line(f32, f32),
    Quad(f32, f32, f32, f32),
    Curve(f32, f32, f32, f32, f32, f32),
    Close,
}

impl Stroke {
    ghost use Rattle.std.specs.Prelude.{◌≡◌};
    ghost use Rattle.outline.specs.Points.{MapsPoints};
    ghost use Rattle.outline.specs.Scaled.{scaled};
    ghost use Rattle.outline.specs.Through.{moved};

    // The stroke with each of its points where the matrix takes it.
    #[inline(always)]
    pub fn moved(self, matrix: Matrix) -> Stroke
        ensures { result ≡ moved matrix self }
    {
        self.map_points(|x, y| matrix.transform(x, y))
    }

    // The stroke with every coordinate times the scale.
    #[inline(always)]
    pub fn scaled(self, s: f32) -> Stroke
        ensures { result ≡ scaled s self }
    {
        self.map_points(|x, y| (x * s, y * s))
    }

    // The stroke with each of its points where `place` takes it. For this crate alone, since it asks that `place` may be called.
    #[inline(always)]
    fn map_points<F: Fn(f32, f32) -> (f32, f32)>(self, place: F) -> Stroke
        requires { F.IsAlwaysCallable place }
        ensures { MapsPoints (F.post place) self result }
    {
        match self {
            Stroke::Move(x, y) => {
                let (x, y) = place(x, y);
                Stroke::Move(x, y)
            }
            Stroke::Line(x, y) => {
                let (x, y) = place(x, y);
                Stroke::Line(x, y)
            }
            Stroke::Quad(cx0, cy0, x, y) => {
                let (cx0, cy0) = place(cx0, cy0);
                let (x, y) = place(x, y);
                Stroke::Quad(cx0, cy0, x, y)
            }
            Stroke::Curve(cx0, cy0, cx1, cy1, x, y) => {
                let (cx0, cy0) = place(cx0, cy0);
                let (cx1, cy1) = place(cx1, cy1);
                let (x, y) = place(x, y);
                Stroke::Curve(cx0, cy0, cx1, cy1, x, y)
            }
            Stroke::Close => Stroke::Close,
        }
    }
}

// As `move 200 30`: the kind, then the coordinates.
impl fmt::Display for Stroke {
    fn fmt<W: fmt::Write>(&self, f: &mut fmt::Formatter<W>) -> fmt::Result {
        match *self {
            Stroke::Move(x, y) => write!(f, "move {x} {y}"),
            Stroke::Line(x, y) => write!(f, "line {x} {y}"),
            Stroke::Quad(cx0, cy0, x, y) => write!(f, "quad {cx0} {cy0} {x} {y}"),
            Stroke::Curve(cx0, cy0, cx1, cy1, x, y) => {
                write!(f, "curve {cx0} {cy0} {cx1} {cy1} {x} {y}")
            }
            Stroke::Close => write!(f, "close"),
        }
    }
}

// Where a contour starts whose first point is off the curve.
#[derive(Clone, Copy, Debug, Default)]
pub enum PathStyle {
    // At the last point if that is on the curve, else halfway between first and last.
    #[default]
    FreeType,
    // At the second point if that is on the curve, else halfway between first and second.
    HarfBuzz,
}
