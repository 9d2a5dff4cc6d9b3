// A matrix of two rows and three columns over f32: (x, y) goes to (xx·x + xy·y + dx, yx·x + yy·y + dy).
ghost use Rattle.std.specs.Prelude.{◌≡◌};
ghost use Rattle.matrices.specs.Affine.{identity, at_x, at_y, times, moving, turning, scaling, skewing};

use numbers::{cos_sin, tangent};
use std::fmt;

#[derive(Clone, Copy, Debug)]
pub struct Matrix {
    pub xx: f32,
    pub yx: f32,
    pub xy: f32,
    pub yy: f32,
    pub dx: f32,
    pub dy: f32,
}

impl Matrix {
    pub const IDENTITY: Matrix = Matrix {
        xx: 1.0,
        yx: 0.0,
        xy: 0.0,
        yy: 1.0,
        dx: 0.0,
        dy: 0.0,
    };

    // Where the matrix takes a point.
    pub fn transform(self, x: f32, y: f32) -> (f32, f32)
        ensures { result ≡ (at_x self x y, at_y self x y) }
    {
        (
            self.xx * x + self.xy * y + self.dx,
            self.yx * x + self.yy * y + self.dy,
        )
    }

    // The matrix that does `inner` first and then this one.
    pub fn product(self, inner: Matrix) -> Matrix
        ensures { result ≡ times self inner }
    {
        let (dx, dy) = self.transform(inner.dx, inner.dy);
        Matrix {
            xx: self.xx * inner.xx + self.xy * inner.yx,
            yx: self.yx * inner.xx + self.yy * inner.yx,
            xy: self.xx * inner.xy + self.xy * inner.yy,
            yy: self.yx * inner.xy + self.yy * inner.yy,
            dx,
            dy,
        }
    }

    // Moves by (x, y).
    pub fn translate(x: f32, y: f32) -> Matrix
        ensures { result ≡ moving x y }
    {
        Matrix {
            dx: x,
            dy: y,
            ..Matrix::IDENTITY
        }
    }

    // Turns about the origin by an angle in half-turns.
    pub fn turn(half_turns: f32) -> Matrix
        ensures { result ≡ turning half_turns }
    {
        let turn = cos_sin(half_turns);
        Matrix {
            xx: turn.cos,
            yx: turn.sin,
            xy: -turn.sin,
            yy: turn.cos,
            dx: 0.0,
            dy: 0.0,
        }
    }

    // Scales along each axis.
    pub fn scale(x: f32, y: f32) -> Matrix
        ensures { result ≡ scaling x y }
    {
        Matrix {
            xx: x,
            yy: y,
            ..Matrix::IDENTITY
        }
    }

    // Skews along each axis by an angle in half-turns.
    pub fn skew(x: f32, y: f32) -> Matrix
        ensures { result ≡ skewing x y }
    {
        Matrix {
            yx: tangent(y),
            xy: tangent(-x),
            ..Matrix::IDENTITY
        }
    }
}

impl fmt::Display for Matrix {
    fn fmt<W: fmt::Write>(&self, f: &mut fmt::Formatter<W>) -> fmt::Result {
        let Matrix {
            xx,
            yx,
            xy,
            yy,
            dx,
            dy,
        } = *self;
        write!(f, "xx {xx} yx {yx} xy {xy} yy {yy} dx {dx} dy {dy}")
    }
}
