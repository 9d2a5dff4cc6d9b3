// A transform as nine numbers: where to, how far turned, scaled and skewed, and about which centre.
ghost use Rattle.std.specs.Prelude.{◌≡◌};
ghost use Rattle.matrices.specs.Decomposed.{matrix_of};

use crate::affine::Matrix;
use std::fmt;

#[derive(Clone, Copy, Debug)]
pub struct DecomposedTransform {
    pub translate_x: f32,
    pub translate_y: f32,
    pub rotation: f32,
    pub scale_x: f32,
    pub scale_y: f32,
    pub skew_x: f32,
    pub skew_y: f32,
    pub center_x: f32,
    pub center_y: f32,
}

impl DecomposedTransform {
    // The transform that leaves every point where it is.
    pub const IDENTITY: DecomposedTransform = DecomposedTransform {
        translate_x: 0.0,
        translate_y: 0.0,
        rotation: 0.0,
        scale_x: 1.0,
        scale_y: 1.0,
        skew_x: 0.0,
        skew_y: 0.0,
        center_x: 0.0,
        center_y: 0.0,
    };

    // Skew, then scale, then turn, all about the centre, then move; multiplied from the left.
    pub fn matrix(self) -> Matrix
        ensures { result ≡ matrix_of self }
    {
        Matrix::translate(
            self.translate_x + self.center_x,
            self.translate_y + self.center_y,
        )
        .product(Matrix::turn(self.rotation))
        .product(Matrix::scale(self.scale_x, self.scale_y))
        .product(Matrix::skew(self.skew_x, self.skew_y))
        .product(Matrix::translate(-self.center_x, -self.center_y))
    }
}

impl fmt::Display for DecomposedTransform {
    fn fmt<W: fmt::Write>(&self, f: &mut fmt::Formatter<W>) -> fmt::Result {
        let DecomposedTransform {
            translate_x,
            translate_y,
            rotation,
            ..
        } = *self;
        write!(
            f,
            "translate {translate_x} {translate_y} rotation {rotation}"
        )?;
        let DecomposedTransform {
            scale_x,
            scale_y,
            skew_x,
            skew_y,
            center_x,
            center_y,
            ..
        } = *self;
        write!(f, " scale {scale_x} {scale_y} skew {skew_x} {skew_y}")?;
        write!(f, " centre {center_x} {center_y}")
    }
}
