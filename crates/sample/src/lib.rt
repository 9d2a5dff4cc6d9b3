// The worked sample: an outline of a move, a line and a close, moved by 100 inside a scale by 2 and a move up by 30.
#![tactic(auto)]

ghost use Rattle.std.specs.Prelude.{◌≡◌, map, IfOk, string_bytes};
ghost use Rattle.outline.specs.Through.{moved};
ghost use Rattle.tape.specs.Taped.{Taped};
ghost use Rattle.sample.specs.Sample as worked;

use matrices::{DecomposedTransform, Matrix};
use outline::Stroke;
use std::alloc::{AllocError, Global};
use tape::{TapeEnd, tape_through};
use tape_text::tape_text;

// Outline 5.
pub const OUTLINE: [Stroke; 3] = [
    Stroke::Move(0.0, 0.0),
    Stroke::Line(50.0, 0.0),
    Stroke::Close,
];

// Where glyph 10 places outline 5.
pub const INNER: DecomposedTransform = DecomposedTransform {
    translate_x: 100.0,
    ..DecomposedTransform::IDENTITY
};

// Where glyph 20 places glyph 10.
pub const OUTER: DecomposedTransform = DecomposedTransform {
    translate_y: 30.0,
    scale_x: 2.0,
    scale_y: 2.0,
    ..DecomposedTransform::IDENTITY
};

// The matrix that places outline 5 in glyph 20.
pub fn sample_matrix() -> Matrix
    ensures { result ≡ worked.matrix }
{
    Matrix::IDENTITY
        .product(OUTER.matrix())
        .product(INNER.matrix())
}

// A stroke as the matrix moves it.
pub fn moved_stroke(stroke: Stroke, matrix: Matrix) -> Stroke
    ensures { result ≡ moved matrix stroke }
{
    stroke.moved(matrix)
}

// The sample on a tape over this memory.
pub fn sample_tape(bytes: &mut [u8]) -> TapeEnd
    ensures { Taped (map (moved worked.matrix) worked.outline) bytes.old bytes.new result.len result.missed }
{
    tape_through(&OUTLINE, sample_matrix(), bytes)
}

// The sample's tape as text.
pub fn sample_text(heap: Global) -> Result<String, AllocError>
    ensures { IfOk result (λ t. string_bytes t ≡ worked.line) }
{
    let mut bytes = [0u8; 64];
    let end = sample_tape(&mut bytes);
    tape_text(heap, &bytes[..end.len])
}

// A theorem: in 19 bytes or more the tape is 01 43480000 41F00000 02 43960000 41F00000 05.
pub fn sample_stands()
    ensures { worked.Stands }
{}
