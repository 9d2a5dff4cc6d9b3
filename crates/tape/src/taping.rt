// A whole outline on a tape.
ghost use Rattle.std.specs.Prelude.{map};
ghost use Rattle.outline.specs.Through.{moved};
ghost use Rattle.tape.specs.Taped.{Taped};

use crate::pen::{TapeEnd, TapePen};
use matrices::Matrix;
use outline::{Stroke, draw_through};

// Writes the strokes, each through the matrix, to a fresh tape over this memory.
#[tactic(auto, using(crate::proofs::TapeRuns::taped, crate::proofs::TapeRuns::tape_name))]
pub fn tape_through(strokes: &[Stroke], matrix: Matrix, bytes: &mut [u8]) -> TapeEnd
    ensures { Taped (map (moved matrix) strokes.now) bytes.old bytes.new result.len result.missed }
{
    let mut tape = TapePen::new(bytes);
    draw_through(strokes, matrix, &mut tape);
    tape.end()
}
