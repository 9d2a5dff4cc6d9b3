// `label sample`: the worked sample, step by step.

use matrices::DecomposedTransform;
use sample::{INNER, OUTER, OUTLINE, moved_stroke, sample_matrix, sample_text};
use std::io;

// One component: its transform and the matrix of that.
fn print_component(
    rt: &HostRuntime,
    title: &str,
    transform: DecomposedTransform,
) -> io::Result<()> {
    let matrix = transform.matrix();
    println!(rt; "{title}")?;
    println!(rt; "  transform {transform}")?;
    println!(rt; "  matrix {matrix}")
}

// The outline's strokes before and after the matrix that places it.
fn print_strokes(rt: &HostRuntime) -> io::Result<()> {
    let matrix = sample_matrix();
    println!(rt; "outline 5 in glyph 20")?;
    println!(rt; "  matrix {matrix}")?;
    for stroke in OUTLINE {
        let after = moved_stroke(stroke, matrix);
        println!(rt; "  {stroke} -> {after}")?;
    }
    Ok(())
}

// Each component, the strokes, and the tape.
pub(crate) fn print_sample(rt: &HostRuntime) -> io::Result<()> {
    print_component(rt, "component 10 of glyph 20", OUTER)?;
    print_component(rt, "component 5 of glyph 10", INNER)?;
    print_strokes(rt)?;
    let text = sample_text(rt.alloc())?;
    println!(rt; "tape {text}")
}
