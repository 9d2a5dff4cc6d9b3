// Expected bytes are written out by hand from the rules; the coordinates after a matrix are those of tools/oracle.py.
use crate::pen::TapePen;
use crate::taping::tape_through;
use matrices::{DecomposedTransform, Matrix};
use outline::{OutlinePen, Stroke, draw_through};

#[test]
fn one_stroke_of_each_kind(rt: HostRuntime) {
    let mut bytes = [0xee; 64];
    let mut tape = TapePen::new(&mut bytes);
    tape.move_to(1.0, -2.0);
    tape.line_to(0.5, f32::NAN);
    tape.quad_to(1.0, 0.0, -0.0, f32::INFINITY);
    tape.curve_to(1.0, 2.0, 4.0, 8.0, 16.0, 32.0);
    tape.close();
    assert_eq!(rt; tape.end().len, 61);
    assert_eq!(rt; tape.end().missed, 0);
    assert_eq!(rt;
        bytes,
        [
            1, 0x3f, 0x80, 0, 0, 0xc0, 0, 0, 0, 2, 0x3f, 0, 0, 0, 0x7f, 0xc0, 0, 0, 3, 0x3f, 0x80,
            0, 0, 0, 0, 0, 0, 0x80, 0, 0, 0, 0x7f, 0x80, 0, 0, 4, 0x3f, 0x80, 0, 0, 0x40, 0, 0, 0,
            0x40, 0x80, 0, 0, 0x41, 0, 0, 0, 0x41, 0x80, 0, 0, 0x42, 0, 0, 0, 5, 0xee, 0xee, 0xee,
        ]
    );
}

// After a stroke that does not fit, a close that would fit is only counted too.
#[test]
fn a_tape_that_is_full(rt: HostRuntime) {
    let mut bytes = [0xee; 12];
    let mut tape = TapePen::new(&mut bytes);
    tape.move_to(1.0, 1.0);
    tape.line_to(1.0, 1.0);
    tape.close();
    assert_eq!(rt; tape.end().len, 9);
    assert_eq!(rt; tape.end().missed, 2);
    assert_eq!(rt;
        bytes,
        [1, 0x3f, 0x80, 0, 0, 0x3f, 0x80, 0, 0, 0xee, 0xee, 0xee]
    );
}

#[test]
fn a_tape_that_fits_to_the_byte(rt: HostRuntime) {
    let mut bytes = [0; 10];
    let strokes = [Stroke::Line(0.0, 0.0), Stroke::Close];
    let end = tape_through(&strokes, Matrix::translate(1.0, 0.0), &mut bytes);
    assert_eq!(rt; end.len, 10);
    assert_eq!(rt; end.missed, 0);
    assert_eq!(rt; bytes, [2, 0x3f, 0x80, 0, 0, 0, 0, 0, 0, 5]);
    let mut none: [u8; 0] = [];
    let end = tape_through(&strokes, Matrix::IDENTITY, &mut none);
    assert_eq!(rt; end.len, 0);
    assert_eq!(rt; end.missed, 2);
}

#[test]
fn every_point_goes_through_the_matrix(rt: HostRuntime) {
    let transform = DecomposedTransform {
        translate_x: 10.0,
        translate_y: -20.0,
        rotation: 0.25,
        scale_x: 2.0,
        scale_y: 0.5,
        skew_x: 0.125,
        skew_y: -0.0625,
        center_x: 3.0,
        center_y: 7.0,
    };
    let mut bytes = [0; 25];
    let mut tape = TapePen::new(&mut bytes);
    let strokes = [Stroke::Curve(100.0, -50.0, 0.0, 0.0, 100.0, -50.0)];
    draw_through(&strokes, transform.matrix(), &mut tape);
    assert_eq!(rt;
        bytes,
        [
            4, 0x43, 0x52, 0x8a, 0xf1, 0x43, 0x02, 0x98, 0x27, 0x41, 0x71, 0xf2, 0xbb, 0xc1, 0x76,
            0x7f, 0x1a, 0x43, 0x52, 0x8a, 0xf1, 0x43, 0x02, 0x98, 0x27,
        ]
    );
}
