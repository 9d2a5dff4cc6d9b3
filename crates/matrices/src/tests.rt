// Expected bits are those that tools/oracle.py prints.
use crate::affine::Matrix;
use crate::decomposed::DecomposedTransform;
use std::num::f32_to_bits_with_nan;

// The bits of a matrix: xx, yx, xy, yy, dx, dy.
fn bits(m: Matrix) -> [u32; 6] {
    [
        f32_to_bits_with_nan(m.xx),
        f32_to_bits_with_nan(m.yx),
        f32_to_bits_with_nan(m.xy),
        f32_to_bits_with_nan(m.yy),
        f32_to_bits_with_nan(m.dx),
        f32_to_bits_with_nan(m.dy),
    ]
}

#[test]
fn all_nine_numbers(rt: HostRuntime) {
    let transform = DecomposedTransform {
        translate_x: 10.0,
        translate_y: -20.0,
        rotation: 0.25,
        scale_x: 2.0,
        scale_y: 0.5,
        skew_x: 0.125,
        skew_y: -0.0625,
        center_x: 3.0,
        center_y: 7.0,
    };
    let m = transform.matrix();
    assert_eq!(rt;
        bits(m),
        [
            0x3fbe0566, 0x3fac0480, 0xbf707894, 0xbe6dce82, 0x4171f2bb, 0xc1767f1a,
        ]
    );
    let (x, y) = m.transform(100.0, -50.0);
    assert_eq!(rt; f32_to_bits_with_nan(x), 0x43528af1);
    assert_eq!(rt; f32_to_bits_with_nan(y), 0x43029827);
}

#[test]
fn nine_numbers_that_all_round(rt: HostRuntime) {
    let transform = DecomposedTransform {
        translate_x: 0.1,
        translate_y: 0.2,
        rotation: 0.33333334,
        scale_x: 1.1,
        scale_y: -0.9,
        skew_x: 0.07,
        skew_y: 0.03,
        center_x: -0.3,
        center_y: 12.7,
    };
    assert_eq!(rt;
        bits(transform.matrix()),
        [
            0x3f1fa94e, 0x3f68fbb1, 0x3f280f4a, 0xbf29b646, 0xc1059a8f, 0x41acbd1a,
        ]
    );
}

#[test]
fn one_inside_the_other(rt: HostRuntime) {
    let inner = DecomposedTransform {
        translate_x: 100.0,
        ..DecomposedTransform::IDENTITY
    };
    let outer = DecomposedTransform {
        translate_y: 30.0,
        scale_x: 2.0,
        scale_y: 2.0,
        ..DecomposedTransform::IDENTITY
    };
    let m = Matrix::IDENTITY
        .product(outer.matrix())
        .product(inner.matrix());
    assert_eq!(rt;
        bits(m),
        [
            0x40000000, 0x00000000, 0x00000000, 0x40000000, 0x43480000, 0x41f00000,
        ]
    );
}

#[test]
fn a_turn_by_no_number(rt: HostRuntime) {
    let transform = DecomposedTransform {
        rotation: f32::NAN,
        ..DecomposedTransform::IDENTITY
    };
    assert_eq!(rt; bits(transform.matrix()), [0x7fc00000; 6]);
}
