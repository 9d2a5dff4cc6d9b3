// Expected bits are those that tools/oracle.py prints.
use crate::fixed::F2Dot14;
use crate::floats::{narrow, widen};
use crate::glyph_id::GlyphId;
use crate::sizes::Size;
use crate::turns::{cos_sin, tangent};
use std::num::f32_to_bits_with_nan;

// An angle, then its cosine and sine.
const TURNS: [(f32, u32, u32); 15] = [
    (0.0, 0x3f800000, 0x00000000),
    (0.25, 0x3f3504f3, 0x3f3504f3),
    (0.5, 0x80000000, 0x3f800000),
    (1.0, 0xbf800000, 0x80000000),
    (1.5, 0x00000000, 0xbf800000),
    (2.0, 0x3f800000, 0x00000000),
    (-0.5, 0x00000000, 0xbf800000),
    (-1.0, 0xbf800000, 0x80000000),
    (-1.5, 0x80000000, 0x3f800000),
    (-2.0, 0x3f800000, 0x80000000),
    (0.1, 0x3f737871, 0x3e9e377a),
    (-0.1, 0x3f737871, 0xbe9e377a),
    (1.75, 0x3f3504f3, 0xbf3504f3),
    (3.25, 0xbf3504f3, 0xbf3504f3),
    (-1e-30, 0x3f800000, 0x00000000),
];

#[test]
fn turns(rt: HostRuntime) {
    for (angle, cos, sin) in TURNS {
        let both = cos_sin(angle);
        assert_eq!(rt; f32_to_bits_with_nan(both.cos), cos, "cosine");
        assert_eq!(rt; f32_to_bits_with_nan(both.sin), sin, "sine");
    }
}

// Angles so far that most of their bits are whole turns.
#[test]
fn far_turns(rt: HostRuntime) {
    for (angle, cos, sin) in [
        (1e10, 0x3f800000, 0x00000000),
        (-1e20, 0x3f800000, 0x80000000),
        (16777215.0, 0xbf800000, 0x80000000),
        (-8388607.5, 0x80000000, 0x3f800000),
    ] {
        let both = cos_sin(angle);
        assert_eq!(rt; f32_to_bits_with_nan(both.cos), cos, "cosine");
        assert_eq!(rt; f32_to_bits_with_nan(both.sin), sin, "sine");
    }
}

#[test]
fn turns_that_are_no_number(rt: HostRuntime) {
    for angle in [f32::NAN, f32::INFINITY, f32::NEG_INFINITY] {
        let both = cos_sin(angle);
        assert!(rt; both.cos.is_nan() && both.sin.is_nan() && tangent(angle).is_nan());
    }
}

#[test]
fn tangents(rt: HostRuntime) {
    for (angle, tan) in [
        (0.0, 0x00000000),
        (0.25, 0x3f800000),
        (-0.25, 0xbf800000),
        (0.5, 0xff800000),
        (0.1, 0x3ea65be0),
    ] {
        assert_eq!(rt; f32_to_bits_with_nan(tangent(angle)), tan);
    }
}

#[test]
fn rounding(rt: HostRuntime) {
    for (count, whole) in [
        (-0.5, -1i16),
        (0.5, 1),
        (0.49999999999999994, 0),
        (-1.5, -2),
        (2.5, 3),
        (32766.5, 32767),
        (32767.5, 32767),
        (40000.0, 32767),
        (-32768.5, -32768),
        (-40000.0, -32768),
        (f64::INFINITY, 32767),
        (f64::NAN, 0),
    ] {
        assert_eq!(rt; F2Dot14::rounded(count), F2Dot14::from_bits(whole));
    }
}

#[test]
fn widths(rt: HostRuntime) {
    // halfway between two f32 values: to the even one
    assert_eq!(rt;
        f32_to_bits_with_nan(narrow(1.00000005960464477539)),
        0x3f800000
    );
    assert_eq!(rt;
        f32_to_bits_with_nan(narrow(1.00000017881393432617)),
        0x3f800002
    );
    assert_eq!(rt; f32_to_bits_with_nan(narrow(1e300)), 0x7f800000);
    assert!(rt; narrow(widen(f32::NAN)).is_nan());
    assert!(rt; widen(0.1) == 0.10000000149011612);
}

#[test]
fn sizes(rt: HostRuntime) {
    assert_eq!(rt;
        f32_to_bits_with_nan(Size::new(16.0).linear_scale(1000)),
        0x3c83126f
    );
    assert!(rt; Size::new(16.0).linear_scale(0) == 1.0);
    assert!(rt; Size::unscaled().linear_scale(1000) == 1.0);
    assert!(rt; Size::unscaled().ppem().is_none() && Size::new(16.0).ppem().is_some());
}

#[test]
fn numbers_of_their_own(rt: HostRuntime) {
    assert_eq!(rt; GlyphId::new(65536).to_u32(), 65536);
    assert_eq!(rt; GlyphId::NOTDEF, GlyphId::new(0));
    assert_ne!(rt; GlyphId::new(5), GlyphId::new(10));
    assert_eq!(rt; F2Dot14::from_bits(-16384).to_bits(), -16384);
}
