// What a table font replies where its slices end early or run on.
use crate::tables::{AXIS, tables};
use font::{Condition, Font, Head, ListEnd};
use numbers::GlyphId;
use refusals::DrawError;
use std::test::Fail;
use table_font::{CheckedHead, TableFont};

fn head(axis_count: u16) -> Head {
    Head {
        axis_count,
        units_per_em: 1000,
        has_store: true,
    }
}

fn flawed(end: ListEnd) -> bool {
    matches!(end, ListEnd::Flaw)
}

#[test]
fn heads_are_checked(rt: HostRuntime) -> Result<(), Fail> {
    assert!(rt; CheckedHead::check(head(64)).is_ok());
    match CheckedHead::check(head(65)) {
        Ok(_) => Err(Fail::new("65 axes")),
        Err(error) => {
            assert_eq!(rt; DrawError::number(error), 8);
            Ok(())
        },
    }
}

#[test]
fn glyphs_and_components(rt: HostRuntime) -> Result<(), Fail> {
    let font = TableFont::open(CheckedHead::check(head(2))?, tables());
    let Some(list) = font.glyph_list(GlyphId::new(10)) else {
        return Err(Fail::new("10"));
    };
    assert!(rt; list.count == 1 && !flawed(list.end));
    // its span has five components, and the slice two of them
    let Some(list) = font.glyph_list(GlyphId::new(20)) else {
        return Err(Fail::new("20"));
    };
    assert!(rt; list.count == 2 && flawed(list.end));
    // its span is empty, past the slice
    let Some(list) = font.glyph_list(GlyphId::new(40)) else {
        return Err(Fail::new("40"));
    };
    assert!(rt; list.count == 0 && flawed(list.end));
    assert!(rt; font.glyph_list(GlyphId::new(30)).is_none());
    assert!(rt; font.glyph_list(GlyphId::new(50)).is_none());
    assert!(rt; font.component(GlyphId::new(10), 0).is_some());
    assert!(rt; font.component(GlyphId::new(10), 1).is_none());
    assert!(rt; font.component(GlyphId::new(20), 1).is_some());
    Ok(())
}

#[test]
fn axis_values(rt: HostRuntime) -> Result<(), Fail> {
    let font = TableFont::open(CheckedHead::check(head(2))?, tables());
    assert_eq!(rt; font.axis_value_count(GlyphId::new(10), 0), Some(2));
    assert_eq!(rt; font.axis_value(GlyphId::new(10), 0, 0), Some(-8));
    assert_eq!(rt; font.axis_value(GlyphId::new(10), 0, 2), None);
    // past their slice, and absent
    assert_eq!(rt; font.axis_value_count(GlyphId::new(20), 0), None);
    assert_eq!(rt; font.axis_value_count(GlyphId::new(20), 1), None);
    Ok(())
}

#[test]
fn conditions_lists_and_sets(rt: HostRuntime) -> Result<(), Fail> {
    let font = TableFont::open(CheckedHead::check(head(2))?, tables());
    assert!(rt; matches!(font.condition_kind(0), Some(Condition::Null)));
    assert!(rt; matches!(font.condition_kind(1), Some(Condition::Steps(2))));
    assert!(rt; font.condition_kind(2).is_none());
    assert!(rt; font.condition_kind(3).is_none());
    assert_eq!(rt; font.axis_list_size(0), Some(2));
    assert_eq!(rt; font.listed_axis(0, 1), Some(6));
    // an empty span past its slice, and a number whose row is not there
    assert_eq!(rt; font.axis_list_size(1), None);
    assert_eq!(rt; font.axis_list_size(2), None);
    assert_eq!(rt; font.delta(0, 1), Some(-100));
    assert!(rt; font.delta_set_size(1).is_none());
    let mut table = [AXIS; 64];
    assert_eq!(rt; font.region_axes(0, &mut table), Some(1));
    assert_eq!(rt; font.region_axes(1, &mut table), None);
    Ok(())
}
