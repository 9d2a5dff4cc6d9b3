// Consulting, a full list, and extracts.
use crate::tables::{store, tables};
use extract::Extract;
use font::{Font, Head};
use numbers::GlyphId;
use refusals::Place;
use std::test::Fail;
use store::OutlineStore;
use table_font::{CheckedHead, TableFont};
use trace::{Entry, Limits, Tracer};

const BLANK: Entry = Entry::Glyph(GlyphId::NOTDEF);

const HEAD: Head = Head {
    axis_count: 1,
    units_per_em: 1000,
    has_store: false,
};

#[test]
fn limits_are_checked(rt: HostRuntime) {
    assert!(rt; Limits::check(1, 1, 0).is_ok() && Limits::check(64, 4096, 1024).is_ok());
    assert!(rt; Limits::check(0, 1, 0).is_err() && Limits::check(65, 1, 0).is_err());
    assert!(rt; Limits::check(1, 0, 0).is_err() && Limits::check(1, 4097, 0).is_err());
    assert!(rt; Limits::check(1, 1, 1025).is_err());
}

// A list of two: a third record is refused with its place, and those listed are still served.
#[test]
fn a_list_that_is_full(rt: HostRuntime) -> Result<(), Fail> {
    let checked = CheckedHead::check(HEAD)?;
    let limits = Limits::check(1, 1, 2)?;
    let font = TableFont::open(checked, tables());
    let mut room = [BLANK; 8];
    let mut tracer = Tracer::open(limits, &mut room);
    assert!(rt; tracer.consult_glyph(&font, None, GlyphId::new(20)).is_ok());
    assert!(rt; tracer.consult_condition(&font, None, 20).is_ok());
    assert!(rt; tracer.consult_glyph(&font, None, GlyphId::new(20)).is_ok());
    let place = Place {
        glyph: GlyphId::new(20),
        component: 3,
    };
    match tracer.consult_axis_list(&font, Some(place), 20) {
        Ok(_) => return Err(Fail::new("a third entry")),
        Err(refusal) => {
            assert_eq!(rt; refusal.error.number(), 7);
            assert!(rt; matches!(refusal.place, Some(Place { component: 3, .. })));
        }
    }
    assert!(rt; tracer.consult_condition(&font, None, 20).is_ok());
    let closed = tracer.close();
    assert_eq!(rt; closed.table().len(), 2);
    assert!(rt; closed.table().lists(Entry::Condition(20)));
    assert!(rt; !closed.table().lists(Entry::AxisList(20)));
    Ok(())
}

// As much memory as is lent, where that is less than the limit.
#[test]
fn a_list_in_little_memory(rt: HostRuntime) -> Result<(), Fail> {
    let limits = Limits::check(1, 1, 1024)?;
    let mut room = [BLANK; 1];
    let mut tracer = Tracer::open(limits, &mut room);
    let store = store(1000);
    assert!(rt;
        tracer
            .consult_width(&store, None, GlyphId::NOTDEF, &[])
            .is_ok()
    );
    assert!(rt;
        tracer
            .consult_outline(&store, None, GlyphId::NOTDEF)
            .is_err()
    );
    Ok(())
}

#[test]
fn extracts_and_piles(rt: HostRuntime) -> Result<(), Fail> {
    let checked = CheckedHead::check(HEAD)?;
    let limits = Limits::check(1, 1, 9)?;
    let font = TableFont::open(checked, tables());
    let store = store(1000);
    let mut room = [BLANK; 8];
    let mut tracer = Tracer::open(limits, &mut room);
    assert!(rt; tracer.consult_glyph(&font, None, GlyphId::new(10)).is_ok());
    assert!(rt;
        tracer
            .consult_outline(&store, None, GlyphId::NOTDEF)
            .is_ok()
    );
    let closed = tracer.close();
    let pile = Extract::new(&closed, Extract::new(&closed, &font));
    assert_eq!(rt; pile.axis_value(GlyphId::new(10), 0, 0), Some(-8));
    assert!(rt; pile.glyph_list(GlyphId::new(20)).is_none());
    assert_eq!(rt; pile.axis_list_size(0), None);
    assert_eq!(rt; pile.font_head().units_per_em, 1000);
    let left = Extract::new(&closed, store);
    assert_eq!(rt; left.outline_need(GlyphId::NOTDEF), Some(24));
    assert_eq!(rt; left.outline_need(GlyphId::new(1)), None);
    assert_eq!(rt; left.advance_width(GlyphId::NOTDEF, &[]), 0);
    Ok(())
}
