// What a stroke store draws.
use crate::tables::store;
use numbers::{GlyphId, Size};
use outline::PathStyle;
use store::{OutlineFault, OutlineStore};
use tape::TapePen;

#[test]
fn scaled_by_its_own_units(rt: HostRuntime) {
    let mut bytes = [0u8; 19];
    let mut pen = TapePen::new(&mut bytes);
    let id = GlyphId::NOTDEF;
    let drawn = store(1000).draw_outline(id, &[], Size::new(500.0), PathStyle::FreeType, &mut pen);
    assert_eq!(rt; drawn, Ok(()));
    // a move to (0, 0), a line to (25, 0), a close
    assert_eq!(rt;
        bytes,
        [
            1, 0, 0, 0, 0, 0, 0, 0, 0, 2, 0x41, 0xc8, 0, 0, 0, 0, 0, 0, 5,
        ]
    );
}

#[test]
fn faults_and_gaps(rt: HostRuntime) {
    let store = store(0);
    let mut bytes = [0u8; 32];
    let mut pen = TapePen::new(&mut bytes);
    let one = GlyphId::new(1);
    let faulty = store.draw_outline(one, &[], Size::new(9.0), PathStyle::HarfBuzz, &mut pen);
    assert_eq!(rt; faulty, Err(OutlineFault(513)));
    // the stroke before the fault is drawn, unscaled where there are no units per em
    assert_eq!(rt; pen.end().len, 9);
    assert_eq!(rt; bytes[1], 0x42);
    assert_eq!(rt; store.outline_need(one), Some(8));
    // past its slice, and not there
    assert_eq!(rt; store.outline_need(GlyphId::new(2)), None);
    assert_eq!(rt; store.outline_need(GlyphId::new(3)), None);
    assert_eq!(rt; store.advance_width(GlyphId::NOTDEF, &[]), -7);
    assert_eq!(rt; store.advance_width(one, &[]), 0);
}
