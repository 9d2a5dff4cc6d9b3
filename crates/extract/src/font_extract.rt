// A font by a closed list: the head and the listed records as below; the rest is not covered or missing.
ghost use Rattle.trace.specs.Extracts.{left_glyphs, left_conditions, left_lists, left_regions, left_sets};
ghost use Rattle.extract.specs.Shown.{extract_bounded};

use crate::extracts::Extract;
use font::{Component, Condition, DeltaSetSize, Font, GlyphList, Head, RegionAxis, Step};
use numbers::GlyphId;
use trace::Entry;

impl<'t, F: Font> Font for Extract<'t, F> {
    ghost head = { λ x. F.Font.head x.below };

    ghost glyph = { λ x. left_glyphs x.table.entries.now (F.Font.glyph x.below) };

    ghost condition = { λ x. left_conditions x.table.entries.now (F.Font.condition x.below) };

    ghost list = { λ x. left_lists x.table.entries.now (F.Font.list x.below) };

    ghost region = { λ x. left_regions x.table.entries.now (F.Font.region x.below) };

    ghost set = { λ x. left_sets x.table.entries.now (F.Font.set x.below) };

    ghost bounded = { λ x. extract_bounded x.table.entries.now (F.Font.bounded x.below) };

    fn font_head(&self) -> Head {
        self.below.font_head()
    }

    fn glyph_list(&self, id: GlyphId) -> Option<GlyphList> {
        self.shown(Entry::Glyph(id))?.glyph_list(id)
    }

    fn component(&self, id: GlyphId, i: usize) -> Option<Component> {
        self.shown(Entry::Glyph(id))?.component(id, i)
    }

    fn axis_value_count(&self, id: GlyphId, i: usize) -> Option<usize> {
        self.shown(Entry::Glyph(id))?.axis_value_count(id, i)
    }

    fn axis_value(&self, id: GlyphId, i: usize, k: usize) -> Option<i32> {
        self.shown(Entry::Glyph(id))?.axis_value(id, i, k)
    }

    fn condition_kind(&self, number: u32) -> Option<Condition<usize>> {
        self.shown(Entry::Condition(number))?.condition_kind(number)
    }

    fn step(&self, number: u32, i: usize) -> Option<Step> {
        self.shown(Entry::Condition(number))?.step(number, i)
    }

    fn axis_list_size(&self, number: u32) -> Option<usize> {
        self.shown(Entry::AxisList(number))?.axis_list_size(number)
    }

    fn listed_axis(&self, number: u32, i: usize) -> Option<u16> {
        self.shown(Entry::AxisList(number))?.listed_axis(number, i)
    }

    fn region_axes(&self, number: u32, table: &mut [RegionAxis; 64]) -> Option<usize> {
        self.shown(Entry::Region(number))?
            .region_axes(number, table)
    }

    fn delta_set_size(&self, number: u32) -> Option<DeltaSetSize> {
        self.shown(Entry::DeltaSet(number))?.delta_set_size(number)
    }

    fn set_region(&self, number: u32, i: usize) -> Option<u16> {
        self.shown(Entry::DeltaSet(number))?.set_region(number, i)
    }

    fn delta(&self, number: u32, i: usize) -> Option<i32> {
        self.shown(Entry::DeltaSet(number))?.delta(number, i)
    }
}
