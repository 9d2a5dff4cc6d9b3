// A font that is lent is a font too, so that a caller keeps its own.
use crate::components::{Component, GlyphList};
use crate::conditions::{Condition, Step};
use crate::fonts::Font;
use crate::heads::Head;
use crate::variations::{DeltaSetSize, RegionAxis};
use numbers::GlyphId;

impl<'a, F: Font> Font for &'a F {
    ghost head = { λ f. F.Font.head f.now };

    ghost glyph = { λ f. F.Font.glyph f.now };

    ghost condition = { λ f. F.Font.condition f.now };

    ghost list = { λ f. F.Font.list f.now };

    ghost region = { λ f. F.Font.region f.now };

    ghost set = { λ f. F.Font.set f.now };

    ghost bounded = { λ f. F.Font.bounded f.now };

    fn font_head(&self) -> Head {
        (**self).font_head()
    }

    fn glyph_list(&self, id: GlyphId) -> Option<GlyphList> {
        (**self).glyph_list(id)
    }

    fn component(&self, id: GlyphId, i: usize) -> Option<Component> {
        (**self).component(id, i)
    }

    fn axis_value_count(&self, id: GlyphId, i: usize) -> Option<usize> {
        (**self).axis_value_count(id, i)
    }

    fn axis_value(&self, id: GlyphId, i: usize, k: usize) -> Option<i32> {
        (**self).axis_value(id, i, k)
    }

    fn condition_kind(&self, number: u32) -> Option<Condition<usize>> {
        (**self).condition_kind(number)
    }

    fn step(&self, number: u32, i: usize) -> Option<Step> {
        (**self).step(number, i)
    }

    fn axis_list_size(&self, number: u32) -> Option<usize> {
        (**self).axis_list_size(number)
    }

    fn listed_axis(&self, number: u32, i: usize) -> Option<u16> {
        (**self).listed_axis(number, i)
    }

    fn region_axes(&self, number: u32, table: &mut [RegionAxis; 64]) -> Option<usize> {
        (**self).region_axes(number, table)
    }

    fn delta_set_size(&self, number: u32) -> Option<DeltaSetSize> {
        (**self).delta_set_size(number)
    }

    fn set_region(&self, number: u32, i: usize) -> Option<u16> {
        (**self).set_region(number, i)
    }

    fn delta(&self, number: u32, i: usize) -> Option<i32> {
        (**self).delta(number, i)
    }
}
