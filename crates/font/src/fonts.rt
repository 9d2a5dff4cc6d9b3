// The trait of all fonts. Consulting a record changes nothing, and its reply never differs.
// What a record holds is asked for by its place, item by item: a trait hands out no iterator, and a list of its own would be allocated.
ghost use Rattle.std.specs.Prelude.{◌≡◌, ℕ, List, Option as Perhaps};
ghost use Rattle.std.specs.List.{slice_get};
ghost use Rattle.font.specs.declared.heads.Head.{Head as Heads};
ghost use Rattle.font.specs.declared.variations.RegionAxis.{RegionAxis as Axis};
ghost use Rattle.font.specs.Replies.{GlyphReply, ConditionReply, DeltaSet, glyph_list_of, parts, fixed_part, values_at, kind_of, steps_of, list_size, list_of, set_size, set_regions, set_deltas, Copied};
ghost use Rattle.font.specs.Maximums.{Bounded};

use crate::components::{Component, GlyphList};
use crate::conditions::{Condition, Step};
use crate::heads::Head;
use crate::variations::{DeltaSetSize, RegionAxis};
use numbers::GlyphId;

pub trait Font {
    ghost head: { Self → Heads };

    ghost glyph: { Self → ℕ → GlyphReply };

    ghost condition: { Self → ℕ → ConditionReply };

    ghost list: { Self → ℕ → Perhaps (List ℕ) };

    ghost region: { Self → ℕ → Perhaps (List Axis) };

    ghost set: { Self → ℕ → Perhaps DeltaSet };

    // no record is larger than its maximum
    ghost bounded: { (f : Self) → Bounded (head f) (glyph f) (condition f) (list f) (region f) (set f) };

    fn font_head(&self) -> Head
        ensures { result ≡ head self.now };

    // The size of a glyph's component list, or none where it is not covered.
    fn glyph_list(&self, id: GlyphId) -> Option<GlyphList>
        ensures { result ≡ glyph_list_of (glyph self.now id.0) };

    // A component of a glyph, by its place.
    fn component(&self, id: GlyphId, i: usize) -> Option<Component>
        ensures { result ≡ fixed_part (slice_get (parts (glyph self.now id.0)) i) };

    // How many axis values a component has, or none where they are absent.
    fn axis_value_count(&self, id: GlyphId, i: usize) -> Option<usize>
        ensures { result ≡ list_size (values_at (glyph self.now id.0) i) };

    fn axis_value(&self, id: GlyphId, i: usize, k: usize) -> Option<i32>
        ensures { result ≡ slice_get (list_of (values_at (glyph self.now id.0) i)) k };

    // Whether a condition is null, or how many steps it has; none where it is missing.
    fn condition_kind(&self, number: u32) -> Option<Condition<usize>>
        ensures { result ≡ kind_of (condition self.now number) };

    fn step(&self, number: u32, i: usize) -> Option<Step>
        ensures { result ≡ slice_get (steps_of (condition self.now number)) i };

    // How many axis numbers a list has, or none where it is missing.
    fn axis_list_size(&self, number: u32) -> Option<usize>
        ensures { result ≡ list_size (list self.now number) };

    fn listed_axis(&self, number: u32, i: usize) -> Option<u16>
        ensures { result ≡ slice_get (list_of (list self.now number)) i };

    // Copies the axes of a region to the start of a table, and tells how many they are; none where it is missing.
    fn region_axes(&self, number: u32, table: &mut [RegionAxis; 64]) -> Option<usize>
        ensures { Copied (region self.now number) table.new result };

    fn delta_set_size(&self, number: u32) -> Option<DeltaSetSize>
        ensures { result ≡ set_size (set self.now number) };

    fn set_region(&self, number: u32, i: usize) -> Option<u16>
        ensures { result ≡ slice_get (set_regions (set self.now number)) i };

    fn delta(&self, number: u32, i: usize) -> Option<i32>
        ensures { result ≡ slice_get (set_deltas (set self.now number)) i };
}
