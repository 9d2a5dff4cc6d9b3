// What a table font replies.
ghost use Rattle.std.specs.Prelude.{◌≡◌, ◌≤◌, length, take};
ghost use Rattle.table_font.specs.Rows.{glyph_in, condition_in, list_in, region_in, set_in};
ghost use Rattle.table_font.specs.Maximums.{bounded_in};

use crate::parts::{clip, list_end};
use crate::table::TableFont;
use font::{Component, Condition, DeltaSetSize, Font, GlyphList, Head, RegionAxis, Step};
use numbers::GlyphId;

// Copies at most 64 axes to the start of a table.
fn copy_axes(axes: &[RegionAxis], table: &mut [RegionAxis; 64]) -> usize
    requires { length axes.now ≤ 64 }
    ensures len { result ≡ length axes.now }
    ensures front { take result table.new ≡ axes.now }
{
    let n = axes.len();
    table[0..n].copy_from_slice(axes);
    n
}

impl<'a> Font for TableFont<'a> {
    ghost head = { λ f. f.checked.head };

    ghost glyph = { λ f. glyph_in f.tables };

    ghost condition = { λ f. condition_in f.tables };

    ghost list = { λ f. list_in f.tables };

    ghost region = { λ f. region_in f.tables };

    ghost set = { λ f. set_in f.tables };

    ghost bounded = { bounded_in };

    fn font_head(&self) -> Head {
        self.checked.head
    }

    fn glyph_list(&self, id: GlyphId) -> Option<GlyphList> {
        let row = self.tables.glyphs.row(id.to_u32())?;
        Some(GlyphList {
            count: clip(self.tables.components, row.components).len(),
            end: list_end(self.tables.components, row),
        })
    }

    fn component(&self, id: GlyphId, i: usize) -> Option<Component> {
        let row = self.tables.component_row(id, i)?;
        Some(row.component)
    }

    fn axis_value_count(&self, id: GlyphId, i: usize) -> Option<usize> {
        let values = self.tables.component_values(id, i)?;
        Some(values.len())
    }

    fn axis_value(&self, id: GlyphId, i: usize, k: usize) -> Option<i32> {
        self.tables.component_values(id, i)?.get(k).copied()
    }

    fn condition_kind(&self, number: u32) -> Option<Condition<usize>> {
        match self.tables.condition(number)? {
            Condition::Null => Some(Condition::Null),
            Condition::Steps(steps) => Some(Condition::Steps(steps.len())),
        }
    }

    fn step(&self, number: u32, i: usize) -> Option<Step> {
        match self.tables.condition(number)? {
            Condition::Null => None,
            Condition::Steps(steps) => steps.get(i).copied(),
        }
    }

    fn axis_list_size(&self, number: u32) -> Option<usize> {
        let axes = self.tables.axis_list(number)?;
        Some(axes.len())
    }

    fn listed_axis(&self, number: u32, i: usize) -> Option<u16> {
        self.tables.axis_list(number)?.get(i).copied()
    }

    fn region_axes(&self, number: u32, table: &mut [RegionAxis; 64]) -> Option<usize> {
        let axes = self.tables.axes_of_region(number)?;
        Some(copy_axes(axes, table))
    }

    fn delta_set_size(&self, number: u32) -> Option<DeltaSetSize> {
        let lists = self.tables.set_lists(number)?;
        Some(DeltaSetSize {
            regions: lists.regions.len(),
            deltas: lists.deltas.len(),
        })
    }

    fn set_region(&self, number: u32, i: usize) -> Option<u16> {
        self.tables.set_lists(number)?.regions.get(i).copied()
    }

    fn delta(&self, number: u32, i: usize) -> Option<i32> {
        self.tables.set_lists(number)?.deltas.get(i).copied()
    }
}
