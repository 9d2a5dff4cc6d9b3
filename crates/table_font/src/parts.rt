// The lists that the rows of a table font stand for.
ghost use Rattle.std.specs.Prelude.{◌≡◌};
ghost use Rattle.std.specs.List.{slice_get};
ghost use Rattle.std.specs.Option.{option_map};
ghost use Rattle.font.specs.Replies.{values_at};
ghost use Rattle.table_font.specs.Rows.{glyph_in, clipped, end_in, glyph_row, rows_in, values_in, list_in, region_in, condition_in, set_in};
ghost use Rattle.table_font.specs.Lists.{lists_now, condition_now};

use crate::tables::{ComponentRow, GlyphRow, Tables};
use directory::{Span, part};
use font::{Condition, ListEnd, RegionAxis, Step};
use numbers::GlyphId;

// The most components of a glyph, axis values of a component, steps of a condition, axes of a list or a region, and numbers of a delta set.
const MOST_COMPONENTS: usize = 65535;

const MOST_VALUES: usize = 64;

const MOST_STEPS: usize = 255;

const MOST_AXES: usize = 64;

const MOST_DELTAS: usize = 65535;

// The components of a span, as many as there are up to the maximum.
pub(crate) fn clip(components: &[ComponentRow], span: Span) -> &[ComponentRow]
    ensures { result.now ≡ clipped components.now span }
{
    let rest = components.get(span.start..).unwrap_or(&[]);
    &rest[..span.count.min(MOST_COMPONENTS).min(rest.len())]
}

// How a component list ends: in a flaw where its span passes the maximum or the slice.
pub(crate) fn list_end(components: &[ComponentRow], row: GlyphRow) -> ListEnd
    ensures { result ≡ end_in components.now row }
{
    part(components, row.components, MOST_COMPONENTS).map_or(ListEnd::Flaw, |_| row.end)
}

// The two lists of a delta set.
#[derive(Clone, Copy)]
pub(crate) struct SetLists<'a> {
    pub(crate) regions: &'a [u16],
    pub(crate) deltas: &'a [i32],
}

impl<'a> Tables<'a> {
    pub(crate) fn component_row(&self, id: GlyphId, i: usize) -> Option<ComponentRow>
        ensures { result ≡ slice_get (rows_in self.now id.0) i }
    {
        let row = self.glyphs.row(id.to_u32())?;
        clip(self.components, row.components).get(i).copied()
    }

    // The axis values of a component, or none where they are absent.
    pub(crate) fn axis_values(&self, row: ComponentRow) -> Option<&'a [i32]>
        ensures { option_map (λ x. x.now) result ≡ values_in self.now.values.now row.values }
    {
        part(self.values, row.values?, MOST_VALUES)
    }

    // The axis values of a glyph's component, or none where they are absent.
    pub(crate) fn component_values(&self, id: GlyphId, i: usize) -> Option<&'a [i32]>
        ensures { option_map (λ x. x.now) result ≡ values_at (glyph_in self.now id.0) i }
    {
        self.axis_values(self.component_row(id, i)?)
    }

    pub(crate) fn axis_list(&self, number: u32) -> Option<&'a [u16]>
        ensures { option_map (λ x. x.now) result ≡ list_in self.now number }
    {
        self.lists.part(self.list_axes, number, MOST_AXES)
    }

    pub(crate) fn axes_of_region(&self, number: u32) -> Option<&'a [RegionAxis]>
        ensures { option_map (λ x. x.now) result ≡ region_in self.now number }
    {
        self.regions.part(self.region_axes, number, MOST_AXES)
    }

    // A condition with its steps, or none where it is missing.
    pub(crate) fn condition(&self, number: u32) -> Option<Condition<&'a [Step]>>
        ensures { condition_now result ≡ condition_in self.now number }
    {
        match self.conditions.row(number)? {
            Condition::Null => Some(Condition::Null),
            Condition::Steps(span) => Some(Condition::Steps(part(self.steps, span, MOST_STEPS)?)),
        }
    }

    pub(crate) fn set_lists(&self, number: u32) -> Option<SetLists<'a>>
        ensures { option_map lists_now result ≡ set_in self.now number }
    {
        let row = self.sets.row(number)?;
        Some(SetLists {
            regions: part(self.set_regions, row.regions, MOST_DELTAS)?,
            deltas: part(self.deltas, row.deltas, MOST_DELTAS)?,
        })
    }
}
