// What a font and a store reply to an entry, in words, on one line. The items of a record are asked for by their places.
ghost use Rattle.std.specs.Iterator.{IsFinite};

use crate::source::Source;
use font::{Component, Condition, Font, RegionAxis};
use numbers::{GlyphId, Size};
use outline::PathStyle;
use std::alloc::AllocError;
use std::fmt;
use store::OutlineStore;
use tape::{TapeEnd, TapePen};
use tape_text::tape_text;
use trace::Entry;

// A number after its name, if there is one.
fn write_named(out: &mut String, name: &str, number: Option<u32>) -> Result<(), AllocError> {
    match number {
        Some(n) => write!(out, " {name} {n}"),
        None => Ok(()),
    }
}

// Each of the items, after the same text.
fn write_each<T: fmt::Display + Drop, I: Iterator<Item = T> + Drop>(
    out: &mut String,
    before: &str,
    items: I,
) -> Result<(), AllocError>
    requires next { I.can_next items }
    requires ends { IsFinite (I.remaining items) }
{
    for item in items {
        write!(out, "{before}{item}")?;
    }
    Ok(())
}

// A component, but for its axis values, which stand between its list and its variations.
fn write_part(out: &mut String, component: &Component) -> Result<(), AllocError> {
    let flags = component.flags.0;
    let glyph = component.glyph;
    let transform = component.transform;
    write!(out, " flags {flags:#x} glyph {glyph} {transform}")?;
    write_named(out, "condition", component.condition)?;
    write_named(out, "list", component.axis_list)
}

// The strokes on a tape as text, and how many did not fit.
fn write_tape(out: &mut String, memory: &[u8], end: TapeEnd) -> Result<(), AllocError> {
    let missed = end.missed;
    let bytes = memory.get(..end.len).unwrap_or(&[]);
    if !bytes.is_empty() {
        let text = tape_text(*out.allocator(), bytes)?;
        write!(out, " {text}")?;
    }
    if missed > 0 {
        write!(out, " +{missed}")?;
    }
    Ok(())
}

impl<F: Font, S: OutlineStore> Source<'_, F, S> {
    fn write_values(&self, out: &mut String, id: GlyphId, i: usize) -> Result<(), AllocError> {
        let Some(count) = self.font.axis_value_count(id, i) else {
            return Ok(());
        };
        out.push_str(" values")?;
        let values = (0..count).filter_map(|k| self.font.axis_value(id, i, k));
        write_each(out, " ", values)
    }

    fn write_component(&self, out: &mut String, id: GlyphId, i: usize) -> Result<(), AllocError> {
        let Some(component) = self.font.component(id, i) else {
            return Ok(());
        };
        write!(out, "; component {i}")?;
        write_part(out, &component)?;
        self.write_values(out, id, i)?;
        write_named(out, "axesvar", component.axis_values_var)?;
        write_named(out, "transformvar", component.transform_var)
    }

    fn write_glyph(&self, out: &mut String, id: GlyphId) -> Result<(), AllocError> {
        let Some(list) = self.font.glyph_list(id) else {
            return out.push_str("not covered");
        };
        let count = list.count;
        let end = list.end;
        write!(out, "{count} components, ending {end}")?;
        for i in 0..count {
            self.write_component(out, id, i)?;
        }
        Ok(())
    }

    fn write_condition(&self, out: &mut String, number: u32) -> Result<(), AllocError> {
        let count = match self.font.condition_kind(number) {
            None => return out.push_str("missing"),
            Some(Condition::Null) => return out.push_str("null"),
            Some(Condition::Steps(count)) => count,
        };
        write!(out, "{count} steps")?;
        let steps = (0..count).filter_map(|i| self.font.step(number, i));
        write_each(out, "; ", steps)
    }

    fn write_axis_list(&self, out: &mut String, number: u32) -> Result<(), AllocError> {
        let Some(count) = self.font.axis_list_size(number) else {
            return out.push_str("missing");
        };
        write!(out, "{count} axes")?;
        let axes = (0..count).filter_map(|i| self.font.listed_axis(number, i));
        write_each(out, " ", axes)
    }

    fn write_region(&self, out: &mut String, number: u32) -> Result<(), AllocError> {
        let mut table = [RegionAxis::default(); 64];
        let Some(count) = self.font.region_axes(number, &mut table) else {
            return out.push_str("missing");
        };
        write!(out, "{count} axes")?;
        write_each(out, "; axis ", table.iter().take(count))
    }

    fn write_set(&self, out: &mut String, number: u32) -> Result<(), AllocError> {
        let Some(size) = self.font.delta_set_size(number) else {
            return out.push_str("missing");
        };
        out.push_str("regions")?;
        let regions = (0..size.regions).filter_map(|i| self.font.set_region(number, i));
        write_each(out, " ", regions)?;
        out.push_str(" deltas")?;
        let deltas = (0..size.deltas).filter_map(|i| self.font.delta(number, i));
        write_each(out, " ", deltas)
    }

    // An outline at the default location, unscaled: its need, how it ends, and its strokes as a tape of this memory.
    fn write_outline(
        &self,
        out: &mut String,
        id: GlyphId,
        memory: &mut [u8],
    ) -> Result<(), AllocError> {
        let Some(need) = self.store.outline_need(id) else {
            return out.push_str("missing");
        };
        let mut pen = TapePen::new(memory);
        let size = Size::unscaled();
        let ended = self
            .store
            .draw_outline(id, &[], size, PathStyle::FreeType, &mut pen);
        let end = pen.end();
        match ended {
            Ok(()) => write!(out, "need {need}, ending well; tape")?,
            Err(fault) => write!(out, "need {need}, ending in {fault}; tape")?,
        }
        write_tape(out, memory, end)
    }

    // The reply to an entry; a width is told at the default location.
    pub(crate) fn write_reply(
        &self,
        out: &mut String,
        entry: Entry,
        memory: &mut [u8],
    ) -> Result<(), AllocError> {
        match entry {
            Entry::Glyph(id) => self.write_glyph(out, id),
            Entry::Condition(number) => self.write_condition(out, number),
            Entry::AxisList(number) => self.write_axis_list(out, number),
            Entry::Region(number) => self.write_region(out, number),
            Entry::DeltaSet(number) => self.write_set(out, number),
            Entry::Outline(id) => self.write_outline(out, id, memory),
            Entry::Width(id) => {
                let width = self.store.advance_width(id, &[]);
                write!(out, "width {width}")
            }
        }
    }
}
