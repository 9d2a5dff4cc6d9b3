// A font and a store, of which records are asked together, and what they told.
ghost use Rattle.std.specs.Iterator.{IsFinite};

use font::{Font, RegionAxis};
use refusals::Refusal;
use std::alloc::Global;
use std::fmt::Write;
use store::OutlineStore;
use trace::{Entry, Tracer};

// An entry, and what consulting it came to: the reply in words, or the refusal.
#[derive(Drop)]
pub(crate) struct Told {
    pub(crate) entry: Entry,
    pub(crate) text: String,
}

#[derive(Drop)]
pub(crate) struct Source<'a, F, S> {
    pub(crate) font: &'a F,
    pub(crate) store: &'a S,
}

impl<F: Font, S: OutlineStore> Source<'_, F, S> {
    // Consults one record through the tracer, outside any walk.
    fn consult(&self, tracer: &mut Tracer, entry: Entry) -> Result<(), Refusal> {
        let mut table = [RegionAxis::default(); 64];
        match entry {
            Entry::Glyph(id) => {
                let _list = tracer.consult_glyph(self.font, None, id)?;
            }
            Entry::Condition(number) => {
                let _kind = tracer.consult_condition(self.font, None, number)?;
            }
            Entry::AxisList(number) => {
                let _size = tracer.consult_axis_list(self.font, None, number)?;
            }
            Entry::Region(number) => {
                let _count = tracer.consult_region(self.font, None, number, &mut table)?;
            }
            Entry::DeltaSet(number) => {
                let _size = tracer.consult_delta_set(self.font, None, number)?;
            }
            Entry::Outline(id) => {
                let _need = tracer.consult_outline(self.store, None, id)?;
            }
            Entry::Width(id) => {
                let _width = tracer.consult_width(self.store, None, id, &[])?;
            }
        }
        Ok(())
    }

    fn told(
        &self,
        heap: Global,
        tracer: &mut Tracer,
        entry: Entry,
        memory: &mut [u8],
    ) -> anyhow::Result<Told> {
        let mut text = String::new(heap);
        match self.consult(tracer, entry) {
            Ok(()) => self.write_reply(&mut text, entry, memory)?,
            Err(refusal) => write!(text, "{refusal}")?,
        }
        Ok(Told { entry, text })
    }

    // What consulting each record in turn came to.
    pub(crate) fn all_told<I: Iterator<Item = Entry> + Drop>(
        &self,
        heap: Global,
        tracer: &mut Tracer,
        entries: I,
        memory: &mut [u8],
    ) -> anyhow::Result<Vec<Told>>
        requires next { I.can_next entries }
        requires ends { IsFinite (I.remaining entries) }
    {
        let mut all = Vec::new(heap);
        for entry in entries {
            all.push(self.told(heap, tracer, entry, memory)?)?;
        }
        Ok(all)
    }
}
