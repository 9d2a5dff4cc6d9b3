// The slices of a job's font and store.
ghost use Rattle.std.specs.Prelude.{IfOk};
ghost use Rattle.job.specs.RowsOf.{RowsOf, JobRows};
ghost use Rattle.job.specs.Slices.{Lent, FontSlices, StoreSlices};

use crate::jobs::Job;
use directory::{Rows, Span};
use font::Condition;
use std::alloc::{AllocError, Global};
use std::collections::BTreeMap;
use store::{OutlineRow, StrokeStore};
use table_font::{DeltaSetRow, GlyphRow, Tables};

// Numbers in rising order, and their rows. Two vectors, since a table is read from two slices (`Rows`).
#[derive(Drop)]
pub struct OwnRows<T> {
    ids: Vec<u32>,
    rows: Vec<T>,
}

impl<T: Copy> OwnRows<T> {
    // The rows of a map, in the order of their numbers.
    fn of(heap: Global, map: &BTreeMap<u32, T>) -> Result<Self, AllocError>
        ensures { IfOk result (λ rows. RowsOf map.now rows) }
    {
        let ids: Vec<u32> = map.keys().copied().collect(heap)?;
        let rows: Vec<T> = map.values().copied().collect(heap)?;
        Ok(OwnRows { ids, rows })
    }

    // The rows as slices.
    fn lent(&self) -> Rows<'_, T>
        ensures { Lent self.now result }
    {
        Rows::new(&self.ids, &self.rows)
    }
}

// The rows of a job, by kind.
#[derive(Drop)]
pub struct JobTables {
    glyphs: OwnRows<GlyphRow>,
    conditions: OwnRows<Condition<Span>>,
    lists: OwnRows<Span>,
    regions: OwnRows<Span>,
    sets: OwnRows<DeltaSetRow>,
    outlines: OwnRows<OutlineRow>,
    widths: OwnRows<i32>,
}

impl JobTables {
    // The rows of each kind, in the order of their numbers.
    pub fn of(heap: Global, job: &Job) -> Result<JobTables, AllocError>
        ensures { IfOk result (λ t. JobRows job.now t) }
    {
        Ok(JobTables {
            glyphs: OwnRows::of(heap, &job.glyphs)?,
            conditions: OwnRows::of(heap, &job.conditions)?,
            lists: OwnRows::of(heap, &job.lists)?,
            regions: OwnRows::of(heap, &job.regions)?,
            sets: OwnRows::of(heap, &job.sets)?,
            outlines: OwnRows::of(heap, &job.outlines)?,
            widths: OwnRows::of(heap, &job.widths)?,
        })
    }

    // The slices of the font.
    pub fn font<'a>(&'a self, job: &'a Job) -> Tables<'a>
        ensures { FontSlices self.now job.now result }
    {
        Tables {
            glyphs: self.glyphs.lent(),
            components: &job.components,
            values: &job.values,
            conditions: self.conditions.lent(),
            steps: &job.steps,
            lists: self.lists.lent(),
            list_axes: &job.list_axes,
            regions: self.regions.lent(),
            region_axes: &job.region_axes,
            sets: self.sets.lent(),
            set_regions: &job.set_regions,
            deltas: &job.deltas,
        }
    }

    // The store: its units per em are 1,000 where the job does not tell them.
    pub fn store<'a>(&'a self, job: &'a Job) -> StrokeStore<'a>
        ensures { StoreSlices self.now job.now result }
    {
        StrokeStore {
            units_per_em: job.upem.unwrap_or(1000),
            outlines: self.outlines.lent(),
            strokes: &job.strokes,
            widths: self.widths.lent(),
        }
    }
}
