// Opening, noting and closing.
ghost use Rattle.std.specs.Prelude.{◌≡◌, min, [], length};
ghost use Rattle.std.specs.List.{slice_get};
ghost use Rattle.trace.specs.Entries.{has};
ghost use Rattle.trace.specs.Asks.{listing};
ghost use Rattle.trace.specs.Tracing.{reading, Steady, NotedAs};

use crate::closed::ClosedTrace;
use crate::entries::Entry;
use crate::limits::Limits;
use crate::listed::{Listed, finds};
use crate::tracer::Tracer;
use refusals::{DrawError, Place, Refusal};

impl<'a> Tracer<'a> {
    // An empty list of as many entries as the limits allow and the memory holds.
    pub fn open(limits: Limits, entries: &'a mut [Entry]) -> Self
        ensures empty { reading result ≡ [] }
        ensures limits { result.limits ≡ limits }
        ensures size { result.size ≡ min limits.entries (length entries.old) }
    {
        let size = limits.entries().min(entries.len());
        Tracer {
            entries,
            len: 0,
            size,
            limits,
        }
    }

    pub fn limits(&self) -> Limits
        ensures { result ≡ self.now.limits }
    {
        self.limits
    }

    // The entries listed so far.
    fn listed(&self) -> &[Entry]
        ensures { result.now ≡ reading self.now }
    {
        &self.entries[..self.len]
    }

    // Whether an entry is listed.
    pub fn lists(&self, entry: Entry) -> bool
        ensures { result ≡ has (reading self.now) entry }
    {
        finds(self.listed(), entry)
    }

    // The entry at a place of the list.
    pub fn entry(&self, i: usize) -> Option<Entry>
        ensures { result ≡ slice_get (reading self.now) i }
    {
        self.listed().get(i).copied()
    }

    // Notes an entry that is about to be consulted from a place of the walk: sought, and appended if it is not there.
    #[tactic(auto, using(crate::proofs::Notes::listing_appends))]
    pub(crate) fn note(&mut self, place: Option<Place>, entry: Entry) -> Result<(), Refusal>
        ensures steady { Steady self.old self.new }
        ensures noted { NotedAs place (listing self.old.size (reading self.old) entry) (reading self.old) (reading self.new) result }
    {
        if self.lists(entry) {
            return Ok(());
        }
        let len = self.len;
        if len >= self.size {
            return Err(Refusal::new(DrawError::ListFull, place));
        }
        self.entries[len] = entry;
        self.len = len + 1;
        Ok(())
    }

    // The list, closed for good.
    pub fn close(self) -> ClosedTrace<'a>
        ensures list { result.table.entries.now ≡ reading self.entry }
        ensures limits { result.limits ≡ self.entry.limits }
        ensures size { result.size ≡ self.entry.size }
    {
        let Tracer {
            entries,
            len,
            size,
            limits,
        } = self;
        ClosedTrace {
            table: Listed {
                entries: &entries[0..len],
            },
            limits,
            size,
        }
    }
}
