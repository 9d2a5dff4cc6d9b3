// The entries of a closed reading list.
ghost use Rattle.std.specs.Prelude.{◌≡◌, length};
ghost use Rattle.std.specs.List.{slice_get};
ghost use Rattle.trace.specs.Entries.{has};

use crate::entries::Entry;

// Whether an entry stands among others.
pub(crate) fn finds(entries: &[Entry], sought: Entry) -> bool
    ensures { result ≡ has entries.now sought }
{
    entries.contains(&sought)
}

#[derive(Clone, Copy)]
pub struct Listed<'a> {
    pub(crate) entries: &'a [Entry],
}

impl Listed<'_> {
    // Whether an entry is listed.
    pub fn lists(&self, entry: Entry) -> bool
        ensures { result ≡ has self.now.entries.now entry }
    {
        finds(self.entries, entry)
    }

    // How many entries are listed.
    pub fn len(&self) -> usize
        ensures { result ≡ length self.now.entries.now }
    {
        self.entries.len()
    }

    // The entry at a place, in the order of first consulting.
    pub fn entry(&self, i: usize) -> Option<Entry>
        ensures { result ≡ slice_get self.now.entries.now i }
    {
        self.entries.get(i).copied()
    }
}

impl<'a> Listed<'a> {
    // All entries, in that order.
    pub fn entries(&self) -> &'a [Entry]
        ensures { result ≡ self.now.entries }
    {
        self.entries
    }
}
