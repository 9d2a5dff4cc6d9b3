// What is left of a font, or of a store, by a closed list: it lies over the one below, and shows of that only what is listed.
ghost use Rattle.std.specs.Prelude.{◌≡◌, cond, Some, None};
ghost use Rattle.std.specs.Option.{option_map};
ghost use Rattle.trace.specs.Entries.{has};

use trace::{ClosedTrace, Entry, Listed};

#[derive(Drop)]
pub struct Extract<'t, B> {
    pub(crate) below: B,
    pub(crate) table: Listed<'t>,
}

impl<'t, B> Extract<'t, B> {
    // What is left by a closed list.
    pub fn new(closed: &ClosedTrace<'t>, below: B) -> Self
        ensures below { result.below ≡ below }
        ensures table { result.table ≡ closed.now.table }
    {
        Extract {
            below,
            table: closed.table(),
        }
    }

    // The one below, for a record that is listed.
    pub(crate) fn shown(&self, entry: Entry) -> Option<&B>
        ensures { option_map (λ below. below.now) result ≡ cond (has self.now.table.entries.now entry) (Some self.now.below) None }
    {
        self.table.lists(entry).then_some(&self.below)
    }
}
