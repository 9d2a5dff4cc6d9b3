// An open reading list, in memory that is lent.
ghost use Rattle.std.specs.Prelude.{◌≤◌, length};

use crate::entries::Entry;
use crate::limits::Limits;

#[derive(Drop)]
pub struct Tracer<'a> {
    // the lent records; those listed stand at the start (no `Vec`: the list is kept in memory that is lent)
    pub(crate) entries: &'a mut [Entry],
    pub(crate) len: usize,
    // how many entries may be listed: no length of the memory, which may be longer
    pub(crate) size: usize,
    pub(crate) limits: Limits,
    ghost within: { len ≤ size },
    ghost room: { size ≤ length entries.now },
}
