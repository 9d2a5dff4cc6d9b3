// A closed reading list: no more is noted in it, and extracts are made by it.
ghost use Rattle.std.specs.Prelude.{◌≡◌};

use crate::limits::Limits;
use crate::listed::Listed;

#[derive(Clone, Copy)]
pub struct ClosedTrace<'a> {
    pub(crate) table: Listed<'a>,
    pub(crate) limits: Limits,
    // how many entries the list had room for: a limit, and no length
    pub(crate) size: usize,
}

impl<'a> ClosedTrace<'a> {
    // The entries, by which extracts are made.
    pub fn table(&self) -> Listed<'a>
        ensures { result ≡ self.now.table }
    {
        self.table
    }

    pub fn limits(&self) -> Limits
        ensures { result ≡ self.now.limits }
    {
        self.limits
    }

    // How many entries the list had room for.
    pub fn size(&self) -> usize
        ensures { result ≡ self.now.size }
    {
        self.size
    }
}
