// How a store tells that an outline ended in a fault of its own.
ghost use Rattle.std.specs.Prelude.{Some};
ghost use Rattle.store.specs.Texts.{fault_text};

use std::error::Error;
use std::fmt;

// The store's own code; what it means, the store knows.
#[derive(Clone, Copy, Debug, PartialEq, Eq)]
pub struct OutlineFault(pub u16);

impl OutlineFault {
    // What drawing an outline that is missing ends in.
    pub const MISSING: OutlineFault = OutlineFault(0);
}

// As `fault 513`.
impl fmt::Display for OutlineFault {
    ghost output = { λ fault. Some (fault_text fault) };

    fn fmt<W: fmt::Write>(&self, f: &mut fmt::Formatter<W>) -> fmt::Result {
        let code = self.0;
        write!(f, "fault {code}")
    }
}

impl Error for OutlineFault {}
