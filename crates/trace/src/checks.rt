// Checking limits, the one place where they are refused.
ghost use Rattle.std.specs.Prelude.{◌≡◌};
ghost use Rattle.trace.specs.Checks.{LimitsChecked};

use crate::limits::Limits;
use refusals::DrawError;

impl Limits {
    // Limits within range: a depth of 1 to 64, 1 to 4,096 edges, and a list of 0 to 1,024 entries.
    // No `TryFrom`: it would take the three in one, and they have no name together here.
    pub fn check(depth: u32, edges: u32, entries: usize) -> Result<Limits, DrawError>
        ensures { LimitsChecked depth edges entries result }
    {
        if !(1..=64).contains(&depth) || !(1..=4096).contains(&edges) || entries > 1024 {
            return Err(DrawError::LimitsOutOfRange);
        }
        Ok(Limits {
            depth,
            edges,
            entries,
        })
    }

    pub fn depth(self) -> u32
        ensures { result ≡ self.depth }
    {
        self.depth
    }

    pub fn edges(self) -> u32
        ensures { result ≡ self.edges }
    {
        self.edges
    }

    pub fn entries(self) -> usize
        ensures { result ≡ self.entries }
    {
        self.entries
    }
}
