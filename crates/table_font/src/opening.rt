// Checking a head, the one place where a table font is refused, and opening a font with it.
ghost use Rattle.std.specs.Prelude.{◌≡◌};
ghost use Rattle.table_font.specs.Opened.{HeadChecked};

use crate::table::{CheckedHead, TableFont};
use crate::tables::Tables;
use font::Head;
use refusals::DrawError;

impl CheckedHead {
    // The head, or a refusal where it has more than 64 axes. No `TryFrom`: the name tells at the call that this is the one check.
    pub fn check(head: Head) -> Result<CheckedHead, DrawError>
        ensures { HeadChecked head result }
    {
        if head.axis_count > 64 {
            return Err(DrawError::LimitsOutOfRange);
        }
        Ok(CheckedHead { head })
    }
}

impl<'a> TableFont<'a> {
    // A font over these slices.
    pub fn open(checked: CheckedHead, tables: Tables<'a>) -> Self
        ensures head { result.checked ≡ checked }
        ensures tables { result.tables ≡ tables.entry }
    {
        TableFont { checked, tables }
    }
}
