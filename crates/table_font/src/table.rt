// A table font: its head, with at most 64 axes, and its slices.
ghost use Rattle.std.specs.Prelude.{◌≤◌};

use crate::tables::Tables;
use font::Head;

// A head whose axis count is in range, so that opening a font with it cannot refuse.
#[derive(Clone, Copy)]
pub struct CheckedHead {
    pub(crate) head: Head,
    ghost few: { head.axis_count ≤ 64 },
}

#[derive(Clone, Copy)]
pub struct TableFont<'a> {
    pub(crate) checked: CheckedHead,
    pub(crate) tables: Tables<'a>,
}
