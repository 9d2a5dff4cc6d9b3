// The numbers of a table's records, and rows beside them.
ghost use Rattle.directory.specs.Rising.{Rises};

#[derive(Clone, Copy)]
pub struct Directory<'a> {
    pub(crate) numbers: &'a [u32],
    ghost rises: { Rises numbers.now },
}

// A table: the row of the record with the first number stands first, and so on.
// Two slices, so that a number may stand without a row, tables may share their numbers, and a search passes over numbers alone;
// no map, since they are the caller's memory, and nothing is allocated.
#[derive(Clone, Copy)]
pub struct Rows<'a, T> {
    pub numbers: Directory<'a>,
    pub rows: &'a [T],
}
