// One item of a slice, and a part of one.
ghost use Rattle.std.specs.Prelude.{◌≡◌};
ghost use Rattle.std.specs.List.{slice_get};
ghost use Rattle.std.specs.Option.{option_map};
ghost use Rattle.directory.specs.Parts.{part_of};

// The item at a place, or none past the end.
pub fn item<T: Copy>(items: &[T], i: usize) -> Option<T>
    ensures { result ≡ slice_get items.now i }
{
    items.get(i).copied()
}

// Where a list stands in a slice: its first place, and how many items it has.
// By place, and no list of its own: a font and a store are read in memory that is lent, and nothing is allocated.
#[derive(Clone, Copy)]
pub struct Span {
    pub start: usize,
    pub count: usize,
}

// The items of a span, or none where they are more than `most` or go past the slice.
pub fn part<T>(items: &[T], span: Span, most: usize) -> Option<&[T]>
    ensures { option_map (λ x. x.now) result ≡ part_of items.now span most }
{
    let end = span.start.checked_add(span.count)?;
    if span.count > most {
        return None;
    }
    items.get(span.start..end)
}
