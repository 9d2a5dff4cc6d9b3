// Making a directory, and finding a number in it.
ghost use Rattle.std.specs.Prelude.{◌≡◌, ◌≤◌, length, take};
ghost use Rattle.std.specs.Option.{option_map};
ghost use Rattle.directory.specs.Rising.{Rises, rising};
ghost use Rattle.directory.specs.Parts.{of_span};
ghost use Rattle.directory.specs.Places.{place_of, row_at, row_of};

use crate::items::{Span, item, part};
use crate::numbers::{Directory, Rows};

// The numbers up to where they stop rising.
fn risen(numbers: &[u32]) -> &[u32]
    ensures rises { Rises result.now }
    ensures front { result.now ≡ rising numbers.now }
{
    numbers.chunk_by(|a, b| a < b).next().unwrap_or(numbers)
}

impl<'a> Directory<'a> {
    // The numbers up to where they stop rising; those from there on are left out.
    pub fn new(numbers: &'a [u32]) -> Self
        ensures { result.numbers.now ≡ rising numbers.now }
    {
        Directory {
            numbers: risen(numbers),
        }
    }

    // The place of a number, or none where it is not there.
    #[tactic(auto, using(crate::proofs::Found::place_searched))]
    pub fn place(&self, number: u32) -> Option<usize>
        ensures { result ≡ place_of self.now.numbers.now number }
    {
        self.numbers.binary_search(&number).ok()
    }

    // The row beside a number, or none where the number or its row is not there.
    pub fn row<T: Copy>(&self, rows: &[T], number: u32) -> Option<T>
        ensures { result ≡ row_at rows.now (place_of self.now.numbers.now number) }
    {
        item(rows, self.place(number)?)
    }
}

impl<'a, T: Copy> Rows<'a, T> {
    // Rows beside their numbers; those beside numbers that are left out are never found.
    pub fn new(numbers: &'a [u32], rows: &'a [T]) -> Self
        ensures numbers { result.numbers.numbers.now ≡ rising numbers.now }
        ensures rows { result.rows ≡ rows.entry }
    {
        Rows {
            numbers: Directory::new(numbers),
            rows,
        }
    }

    // The row beside a number, or none where the number or its row is not there.
    pub fn row(&self, number: u32) -> Option<T>
        ensures { result ≡ row_of self.now number }
    {
        self.numbers.row(self.rows, number)
    }
}

impl Rows<'_, Span> {
    // The items of the span beside a number, or none where there is none, or it has more than `most`, or goes past the slice.
    pub fn part<'b, T>(&self, items: &'b [T], number: u32, most: usize) -> Option<&'b [T]>
        ensures { option_map (λ x. x.now) result ≡ of_span items.now (row_of self.now number) most }
    {
        part(items, self.row(number)?, most)
    }
}
