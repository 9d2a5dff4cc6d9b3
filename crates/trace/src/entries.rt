// The entries of a reading list: a letter for the kind of record, and its number.
ghost use Rattle.std.specs.Prelude.{◌≡◌, Some};
ghost use Rattle.trace.specs.Entries as entries;
ghost use Rattle.trace.specs.Texts.{entry_text};

use numbers::GlyphId;
use std::fmt;

#[derive(Clone, Copy, Debug, PartialEq, Eq)]
pub enum Entry {
    Glyph(GlyphId),
    Condition(u32),
    AxisList(u32),
    Region(u32),
    DeltaSet(u32),
    Outline(GlyphId),
    Width(GlyphId),
}

impl Entry {
    // The letter of the kind: G C L R D O W.
    pub fn letter(self) -> char
        ensures { result ≡ entries.letter self }
    {
        match self {
            Entry::Glyph(_) => 'G',
            Entry::Condition(_) => 'C',
            Entry::AxisList(_) => 'L',
            Entry::Region(_) => 'R',
            Entry::DeltaSet(_) => 'D',
            Entry::Outline(_) => 'O',
            Entry::Width(_) => 'W',
        }
    }

    pub fn number(self) -> u32
        ensures { result ≡ entries.number self }
    {
        match self {
            Entry::Glyph(id) | Entry::Outline(id) | Entry::Width(id) => id.to_u32(),
            Entry::Condition(number)
            | Entry::AxisList(number)
            | Entry::Region(number)
            | Entry::DeltaSet(number) => number,
        }
    }

    // Whether two entries are one: `==`, promised here by letter and number.
    pub fn is(self, other: Entry) -> bool
        ensures { result ≡ entries.same self other }
    {
        self == other
    }
}

// As `G20`.
impl fmt::Display for Entry {
    ghost output = { λ entry. Some (entry_text entry) };

    fn fmt<W: fmt::Write>(&self, f: &mut fmt::Formatter<W>) -> fmt::Result {
        let letter = self.letter();
        let number = self.number();
        write!(f, "{letter}{number}")
    }
}
