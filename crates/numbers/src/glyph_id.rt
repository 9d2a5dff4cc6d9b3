// The number of a glyph in a font.
ghost use Rattle.std.specs.Prelude.{◌≡◌, Some, decimal};
ghost use Rattle.numbers.specs.Types.{glyph};

use std::fmt;

#[derive(Clone, Copy, PartialEq, Eq, Debug)]
pub struct GlyphId(u32);

impl GlyphId {
    // The glyph that fonts draw for what they lack.
    pub const NOTDEF: GlyphId = GlyphId(0);

    // No `From`: it would say no more than the original's name does.
    pub fn new(number: u32) -> Self
        ensures { result ≡ glyph number }
    {
        GlyphId(number)
    }

    // No `From`: it would say no more than the original's name does.
    pub fn to_u32(self) -> u32
        ensures { result ≡ self.0 }
    {
        self.0
    }
}

// As its number.
impl fmt::Display for GlyphId {
    ghost output = { λ glyph. Some (decimal glyph.0) };

    fn fmt<W: fmt::Write>(&self, f: &mut fmt::Formatter<W>) -> fmt::Result {
        let number = self.0;
        write!(f, "{number}")
    }
}
