// Why a drawing is refused.
ghost use Rattle.std.specs.Prelude.{◌≡◌, Some};
ghost use Rattle.refusals.specs.Numbers as told;
ghost use Rattle.refusals.specs.Texts.{why};

use numbers::GlyphId;
use std::error::Error;
use std::fmt;

#[derive(Clone, Copy, Debug)]
pub enum DrawError {
    // The font data does not make sense: absent where it was required, too short, or at odds with itself.
    Malformed,
    // The glyph is not covered by the font, or its outline is not in the store.
    GlyphNotFound(GlyphId),
    // Opening this glyph would pass the depth limit or the edge limit; with glyph 0, a condition has too many waiting answers.
    RecursionLimitExceeded(GlyphId),
    // The outline store ended an outline in a fault of this code.
    OutlineFault(u16),
    // An outline needs more bytes than the base buffer has.
    InsufficientMemory,
    // The working memory that is lent is too small.
    WorkingMemory,
    // The reading list has no room for another entry.
    ListFull,
    // Limits, a list size or an axis count are out of range.
    LimitsOutOfRange,
}

impl DrawError {
    // The number by which users know the refusal.
    pub fn number(self) -> u8
        ensures { result ≡ told.number self }
    {
        match self {
            DrawError::Malformed => 1,
            DrawError::GlyphNotFound(_) => 2,
            DrawError::RecursionLimitExceeded(_) => 3,
            DrawError::OutlineFault(_) => 4,
            DrawError::InsufficientMemory => 5,
            DrawError::WorkingMemory => 6,
            DrawError::ListFull => 7,
            DrawError::LimitsOutOfRange => 8,
        }
    }

    // The glyph that it tells of, if it tells of one.
    pub fn glyph(self) -> Option<GlyphId>
        ensures { result ≡ told.glyph self }
    {
        match self {
            DrawError::GlyphNotFound(glyph) | DrawError::RecursionLimitExceeded(glyph) => {
                Some(glyph)
            }
            _ => None,
        }
    }

    // The outline store's own code, if it tells of one.
    pub fn code(self) -> Option<u16>
        ensures { result ≡ told.code self }
    {
        match self {
            DrawError::OutlineFault(code) => Some(code),
            _ => None,
        }
    }
}

impl fmt::Display for DrawError {
    ghost output = { λ error. Some (why error) };

    fn fmt<W: fmt::Write>(&self, f: &mut fmt::Formatter<W>) -> fmt::Result {
        match *self {
            DrawError::Malformed => write!(f, "font data was absent or malformed"),
            DrawError::GlyphNotFound(glyph) => write!(f, "glyph {glyph} was not found"),
            DrawError::RecursionLimitExceeded(glyph) => {
                write!(f, "a limit was exceeded at glyph {glyph}")
            }
            DrawError::OutlineFault(code) => write!(f, "the outline ended in fault {code}"),
            DrawError::InsufficientMemory => write!(f, "the base buffer is too small"),
            DrawError::WorkingMemory => write!(f, "the working memory is too small"),
            DrawError::ListFull => write!(f, "the reading list is full"),
            DrawError::LimitsOutOfRange => write!(f, "limits are out of range"),
        }
    }
}

impl Error for DrawError {}
