// A refusal with the place where the walk met it.
ghost use Rattle.std.specs.Prelude.{◌≡◌, Some, None};
ghost use Rattle.refusals.specs.Places.{refused};
ghost use Rattle.refusals.specs.Texts.{refusal_text};

use crate::errors::DrawError;
use numbers::GlyphId;
use std::error::Error;
use std::fmt;

// The innermost open glyph, and its component, counted from 0.
#[derive(Clone, Copy, Debug)]
pub struct Place {
    pub glyph: GlyphId,
    pub component: u32,
}

#[derive(Clone, Copy, Debug)]
pub struct Refusal {
    pub error: DrawError,
    // absent outside the walk
    pub place: Option<Place>,
}

// A refusal outside the walk.
impl From<DrawError> for Refusal {
    ghost from_gives = { λ e r. r ≡ refused e None };

    fn from(error: DrawError) -> Refusal {
        Refusal { error, place: None }
    }
}

impl Refusal {
    pub fn new(error: DrawError, place: Option<Place>) -> Self
        ensures { result ≡ refused error place }
    {
        Refusal { error, place }
    }
}

// As `refused 3 glyph 10 at 20 0`: the number, then what it carries, each only where there is one.
impl fmt::Display for Refusal {
    ghost output = { λ refusal. Some (refusal_text refusal) };

    fn fmt<W: fmt::Write>(&self, f: &mut fmt::Formatter<W>) -> fmt::Result {
        let number = self.error.number();
        write!(f, "refused {number}")?;
        if let Some(glyph) = self.error.glyph() {
            write!(f, " glyph {glyph}")?;
        }
        if let Some(code) = self.error.code() {
            write!(f, " code {code}")?;
        }
        if let Some(place) = self.place {
            let glyph = place.glyph;
            let component = place.component;
            write!(f, " at {glyph} {component}")?;
        }
        Ok(())
    }
}

impl Error for Refusal {}
