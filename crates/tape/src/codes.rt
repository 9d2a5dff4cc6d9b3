// The codes by which a tape tells which stroke it is whose coordinates follow.
ghost use Rattle.std.specs.Prelude.{◌≡◌, Some};
ghost use Rattle.tape.specs.Codes as codes;
ghost use Rattle.tape.specs.Codes.{code_of, Decodes, unknown_text};

use std::error::Error;
use std::fmt;

// Which stroke it is, without its coordinates.
#[derive(Clone, Copy, Debug, PartialEq, Eq)]
pub enum StrokeCode {
    Move,
    Line,
    Quad,
    Curve,
    Close,
}

// A byte that is the code of no stroke.
#[derive(Clone, Copy, Debug, PartialEq, Eq)]
pub struct UnknownCode(pub u8);

impl StrokeCode {
    // How many coordinates follow the code.
    pub fn coordinates(self) -> u8
        ensures { result ≡ codes.coordinates self }
    {
        match self {
            StrokeCode::Move | StrokeCode::Line => 2,
            StrokeCode::Quad => 4,
            StrokeCode::Curve => 6,
            StrokeCode::Close => 0,
        }
    }
}

impl From<StrokeCode> for u8 {
    ghost from_gives = { λ stroke byte. byte ≡ code_of stroke };

    fn from(stroke: StrokeCode) -> u8 {
        match stroke {
            StrokeCode::Move => 1,
            StrokeCode::Line => 2,
            StrokeCode::Quad => 3,
            StrokeCode::Curve => 4,
            StrokeCode::Close => 5,
        }
    }
}

impl TryFrom<u8> for StrokeCode {
    type Error = UnknownCode;

    ghost try_from_gives = { Decodes };

    fn try_from(byte: u8) -> Result<Self, UnknownCode> {
        match byte {
            1 => Ok(StrokeCode::Move),
            2 => Ok(StrokeCode::Line),
            3 => Ok(StrokeCode::Quad),
            4 => Ok(StrokeCode::Curve),
            5 => Ok(StrokeCode::Close),
            _ => Err(UnknownCode(byte)),
        }
    }
}

impl fmt::Display for UnknownCode {
    ghost output = { λ unknown. Some (unknown_text unknown) };

    fn fmt<W: fmt::Write>(&self, f: &mut fmt::Formatter<W>) -> fmt::Result {
        let byte = self.0;
        write!(f, "no stroke has code {byte}")
    }
}

impl Error for UnknownCode {}
