// Conditions, and their steps in postfix order.
ghost use Rattle.std.specs.Prelude.{Some};
ghost use Rattle.font.specs.Texts.{step_text};

use numbers::F2Dot14;
use std::fmt;

#[derive(Clone, Copy)]
pub enum Step {
    // whether an axis's coordinate lies between two, ends counted: axis, least, most
    Range(u16, F2Dot14, F2Dot14),
    // whether a default plus a delta is above 0: default, variation number
    Value(i16, u32),
    // of the last two answers, whether both are yes
    Both,
    // whether at least one is
    Either,
    // the opposite of the last answer
    Not,
}

// As `range 1 -8192 8192`: the kind, then its numbers.
impl fmt::Display for Step {
    ghost output = { λ step. Some (step_text step) };

    fn fmt<W: fmt::Write>(&self, f: &mut fmt::Formatter<W>) -> fmt::Result {
        match *self {
            Step::Range(axis, least, most) => {
                let (least, most) = (least.to_bits(), most.to_bits());
                write!(f, "range {axis} {least} {most}")
            }
            Step::Value(default, number) => write!(f, "value {default} {number}"),
            Step::Both => write!(f, "both"),
            Step::Either => write!(f, "either"),
            Step::Not => write!(f, "not"),
        }
    }
}

// A condition that is there: a null that is always met, or steps, told by a value of type T.
// No `Option<T>`: fonts tell a missing condition by one, and of two in each other no reader could say which is the null.
#[derive(Clone, Copy)]
pub enum Condition<T> {
    Null,
    Steps(T),
}
