// The words of one line, up to a comment, read one after the other.
ghost use Rattle.std.specs.Prelude.{length};
ghost use Rattle.std.specs.Iterator.{at_most};
ghost use Rattle.std.specs.Str.Iter.{split_whitespace_steps, split_whitespace_rest};

use crate::problems::Problem;
use std::num::f32_from_bits_with_nan;
use std::str::{FromStr, SplitWhitespace};

#[derive(Drop)]
pub(crate) struct Words<'a> {
    left: SplitWhitespace<'a>,
}

// A word that has no plus sign in front, since no number here has one.
fn without_plus(word: &str) -> Result<&str, Problem> {
    Some(word)
        .filter(|word| !word.starts_with('+'))
        .ok_or(Problem::BadNumber)
}

// A whole number.
pub(crate) fn number<T: FromStr>(word: &str) -> Result<T, Problem>
where
    T::Err: Drop,
{
    without_plus(word)?
        .parse::<T>()
        .map_err(|_| Problem::BadNumber)
}

// Flags: decimal, or 0x and hex digits.
fn flags(word: &str) -> Result<u32, Problem> {
    word.strip_prefix("0x").map_or(number(word), hex)
}

fn hex(digits: &str) -> Result<u32, Problem> {
    u32::from_str_radix(without_plus(digits)?, 16).map_err(|_| Problem::BadNumber)
}

fn is_decimal(word: &str) -> bool {
    word.bytes()
        .all(|b| b.is_ascii_digit() || b == b'-' || b == b'.')
}

// A float: a decimal number, or x and the eight hex digits of its bits.
pub(crate) fn float(word: &str) -> Result<f32, Problem> {
    if let Some(digits) = word.strip_prefix('x') {
        return Some(digits)
            .filter(|digits| digits.len() == 8)
            .and_then(|digits| hex(digits).ok())
            // a closure: the name alone, passed as a function, gets no proof
            .map(|bits| f32_from_bits_with_nan(bits))
            .ok_or(Problem::BadFloat);
    }
    if !is_decimal(word) {
        return Err(Problem::BadFloat);
    }
    word.parse::<f32>().map_err(|_| Problem::BadFloat)
}

impl<'a> Words<'a> {
    pub(crate) fn of(line: &'a str) -> Self {
        let text = line.split_once('#').map_or(line, |(before, _)| before);
        Words {
            left: text.split_whitespace(),
        }
    }

    // The next word, which must be there.
    pub(crate) fn word(&mut self) -> Result<&'a str, Problem> {
        self.next().ok_or(Problem::WordMissing)
    }

    pub(crate) fn number<T: FromStr>(&mut self) -> Result<T, Problem>
    where
        T::Err: Drop,
    {
        number(self.word()?)
    }

    pub(crate) fn flags(&mut self) -> Result<u32, Problem> {
        flags(self.word()?)
    }

    pub(crate) fn float(&mut self) -> Result<f32, Problem> {
        float(self.word()?)
    }

    // That no word is left.
    pub(crate) fn end(mut self) -> Result<(), Problem> {
        match self.next() {
            Some(_) => Err(Problem::WordLeft),
            None => Ok(()),
        }
    }
}

impl<'a> Iterator for Words<'a> {
    type Item = &'a str;

    ghost next_gives = { λ s r t. split_whitespace_steps s.left r t.left };

    ghost remaining = { λ s. at_most (length (split_whitespace_rest s.left)) };

    fn next(&mut self) -> Option<&'a str> {
        self.left.next()
    }
}
