// What is wrong with a job, and in which line.
ghost use Rattle.std.specs.Prelude.{◌≡◌, Some};
ghost use Rattle.job.specs.declared.problems.Problem.TheVariants.{OutOfMemory};
ghost use Rattle.job.specs.Texts.{problem_text, job_error_text};

use std::alloc::{AllocError, AllocFailed};
use std::error::Error;
use std::fmt;

#[derive(Clone, Copy, Debug)]
pub enum Problem {
    UnknownLine,
    UnknownWord,
    WordMissing,
    WordLeft,
    BadNumber,
    BadFloat,
    HeadNotFirst,
    SecondLine,
    SecondRecord,
    SecondKey,
    NothingAbove,
    OutOfMemory,
}

impl fmt::Display for Problem {
    ghost output = { λ problem. Some (problem_text problem) };

    fn fmt<W: fmt::Write>(&self, f: &mut fmt::Formatter<W>) -> fmt::Result {
        let text = match *self {
            Problem::UnknownLine => "no line begins with this word",
            Problem::UnknownWord => "this word means nothing here",
            Problem::WordMissing => "a word is missing",
            Problem::WordLeft => "there are words too many",
            Problem::BadNumber => "a number is not one, or out of its range",
            Problem::BadFloat => "a float is neither decimal nor x and eight hex digits",
            Problem::HeadNotFirst => "the head line must come first",
            Problem::SecondLine => "this line may stand only once",
            Problem::SecondRecord => "this record was told before",
            Problem::SecondKey => "a key is given twice",
            Problem::NothingAbove => "there is no record above that this line belongs to",
            Problem::OutOfMemory => "there is no memory for it",
        };
        f.write_str(text)
    }
}

impl From<AllocError> for Problem {
    ghost from_gives = { λ _ problem. problem ≡ OutOfMemory };

    fn from(_error: AllocError) -> Problem {
        Problem::OutOfMemory
    }
}

impl<T: Drop> From<AllocFailed<T>> for Problem {
    ghost from_gives = { λ _ problem. problem ≡ OutOfMemory };

    fn from(_refused: AllocFailed<T>) -> Problem {
        Problem::OutOfMemory
    }
}

// A problem, and the line it is in, counted from 1.
#[derive(Clone, Copy, Debug)]
pub struct JobError {
    pub line: usize,
    pub problem: Problem,
}

impl fmt::Display for JobError {
    ghost output = { λ error. Some (job_error_text error) };

    fn fmt<W: fmt::Write>(&self, f: &mut fmt::Formatter<W>) -> fmt::Result {
        let line = self.line;
        let problem = self.problem;
        write!(f, "line {line}: {problem}")
    }
}

impl Error for JobError {}
