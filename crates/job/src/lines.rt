// One line after the other. What reads several words, or words that only a job has, is no `FromStr`.
ghost use Rattle.std.specs.Prelude.{◌≡◌, ◌≤◌, true, is_some, IfOk, IfErr};

use crate::calls::{Call, CallKind};
use crate::jobs::{Job, Lent, Range};
use crate::problems::{JobError, Problem};
use crate::reader::{Above, Reader, read_all, tell_setting};
use crate::words::{Words, float, number};
use directory::Span;
use font::Head;
use numbers::{F2Dot14, GlyphId, Size};
use outline::PathStyle;
use std::alloc::Global;

fn head_of(words: &mut Words) -> Result<Head, Problem> {
    let axis_count = words.number()?;
    let units_per_em = words.number()?;
    let has_store = match words.word()? {
        "store" => true,
        "nostore" => false,
        _ => return Err(Problem::UnknownWord),
    };
    Ok(Head {
        axis_count,
        units_per_em,
        has_store,
    })
}

// `Range` and `Lent` have three numbers each, but under names of their own, so each has its function.
fn range_of(words: &mut Words) -> Result<Range, Problem> {
    Ok(Range {
        depth: words.number()?,
        edges: words.number()?,
        entries: words.number()?,
    })
}

fn lent_of(words: &mut Words) -> Result<Lent, Problem> {
    Ok(Lent {
        records: words.number()?,
        coordinates: words.number()?,
        buffer: words.number()?,
    })
}

fn size_of(words: &mut Words) -> Result<Size, Problem> {
    Ok(match words.word()? {
        "unscaled" => Size::unscaled(),
        word => Size::new(float(word)?),
    })
}

fn style_of(words: &mut Words) -> Result<PathStyle, Problem> {
    match words.word()? {
        "freetype" => Ok(PathStyle::FreeType),
        "harfbuzz" => Ok(PathStyle::HarfBuzz),
        _ => Err(Problem::UnknownWord),
    }
}

impl Reader {
    // Reads the location of a call, to the end of the line, and keeps the call.
    fn read_call(
        &mut self,
        glyph: GlyphId,
        kind: CallKind,
        words: &mut Words,
    ) -> Result<(), Problem> {
        let location = read_all(&mut self.job.coordinates, words, |word| {
            number(word).map(F2Dot14::from_bits)
        })?;
        self.job.calls.push(Call {
            kind,
            glyph,
            location,
        })?;
        Ok(())
    }

    fn read_draw(&mut self, words: &mut Words) -> Result<(), Problem> {
        let glyph = GlyphId::new(words.number()?);
        let kind = CallKind::Draw(size_of(words)?, style_of(words)?);
        self.read_call(glyph, kind, words)
    }

    fn read_unscaled(&mut self, words: &mut Words) -> Result<(), Problem> {
        let glyph = GlyphId::new(words.number()?);
        self.read_call(glyph, CallKind::Unscaled, words)
    }

    // A `match` on the kind, as in `read_item`.
    fn read_setting(&mut self, kind: &str, words: &mut Words) -> Result<(), Problem> {
        let job = &mut self.job;
        match kind {
            "head" => tell_setting(&mut job.head, || head_of(words)),
            "limits" => tell_setting(&mut job.range, || range_of(words)),
            "lend" => tell_setting(&mut job.lent, || lent_of(words)),
            "tape" => tell_setting(&mut job.tape, || words.number()),
            "outlines" => tell_setting(&mut job.upem, || words.number()),
            "draw" => self.read_draw(words),
            "unscaled" => self.read_unscaled(words),
            _ => Err(Problem::UnknownLine),
        }
    }

    // Reads what a line of this kind tells; the record above the next line, if that has a list.
    // A `match`, and no table of functions: it reads as the format's table, and a table would be searched word by word.
    fn read_item(&mut self, kind: &str, words: &mut Words) -> Result<Option<Above>, Problem> {
        match kind {
            "glyph" => self.read_glyph(words),
            "component" => self.read_component(words),
            "condition" => self.read_condition(words),
            "step" => self.read_step(words),
            "list" => self.read_list(words),
            "region" => self.read_region(words),
            "axis" => self.read_axis(words),
            "set" => self.read_set(words),
            "outline" => self.read_outline(words),
            "move" | "line" | "quad" | "curve" | "close" => self.read_stroke(kind, words),
            "width" => self.read_width(words),
            _ => self.read_setting(kind, words).map(|_| None),
        }
    }

    // The kind of a line is its first word; it is handed on beside the words that are left.
    fn read_line(&mut self, line: &str) -> Result<(), Problem> {
        let mut words = Words::of(line);
        let Some(kind) = words.next() else {
            return Ok(());
        };
        if self.job.head.is_none() && kind != "head" {
            return Err(Problem::HeadNotFirst);
        }
        self.above = self.read_item(kind, &mut words)?;
        words.end()
    }
}

// The job that a text tells, or the first line with which something is wrong.
// A job that is read has a head; a line is counted from 1.
pub fn read_job(heap: Global, text: &str) -> Result<Job, JobError>
    ensures headed { IfOk result (λ job. is_some job.head ≡ true) }
    ensures counted { IfErr result (λ error. 1 ≤ error.line) }
{
    let mut reader = Reader::new(heap);
    for (i, line) in text.lines().enumerate() {
        reader.read_line(line).map_err(|problem| JobError {
            line: i + 1,
            problem,
        })?;
    }
    if reader.job.head.is_none() {
        let line = text.lines().count() + 1;
        let problem = Problem::HeadNotFirst;
        return Err(JobError { line, problem });
    }
    Ok(reader.job)
}
