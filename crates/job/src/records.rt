// The lines of records, and of their lists. What reads several words, or words that only a job has, is no `FromStr`.
use crate::keys::{Keys, give};
use crate::problems::Problem;
use crate::reader::{Above, Reader, end_of_list, read_all, tell_item, tell_record};
use crate::words::{Words, number};
use directory::Span;
use font::{Component, Condition, ListEnd, RegionAxis, Step, VarcFlags};
use numbers::{F2Dot14, GlyphId};
use outline::Stroke;
use store::{OutlineFault, OutlineRow};
use table_font::{ComponentRow, DeltaSetRow, GlyphRow};
use trace::Entry;

// How the components of a glyph end.
fn end_of(words: &mut Words) -> Result<ListEnd, Problem> {
    match words.next() {
        None => Ok(ListEnd::Well),
        Some("flaw") => Ok(ListEnd::Flaw),
        Some(_) => Err(Problem::UnknownWord),
    }
}

fn coordinate(words: &mut Words) -> Result<F2Dot14, Problem> {
    words.number().map(F2Dot14::from_bits)
}

// A condition whose steps are to be this span.
fn condition_of(words: &mut Words, steps: Span) -> Result<Condition<Span>, Problem> {
    match words.next() {
        None => Ok(Condition::Steps(steps)),
        Some("null") => Ok(Condition::Null),
        Some(_) => Err(Problem::UnknownWord),
    }
}

// The steps of a condition, if it is no null.
fn steps_in(condition: &mut Condition<Span>) -> Option<&mut Span> {
    match condition {
        Condition::Steps(steps) => Some(steps),
        Condition::Null => None,
    }
}

fn step_of(words: &mut Words) -> Result<Step, Problem> {
    match words.word()? {
        "range" => {
            let axis = words.number()?;
            Ok(Step::Range(axis, coordinate(words)?, coordinate(words)?))
        }
        "value" => Ok(Step::Value(words.number()?, words.number()?)),
        "both" => Ok(Step::Both),
        "either" => Ok(Step::Either),
        "not" => Ok(Step::Not),
        _ => Err(Problem::UnknownWord),
    }
}

// The region numbers of a set, up to the word `deltas`.
// A loop of its own: after a `take_while` it is not known whether `deltas` came or the line ended.
fn read_set_regions(list: &mut Vec<u16>, words: &mut Words) -> Result<Span, Problem> {
    let start = list.len();
    for word in words {
        if word == "deltas" {
            let count = list.len() - start;
            return Ok(Span { start, count });
        }
        list.push(number(word)?)?;
    }
    Err(Problem::WordMissing)
}

fn set_of(
    set_regions: &mut Vec<u16>,
    deltas: &mut Vec<i32>,
    words: &mut Words,
) -> Result<DeltaSetRow, Problem> {
    if words.word()? != "regions" {
        return Err(Problem::UnknownWord);
    }
    let regions = read_set_regions(set_regions, words)?;
    let deltas = read_all(deltas, words, number)?;
    Ok(DeltaSetRow { regions, deltas })
}

fn fault_of(words: &mut Words) -> Result<Option<OutlineFault>, Problem> {
    match words.next() {
        None => Ok(None),
        Some("fault") => Ok(Some(OutlineFault(words.number()?))),
        Some(_) => Err(Problem::UnknownWord),
    }
}

// A stroke of one of the five kinds; what is none of the other four is a curve.
fn stroke_of(kind: &str, words: &mut Words) -> Result<Stroke, Problem> {
    let mut next = || words.float();
    Ok(match kind {
        "move" => Stroke::Move(next()?, next()?),
        "line" => Stroke::Line(next()?, next()?),
        "quad" => Stroke::Quad(next()?, next()?, next()?, next()?),
        "close" => Stroke::Close,
        _ => Stroke::Curve(next()?, next()?, next()?, next()?, next()?, next()?),
    })
}

impl Reader {
    pub(crate) fn read_glyph(&mut self, words: &mut Words) -> Result<Option<Above>, Problem> {
        let id = words.number()?;
        let job = &mut self.job;
        let components = end_of_list(&job.components);
        let entry = Entry::Glyph(GlyphId::new(id));
        tell_record(&mut job.glyphs, id, &mut job.entries, entry, || {
            end_of(words).map(|end| GlyphRow { components, end })
        })?;
        Ok(Some(Above::Glyph(id)))
    }

    // The axis values of a component, separated by commas.
    fn read_values(&mut self, text: &str) -> Result<Span, Problem> {
        if text.is_empty() {
            return Ok(end_of_list(&self.job.values));
        }
        read_all(&mut self.job.values, text.split(','), number)
    }

    // Reads the value of a key; one that is none of these is the transform's, or unknown.
    fn read_key(&mut self, keys: &mut Keys, key: &str, value: &str) -> Result<(), Problem> {
        match key {
            "condition" => give(&mut keys.condition, number(value)?),
            "list" => give(&mut keys.list, number(value)?),
            "axesvar" => give(&mut keys.axesvar, number(value)?),
            "transformvar" => give(&mut keys.transformvar, number(value)?),
            "values" => give(&mut keys.values, self.read_values(value)?),
            _ => keys.transform.read(key, number(value)?),
        }
    }

    // Reads the keys of a component, to the end of the line.
    fn read_keys(&mut self, words: &mut Words) -> Result<Keys, Problem> {
        let mut keys = Keys::default();
        for word in words {
            let (key, value) = word.split_once('=').ok_or(Problem::UnknownWord)?;
            self.read_key(&mut keys, key, value)?;
        }
        Ok(keys)
    }

    pub(crate) fn read_component(&mut self, words: &mut Words) -> Result<Option<Above>, Problem> {
        let Some(Above::Glyph(id)) = self.above else {
            return Err(Problem::NothingAbove);
        };
        let flags = VarcFlags::from_bits(words.flags()?);
        let glyph = GlyphId::new(words.number()?);
        let keys = self.read_keys(words)?;
        let row = ComponentRow {
            component: Component {
                flags,
                glyph,
                transform: keys.transform.stored(),
                condition: keys.condition,
                axis_list: keys.list,
                axis_values_var: keys.axesvar,
                transform_var: keys.transformvar,
            },
            values: keys.values,
        };
        let job = &mut self.job;
        let glyph = job.glyphs.get_mut(&id);
        let span = glyph.map(|glyph| &mut glyph.components);
        tell_item(&mut job.components, row, span)?;
        Ok(self.above)
    }

    pub(crate) fn read_condition(&mut self, words: &mut Words) -> Result<Option<Above>, Problem> {
        let id = words.number()?;
        let job = &mut self.job;
        let steps = end_of_list(&job.steps);
        let entry = Entry::Condition(id);
        let row = tell_record(&mut job.conditions, id, &mut job.entries, entry, || {
            condition_of(words, steps)
        })?;
        Ok(match row {
            Condition::Steps(_) => Some(Above::Condition(id)),
            Condition::Null => None,
        })
    }

    pub(crate) fn read_step(&mut self, words: &mut Words) -> Result<Option<Above>, Problem> {
        let Some(Above::Condition(id)) = self.above else {
            return Err(Problem::NothingAbove);
        };
        let job = &mut self.job;
        let span = job.conditions.get_mut(&id).and_then(steps_in);
        tell_item(&mut job.steps, step_of(words)?, span)?;
        Ok(self.above)
    }

    pub(crate) fn read_list(&mut self, words: &mut Words) -> Result<Option<Above>, Problem> {
        let id = words.number()?;
        let job = &mut self.job;
        let axes = &mut job.list_axes;
        let entry = Entry::AxisList(id);
        tell_record(&mut job.lists, id, &mut job.entries, entry, || {
            read_all(axes, words, number)
        })?;
        Ok(None)
    }

    pub(crate) fn read_region(&mut self, words: &mut Words) -> Result<Option<Above>, Problem> {
        let id = u32::from(words.number::<u16>()?);
        let job = &mut self.job;
        let axes = end_of_list(&job.region_axes);
        let entry = Entry::Region(id);
        tell_record(&mut job.regions, id, &mut job.entries, entry, || Ok(axes))?;
        Ok(Some(Above::Region(id)))
    }

    pub(crate) fn read_axis(&mut self, words: &mut Words) -> Result<Option<Above>, Problem> {
        let Some(Above::Region(id)) = self.above else {
            return Err(Problem::NothingAbove);
        };
        let axis = RegionAxis {
            axis: words.number()?,
            start: coordinate(words)?,
            peak: coordinate(words)?,
            end: coordinate(words)?,
        };
        let job = &mut self.job;
        tell_item(&mut job.region_axes, axis, job.regions.get_mut(&id))?;
        Ok(self.above)
    }

    pub(crate) fn read_set(&mut self, words: &mut Words) -> Result<Option<Above>, Problem> {
        let id = words.number()?;
        let job = &mut self.job;
        let (set_regions, deltas) = (&mut job.set_regions, &mut job.deltas);
        let entry = Entry::DeltaSet(id);
        tell_record(&mut job.sets, id, &mut job.entries, entry, || {
            set_of(set_regions, deltas, words)
        })?;
        Ok(None)
    }

    pub(crate) fn read_outline(&mut self, words: &mut Words) -> Result<Option<Above>, Problem> {
        let id = words.number()?;
        let job = &mut self.job;
        let strokes = end_of_list(&job.strokes);
        let entry = Entry::Outline(GlyphId::new(id));
        tell_record(&mut job.outlines, id, &mut job.entries, entry, || {
            Ok(OutlineRow {
                need: words.number()?,
                strokes,
                fault: fault_of(words)?,
            })
        })?;
        Ok(Some(Above::Outline(id)))
    }

    pub(crate) fn read_stroke(
        &mut self,
        kind: &str,
        words: &mut Words,
    ) -> Result<Option<Above>, Problem> {
        let Some(Above::Outline(id)) = self.above else {
            return Err(Problem::NothingAbove);
        };
        let stroke = stroke_of(kind, words)?;
        let job = &mut self.job;
        let outline = job.outlines.get_mut(&id);
        let span = outline.map(|outline| &mut outline.strokes);
        tell_item(&mut job.strokes, stroke, span)?;
        Ok(self.above)
    }

    pub(crate) fn read_width(&mut self, words: &mut Words) -> Result<Option<Above>, Problem> {
        let id = words.number()?;
        let job = &mut self.job;
        let entry = Entry::Width(GlyphId::new(id));
        tell_record(
            &mut job.widths,
            id,
            &mut job.entries,
            entry,
            || words.number(),
        )?;
        Ok(None)
    }
}
