// `label records`: consults every record of a job once, and once more through extracts by the closed list.
use crate::source::{Source, Told};
use anyhow::anyhow;
use extract::Extract;
use font::{Font, Head};
use job::{Job, JobTables, Range, read_job};
use numbers::GlyphId;
use refusals::{DrawError, Refusal};
use std::alloc::{AllocError, Global};
use std::{fs, io};
use store::{OutlineStore, StrokeStore};
use table_font::{CheckedHead, TableFont};
use trace::{ClosedTrace, Entry, Limits, Tracer};

fn print_told(rt: &HostRuntime, told: &[Told]) -> io::Result<()> {
    for Told { entry, text } in told {
        println!(rt; "consult {entry}: {text}")?;
    }
    Ok(())
}

fn print_list(rt: &HostRuntime, closed: &ClosedTrace) -> io::Result<()> {
    print!(rt; "list")?;
    for entry in closed.table().entries() {
        print!(rt; " {entry}")?;
    }
    println!(rt; "")
}

// The first record that two consultings tell otherwise, or that they are the same.
fn print_compared(rt: &HostRuntime, told: &[Told], again: &[Told]) -> io::Result<()> {
    let mut both = told.iter().zip(again.iter());
    match both.find(|(one, two)| one.text.as_str() != two.text.as_str()) {
        Some((_, Told { entry, text })) => println!(rt; "differs at {entry}: {text}"),
        None => println!(rt; "same"),
    }
}

// The kinds of records.
#[derive(Clone, Copy)]
enum Kind {
    Glyph,
    Condition,
    AxisList,
    Region,
    DeltaSet,
    Outline,
    Width,
}

const KINDS: [Kind; 7] = [
    Kind::Glyph,
    Kind::Condition,
    Kind::AxisList,
    Kind::Region,
    Kind::DeltaSet,
    Kind::Outline,
    Kind::Width,
];

impl Kind {
    fn entry(self, number: u32) -> Entry {
        match self {
            Kind::Glyph => Entry::Glyph(GlyphId::new(number)),
            Kind::Condition => Entry::Condition(number),
            Kind::AxisList => Entry::AxisList(number),
            Kind::Region => Entry::Region(number),
            Kind::DeltaSet => Entry::DeltaSet(number),
            Kind::Outline => Entry::Outline(GlyphId::new(number)),
            Kind::Width => Entry::Width(GlyphId::new(number)),
        }
    }

    // The first number that is not listed: a list has fewer entries than there are numbers.
    fn unlisted(self, closed: &ClosedTrace) -> Entry {
        let table = closed.table();
        (0..u32::MAX)
            .map(|number| self.entry(number))
            .find(|entry| !table.lists(*entry))
            .unwrap_or(self.entry(u32::MAX))
    }
}

fn print_unlisted<F: Font, S: OutlineStore>(
    rt: &HostRuntime,
    closed: &ClosedTrace,
    source: &Source<F, S>,
    memory: &mut [u8],
) -> anyhow::Result<()> {
    for kind in KINDS {
        let entry = kind.unlisted(closed);
        let mut text = String::new(rt.alloc());
        source.write_reply(&mut text, entry, memory)?;
        println!(rt; "unlisted {entry}: {text}")?;
    }
    Ok(())
}

// As much memory as a list within these limits takes.
fn room_for(heap: Global, limits: Limits) -> Result<Vec<Entry>, AllocError> {
    let blank = Entry::Glyph(GlyphId::NOTDEF);
    Ok(vec![in heap; blank; limits.entries()]?)
}

// The same consultings once more, through extracts by the closed list.
fn print_again(
    rt: &HostRuntime,
    closed: &ClosedTrace,
    source: &Source<TableFont, StrokeStore>,
    told: &[Told],
    memory: &mut [u8],
) -> anyhow::Result<()> {
    let heap = rt.alloc();
    let left = Source {
        font: &Extract::new(closed, source.font),
        store: &Extract::new(closed, source.store),
    };
    let mut room = room_for(heap, closed.limits())?;
    let mut tracer = Tracer::open(closed.limits(), room.as_mut_slice());
    let entries = told.iter().map(|told| told.entry);
    let again = left.all_told(heap, &mut tracer, entries, memory)?;
    print_compared(rt, told, &again)?;
    print_unlisted(rt, closed, &left, memory)
}

fn print_job(
    rt: &HostRuntime,
    limits: Limits,
    source: &Source<TableFont, StrokeStore>,
    job: &Job,
) -> anyhow::Result<()> {
    let heap = rt.alloc();
    let mut memory = vec![in heap; 0u8; job.tape.unwrap_or(65536)]?;
    let mut room = room_for(heap, limits)?;
    let mut tracer = Tracer::open(limits, room.as_mut_slice());
    let entries = job.entries.iter().copied();
    let told = source.all_told(heap, &mut tracer, entries, memory.as_mut_slice())?;
    print_told(rt, &told)?;
    let closed = tracer.close();
    print_list(rt, &closed)?;
    print_again(rt, &closed, source, &told, memory.as_mut_slice())
}

fn print_refused(rt: &HostRuntime, error: DrawError) -> anyhow::Result<()> {
    let refusal = Refusal::from(error);
    println!(rt; "{refusal}")?;
    Ok(())
}

// The text of a job: a file's, or of standard input for `-`.
fn text_of(rt: &HostRuntime, path: &str) -> io::Result<String> {
    if path == "-" {
        io::read_to_string(rt.alloc(), rt.stdin())
    } else {
        fs::read_to_string(rt, path)
    }
}

fn job_of(rt: &HostRuntime, path: &str) -> anyhow::Result<Job> {
    let text = text_of(rt, path)?;
    Ok(read_job(rt.alloc(), text.as_str())?)
}

// The head and the limits of a job, where they are in range.
fn checked(head: Head, range: Range) -> Result<(CheckedHead, Limits), DrawError> {
    let head = CheckedHead::check(head)?;
    let limits = Limits::check(range.depth, range.edges, range.entries)?;
    Ok((head, limits))
}

const WHOLE_RANGE: Range = Range {
    depth: 64,
    edges: 4096,
    entries: 1024,
};

pub(crate) fn print_records(rt: &HostRuntime, path: &str) -> anyhow::Result<()> {
    let job = job_of(rt, path)?;
    let head = job.head.ok_or_else(|| anyhow!("there is no head line"))?;
    let range = job.range.unwrap_or(WHOLE_RANGE);
    let (head, limits) = match checked(head, range) {
        Ok(pair) => pair,
        Err(error) => return print_refused(rt, error),
    };
    let tables = JobTables::of(rt.alloc(), &job)?;
    let source = Source {
        font: &TableFont::open(head, tables.font(&job)),
        store: &tables.store(&job),
    };
    print_job(rt, limits, &source, &job)
}
