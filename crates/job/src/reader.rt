// A job while it is read, and what its lines share.
ghost use Rattle.std.specs.Prelude.{◌≡◌, ◌+◌, ◌++◌, ◌∷◌, [], ℕ, ◌≢◌, Ok, take, IfOk, IfSome, OnOk, OnErr, IsSome, IsErrOf, Some, vec_len};
ghost use Rattle.std.specs.Ordering.{nat_cmp};
ghost use Rattle.std.specs.BTreeMap.{get};
ghost use Rattle.std.specs.Iterator.{IsFinite};
ghost use Rattle.job.specs.declared.problems.Problem.TheVariants.{SecondLine, SecondRecord};

use crate::jobs::Job;
use crate::problems::Problem;
use directory::Span;
use std::alloc::Global;
use std::collections::BTreeMap;
use trace::Entry;

// The record whose list the next lines go on with.
#[derive(Clone, Copy)]
pub(crate) enum Above {
    Glyph(u32),
    Condition(u32),
    Region(u32),
    Outline(u32),
}

// A job as far as it is read, and the record above the next line, if that has a list.
#[derive(Drop)]
pub(crate) struct Reader {
    pub(crate) job: Job,
    pub(crate) above: Option<Above>,
}

impl Reader {
    pub(crate) fn new(heap: Global) -> Self {
        Reader {
            job: Job::new(heap),
            above: None,
        }
    }
}

// Reads a setting, which may stand only once.
pub(crate) fn tell_setting<T: Drop, R: FnOnce() -> Result<T, Problem>>(
    setting: &mut Option<T>,
    read: R,
) -> Result<(), Problem>
    requires { R.IsAlwaysCallable read }
    ensures told { OnOk result (IfSome setting.new (λ value. R.post read (Ok value))) }
    ensures set { OnOk result (IsSome setting.new) }
    ensures kept { OnErr result (setting.new ≡ setting.old) }
    ensures second { IsSome setting.old → IsErrOf result SecondLine }
{
    if setting.is_some() {
        return Err(Problem::SecondLine);
    }
    *setting = Some(read()?);
    Ok(())
}

// Reads a record, which may be told only once, and notes its entry; the row that it is kept as.
pub(crate) fn tell_record<T: Copy, R: FnOnce() -> Result<T, Problem>>(
    rows: &mut BTreeMap<u32, T>,
    id: u32,
    entries: &mut Vec<Entry>,
    entry: Entry,
    read: R,
) -> Result<T, Problem>
    requires { R.IsAlwaysCallable read }
    ensures told { IfOk result (λ row. R.post read (Ok row) × (get nat_cmp rows.new id ≡ Some row)) }
    ensures others { (other : ℕ) → other ≢ id → get nat_cmp rows.new other ≡ get nat_cmp rows.old other }
    ensures noted { OnOk result (entries.new.items ≡ entries.old.items ++ entry ∷ []) }
    ensures second { IsSome (get nat_cmp rows.old id) → IsErrOf result SecondRecord }
{
    if rows.contains_key(&id) {
        return Err(Problem::SecondRecord);
    }
    let row = read()?;
    rows.insert(id, row)?;
    entries.push(entry)?;
    Ok(row)
}

// Reads each word as an item at the end of a list, and tells where in the list they stand.
pub(crate) fn read_all<'a, T: Drop, W, R>(
    list: &mut Vec<T>,
    words: W,
    read: R,
) -> Result<Span, Problem>
where
    W: Iterator<Item = &'a str>,
    R: Fn(&'a str) -> Result<T, Problem>,
    requires next { W.can_next words }
    requires ends { IsFinite (W.remaining words) }
    requires reads { R.IsAlwaysCallable read }
    ensures front { take (vec_len list.old) list.new.items ≡ list.old.items }
    ensures start { IfOk result (λ span. span.start ≡ vec_len list.old) }
    ensures count { IfOk result (λ span. span.start + span.count ≡ vec_len list.new) }
{
    let start = list.len();
    for word in words {
        list.push(read(word)?)?;
    }
    Ok(Span {
        start,
        count: list.len() - start,
    })
}

// The span of what is to stand at the end of a list.
pub(crate) fn end_of_list<T>(list: &Vec<T>) -> Span
    ensures start { result.start ≡ vec_len list.now }
    ensures empty { result.count ≡ 0 }
{
    Span {
        start: list.len(),
        count: 0,
    }
}

// Adds an item to a list, and to the span of the record that it belongs to, if that is there.
pub(crate) fn tell_item<T: Drop>(
    list: &mut Vec<T>,
    item: T,
    span: Option<&mut Span>,
) -> Result<(), Problem>
    ensures told { OnOk result (list.new.items ≡ list.old.items ++ item ∷ []) }
{
    list.push(item)?;
    if let Some(span) = span {
        span.count = span.count.saturating_add(1);
    }
    Ok(())
}
