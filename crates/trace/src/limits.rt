// How far a drawing may go, and how long a reading list may be. A value is within range, so that opening with one cannot refuse.
ghost use Rattle.std.specs.Prelude.{◌≤◌};

#[derive(Clone, Copy)]
pub struct Limits {
    pub(crate) depth: u32,
    pub(crate) edges: u32,
    pub(crate) entries: usize,
    ghost deep: { 1 ≤ depth },
    ghost shallow: { depth ≤ 64 },
    ghost some: { 1 ≤ edges },
    ghost few: { edges ≤ 4096 },
    ghost short: { entries ≤ 1024 },
}
