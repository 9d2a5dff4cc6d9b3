// A pen that writes strokes as bytes into memory that is lent to it.
ghost use Rattle.std.specs.Prelude.{◌≡◌, ◌+◌, ◌*◌, ◌≤◌, length};
ghost use Rattle.std.specs.List.{flat_map};
ghost use Rattle.tape.specs.Codes.{code_of};
ghost use Rattle.tape.specs.Tape as tape;
ghost use Rattle.tape.specs.Tape.{word, coded, counted, written, taken, tape_step, open_tape, tape_end};

use crate::codes::StrokeCode;
use outline::OutlinePen;
use std::num::f32_to_bits_with_nan;

#[derive(Drop)]
pub struct TapePen<'a> {
    // the memory, which is lent, so no `Vec`; what is written stands at its start
    bytes: &'a mut [u8],
    // how many bytes are written
    len: usize,
    // absent while every stroke fitted; from the first that did not, how many were only counted, modulo 2 to the 64th
    missed: Option<u64>,
}

// What a tape holds: the bytes written, at the start of its memory, and how many strokes did not fit, modulo 2 to the 64th.
#[derive(Clone, Copy, Debug)]
pub struct TapeEnd {
    pub len: usize,
    pub missed: u64,
}

// The bits of a coordinate, largest byte first.
fn word_of(x: f32) -> [u8; 4]
    ensures { result ≡ word x }
{
    f32_to_bits_with_nan(x).to_be_bytes()
}

// Writes `src` over `out` from `at` on.
fn write_at(out: &mut [u8], at: usize, src: &[u8])
    requires { at + length src.now ≤ length out.old }
    ensures { out.new ≡ written out.old at src.now }
{
    out[at..at + src.len()].copy_from_slice(src);
}

// Writes coordinates over `out` from `at` on.
#[tactic(auto, using(crate::proofs::Writes::words_more))]
fn write_words(out: &mut [u8], at: usize, coordinates: &[f32])
    requires { at + 4 * length coordinates.now ≤ length out.old }
    ensures { out.new ≡ written out.old at (flat_map word coordinates.now) }
{
    for (i, x) in coordinates.iter().enumerate() {
        write_at(out, at + 4 * i, &word_of(*x));
    }
}

impl<'a> TapePen<'a> {
    // An empty tape over this memory.
    pub fn new(bytes: &'a mut [u8]) -> Self
        ensures { result ≡ open_tape bytes.entry 0 }
    {
        TapePen {
            bytes,
            len: 0,
            missed: None,
        }
    }
}

impl TapePen<'_> {
    // What the tape holds so far.
    pub fn end(&self) -> TapeEnd
        ensures { result ≡ tape_end self.now }
    {
        TapeEnd {
            len: self.len,
            missed: self.missed.unwrap_or(0),
        }
    }

    // Whether the next stroke is written if it has n bytes.
    fn fits(&self, n: usize) -> bool
        ensures { result ≡ tape.fits self.now n }
    {
        let size = self.bytes.len();
        self.missed.is_none() && n <= size && self.len <= size - n
    }

    // Counts one stroke more; from the first on no other is written.
    fn count(&mut self)
        ensures { self.new ≡ counted self.old }
    {
        self.missed = Some(self.missed.unwrap_or(0).wrapping_add(1));
    }

    // Writes the bytes of one stroke, or counts it where they do not fit.
    fn put(&mut self, code: StrokeCode, coordinates: &[f32])
        requires { length coordinates.now ≤ 6 }
        ensures { self.new ≡ taken self.old (coded (code_of code) coordinates.now) }
    {
        let n = 1 + 4 * coordinates.len();
        if self.fits(n) {
            let at = self.len;
            write_at(self.bytes, at, &[u8::from(code)]);
            write_words(self.bytes, at + 1, coordinates);
            self.len = at + n;
        } else {
            self.count();
        }
    }
}

impl OutlinePen for TapePen<'_> {
    ghost step = { tape_step };

    fn move_to(&mut self, x: f32, y: f32) {
        self.put(StrokeCode::Move, &[x, y]);
    }

    fn line_to(&mut self, x: f32, y: f32) {
        self.put(StrokeCode::Line, &[x, y]);
    }

    fn quad_to(&mut self, cx0: f32, cy0: f32, x: f32, y: f32) {
        self.put(StrokeCode::Quad, &[cx0, cy0, x, y]);
    }

    fn curve_to(&mut self, cx0: f32, cy0: f32, cx1: f32, cy1: f32, x: f32, y: f32) {
        self.put(StrokeCode::Curve, &[cx0, cy0, cx1, cy1, x, y]);
    }

    fn close(&mut self) {
        self.put(StrokeCode::Close, &[]);
    }
}
