// The groups of a tape: a code, or the four bytes of a coordinate.
ghost use Rattle.std.specs.Prelude.{◌≡◌, ◌≤◌, [], ◌++◌, IfOk, string_bytes, OnOk};
ghost use Rattle.tape_text.specs.Spelling as spelling;

use crate::hex::push_hex;
use std::alloc::{AllocError, Global};
use tape::StrokeCode;

// How many bytes of coordinates follow a code, and none where no stroke has it.
fn following(code: u8) -> u8
    ensures { result ≡ spelling.following code }
{
    // a `match`, since the check finds no proof of `map_or` here
    match StrokeCode::try_from(code) {
        Ok(stroke) => 4 * stroke.coordinates(),
        Err(_) => 0,
    }
}

// How many bytes of coordinates are to come after this byte, where `left` were to come before it.
fn next_left(left: u8, byte: u8) -> u8
    ensures { result ≡ spelling.next left byte }
{
    if left == 0 { following(byte) } else { left - 1 }
}

// Appends one byte, after a space where it begins a group and is not the first of all.
fn push_spelled(text: &mut String, left: u8, byte: u8) -> Result<(), AllocError>
    ensures { OnOk result (string_bytes text.new ≡ spelling.longer (string_bytes text.old) left byte) }
{
    if left % 4 == 0 && !text.is_empty() {
        text.push(' ')?;
    }
    push_hex(text, byte)?;
    Ok(())
}

// The text of a tape.
pub fn tape_text(heap: Global, tape: &[u8]) -> Result<String, AllocError>
    ensures { IfOk result (λ t. string_bytes t ≡ spelling.text tape.now) }
{
    let mut text = String::new(heap);
    let mut left = 0;
    for byte in tape {
        push_spelled(&mut text, left, *byte)?;
        left = next_left(left, *byte);
    }
    Ok(text)
}
