// A byte as two hex digits.
ghost use Rattle.std.specs.Prelude.{◌≡◌, ◌<◌, ◌++◌, string_bytes, OnOk};
ghost use Rattle.tape_text.specs.Hex as hexes;

use std::alloc::AllocError;

// The digit of a number below 16: 0 to 9, then A to F.
fn digit(n: u8) -> char
    requires { n < 16 }
    ensures value { result ≡ hexes.digit n }
    ensures ascii { result < 128 }
{
    let first = if n < 10 { b'0' } else { b'A' - 10 };
    char::from(first + n)
}

// Appends the two digits of a byte; digit by digit, since formatting each byte takes several times as long.
pub fn push_hex(text: &mut String, byte: u8) -> Result<(), AllocError>
    ensures { OnOk result (string_bytes text.new ≡ string_bytes text.old ++ hexes.pair byte) }
{
    text.push(digit(byte / 16))?;
    text.push(digit(byte % 16))
}
