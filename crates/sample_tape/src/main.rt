// Writes the tape of the worked sample as one line of hex.
#![tactic(auto)]

use sample::sample_text;
use std::io;

fn main(rt: HostRuntime) -> io::Result<()> {
    let text = sample_text(rt.alloc())?;
    println!(rt; "{text}")
}
