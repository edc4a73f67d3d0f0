// Prints what the stepping program prints for each lesson, in order: the inputs in data/ are those of lessons/.
#![tactic(auto)]

use std::io::Result;
use std::rt::Files;

// The inputs, in order.
const LESSONS: [&[u8]; 8] = [
    b"01-first-field.in",
    b"02-unit-alone.in",
    b"03-waiting-read.in",
    b"04-rank-alone.in",
    b"05-read-high-write-low.in",
    b"06-yes-and-no.in",
    b"07-allow-rule.in",
    b"08-full-store.in",
];

// Steps through the input in a file. Input and output are buffers of a fixed size, of which a front is used: the programs have no heap.
fn lesson(rt: &(impl Files + Print), path: &[u8]) -> Result<()> {
    let mut input = io::large_buffer();
    let n = files::read(rt, path, &mut input)?;
    let mut out = [0u8; stepper::ROOM];
    let k = stepper::farmstep(&input[..n], &mut out);
    rt.write_all(&out[..k])
}

fn main(rt: HostRuntime) -> Result<()> {
    for path in LESSONS {
        lesson(&rt, path)?;
    }
    Ok(())
}
