// Reads an image length, an image and steps from standard input until its end, runs the steps, and prints what came of it.
//
// Input and output are buffers of a fixed size, of which a front is used: the programs have no heap.
#![tactic(auto)]

use std::io::Result;

fn main(rt: HostRuntime) -> Result<()> {
    let mut input = io::large_buffer();
    let n = files::fill(&mut rt.stdin(), &mut input)?;
    let mut out = [0u8; stepper::ROOM];
    let k = stepper::farmstep(&input[..n], &mut out);
    rt.write_all(&out[..k])
}
