// Each operation: its arguments are read, the call is made, and the line of what it gave back is printed. Memory is the first m bytes of
// a buffer, and its sum is that of the whole buffer. Each takes those of rt, script and memory that it uses, so the three are no struct.
ghost use Rattle.std.specs.Prelude.{◌≤◌, length};

use crate::script::{Script, Stop};
use std::fmt;

// The most answers and the most output bytes.
const ANSWERS: usize = 5000;

const OUTPUT: usize = 65536;

// What answers and output are filled with before a call.
const FILL: u8 = 170;

// The most answers that a line shows.
const SHOWN: usize = 40;

// Answers as a line shows them.
#[derive(Clone, Copy)]
struct Shown<'a> {
    answers: &'a [u8],
}

impl fmt::Display for Shown<'_> {
    fn fmt<W: fmt::Write>(&self, f: &mut fmt::Formatter<W>) -> fmt::Result {
        for answer in self.answers.iter().take(SHOWN) {
            write!(f, " {answer}")?;
        }
        Ok(())
    }
}

// The Adler-32 sum of bytes. A loop, since no bound of what a `fold` carries is known to its closure, and the sums have to fit.
fn sum(bytes: &[u8]) -> u64 {
    let mut a = 1;
    let mut b = 0;
    for x in bytes {
        a = (a + u64::from(*x)) % 65521;
        b = (b + a) % 65521;
    }
    b * 65536 + a
}

// CHECK: u32 n, n image bytes. check N R
pub fn check(rt: &impl Print, script: &mut Script) -> Result<(), Stop>
    ensures { length script.new.rest.now ≤ length script.old.rest.now }
{
    let verdict = monitor::check(script.counted()?);
    println!(rt;
        "check {} {}",
        format::number(verdict),
        format::record(verdict)
    )?;
    Ok(())
}

// LOAD: u32 m, u32 n, n image bytes. load N R memory S
pub fn load(rt: &impl Print, script: &mut Script, memory: &mut [u8]) -> Result<(), Stop>
    ensures { length script.new.rest.now ≤ length script.old.rest.now }
{
    let m = script.at_most(memory.len())?;
    let image = script.counted()?;
    let verdict = monitor::load(image, &mut memory[..m]);
    println!(rt;
        "load {} {} memory {}",
        format::number(verdict),
        format::record(verdict),
        sum(memory)
    )?;
    Ok(())
}

// STEP: u32 m, u64 site. step N memory S
pub fn step(rt: &impl Print, script: &mut Script, memory: &mut [u8]) -> Result<(), Stop>
    ensures { length script.new.rest.now ≤ length script.old.rest.now }
{
    let m = script.at_most(memory.len())?;
    let site = script.site()?;
    let answer = monitor::step(&mut memory[..m], site);
    println!(rt; "step {} memory {}", u8::from(answer), sum(memory))?;
    Ok(())
}

// RUN: u32 m, u32 n, n step bytes, u32 k. run N, the first 40 of k answer bytes, sum S memory S
pub fn run(rt: &impl Print, script: &mut Script, memory: &mut [u8]) -> Result<(), Stop>
    ensures { length script.new.rest.now ≤ length script.old.rest.now }
{
    let m = script.at_most(memory.len())?;
    let steps = script.counted()?;
    let k = script.at_most(ANSWERS)?;
    let mut answers = [FILL; ANSWERS];
    let answers = &mut answers[..k];
    let number = match monitor::run(&mut memory[..m], steps, answers) {
        Ok(()) => 0,
        Err(error) => u8::from(error),
    };
    println!(rt;
        "run {number}{} sum {} memory {}",
        Shown { answers },
        sum(answers),
        sum(memory)
    )?;
    Ok(())
}

// SAVE: u32 m, u32 k. save N L sum S
pub fn save(rt: &impl Print, script: &mut Script, memory: &[u8]) -> Result<(), Stop>
    ensures { length script.new.rest.now ≤ length script.old.rest.now }
{
    let m = script.at_most(memory.len())?;
    let k = script.at_most(OUTPUT)?;
    let mut output = [FILL; OUTPUT];
    let output = &mut output[..k];
    let (number, length) = match monitor::save(&memory[..m], output) {
        Ok(n) => (0, n),
        Err(error) => (u8::from(error), 0),
    };
    println!(rt; "save {number} {length} sum {}", sum(output))?;
    Ok(())
}

// BODY: u32 n, n image bytes, u16 kind. body L sum S
pub fn body(rt: &impl Print, script: &mut Script) -> Result<(), Stop>
    ensures { length script.new.rest.now ≤ length script.old.rest.now }
{
    let image = script.counted()?;
    let part = monitor::body(image, script.word()?);
    println!(rt; "body {} sum {}", part.len(), sum(part))?;
    Ok(())
}

// POKE: u32 at, u8 value.
pub fn poke(script: &mut Script, memory: &mut [u8]) -> Result<(), Stop>
    ensures { length script.new.rest.now ≤ length script.old.rest.now }
{
    let place = memory.get_mut(script.long()?).ok_or(Stop::Script)?;
    *place = script.byte()?;
    Ok(())
}

// TEXT: u8 n, n bytes, printed as a line.
pub fn text(rt: &impl Print, script: &mut Script) -> Result<(), Stop>
    ensures { length script.new.rest.now ≤ length script.old.rest.now }
{
    let n = script.byte()?;
    rt.write_all(script.bytes(usize::from(n))?)?;
    rt.write_all(b"\n")?;
    Ok(())
}
