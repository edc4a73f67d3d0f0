// Runs the vector scripts of data/ on the public calls and prints what each call gave back; `stdout` is what the independent monitor in peer/
// gives back for the same scripts. peer/vectors.c says what a script is. An operation whose arguments are not there, or ask for more than
// a buffer has, ends the script.
#![tactic(auto)]

mod calls;
mod script;

ghost use Rattle.std.specs.Prelude.{◌<◌, length, OnOk};

use script::{Script, Stop};
use std::io;
use std::rt::Files;

// The bytes of the memory buffer.
const MEMORY: usize = 65600;

// The scripts, in order.
const SCRIPTS: [&[u8]; 5] = [
    b"1-header",
    b"2-records",
    b"3-steps",
    b"4-memory",
    b"5-random",
];

// Runs the operation at the front of a script. Its number becomes a call here and nowhere else: an enum would write each number, and each
// operation, twice.
fn operation(rt: &impl Print, script: &mut Script, memory: &mut [u8]) -> Result<(), Stop>
    ensures { OnOk result (length script.new.rest.now < length script.old.rest.now) }
{
    match script.byte()? {
        1 => calls::check(rt, script),
        2 => calls::load(rt, script, memory),
        3 => calls::step(rt, script, memory),
        4 => calls::run(rt, script, memory),
        5 => calls::save(rt, script, memory),
        6 => calls::body(rt, script),
        7 => calls::poke(script, memory),
        8 => calls::text(rt, script),
        _ => Err(Stop::Script),
    }
}

// Runs the operations of a script from memory that is zero.
fn operations(rt: &impl Print, bytes: &[u8]) -> Result<(), Stop> {
    let mut memory = [0u8; MEMORY];
    let mut script = Script { rest: bytes };
    while !script.rest.is_empty() {
        operation(rt, &mut script, &mut memory)?;
    }
    Ok(())
}

// Runs the script in a file, read into a buffer of a fixed size: the programs have no heap.
fn file(rt: &(impl Files + Print), path: &[u8]) -> io::Result<()> {
    let mut bytes = [0u8; 262144];
    let n = files::read(rt, path, &mut bytes)?;
    match operations(rt, &bytes[..n]) {
        Ok(()) => Ok(()),
        Err(Stop::Script) => rt.println("script"),
        Err(Stop::Print(error)) => Err(error),
    }
}

fn main(rt: HostRuntime) -> io::Result<()> {
    for path in SCRIPTS {
        file(&rt, path)?;
    }
    Ok(())
}
