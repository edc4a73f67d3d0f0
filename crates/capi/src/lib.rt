// The public calls, exported to C and Rust; include/boardmarten.h declares them. A slice passes as a pointer and a length. Each contract gives
// the number returned and every lent byte at exit, as those of the calls behind it do. The interface fixes the numbers: 0 stands for the empty part,
// and u64 for sizes, between which and usize there is no `From`, only `as`.
#![tactic(auto)]

ghost use Rattle.std.specs.Prelude.{◌≡◌, ◌≤◌, length};
ghost use Rattle.format.specs.Verdict.{verdict_of};
ghost use Rattle.stepping.specs.Step.{number_of};
ghost use Rattle.monitor.specs.Memory.{load_answer, load_memory, save_answer, save_output, step_answer, step_memory, saved_length, ran_number, run_answer, run_memory, run_answers};
ghost use Rattle.capi.specs.Packed.{packed_verdict, packed_saved, packed_body};

use format::Verdict;
use monitor::{RunError, SaveError};

// The number of a verdict and 256 times its record.
fn packed(v: Verdict) -> u32
    ensures { result ≡ packed_verdict v }
{
    let number = u32::from(format::number(v));
    let record = u32::from(format::record(v));
    number + 256 * record
}

// The number of what saving answers and 256 times the length.
fn packed_saved(v: Result<usize, SaveError>) -> u64
    requires { saved_length v ≤ 65536 }
    ensures { result ≡ packed_saved v }
{
    match v {
        Ok(n) => 256 * (n as u64),
        Err(error) => u64::from(u8::from(error)),
    }
}

// The number of what running answers.
fn ran_number(v: Result<(), RunError>) -> u32
    ensures { result ≡ ran_number v }
{
    match v {
        Ok(()) => 0,
        Err(error) => u32::from(u8::from(error)),
    }
}

// Says whether load would accept an image.
#[unsafe(no_mangle)]
pub extern "C" fn boardmarten_check(image: &[u8]) -> u32
    ensures { result ≡ packed_verdict (verdict_of image.now) }
{
    packed(monitor::check(image))
}

// Puts the net of an accepted image into net memory.
#[unsafe(no_mangle)]
pub extern "C" fn boardmarten_load(image: &[u8], memory: &mut [u8]) -> u32
    ensures value { result ≡ packed_verdict (load_answer image.now memory.old) }
    ensures memory_after { memory.new ≡ load_memory image.now memory.old }
{
    packed(monitor::load(image, memory))
}

// Writes the image of the net that memory holds.
#[unsafe(no_mangle)]
pub extern "C" fn boardmarten_save(memory: &[u8], out: &mut [u8]) -> u64
    ensures value { result ≡ packed_saved (save_answer memory.now (length out.old)) }
    ensures out_after { out.new ≡ save_output memory.now out.old }
{
    packed_saved(monitor::save(memory, out))
}

// Tries the next action of one site.
#[unsafe(no_mangle)]
pub extern "C" fn boardmarten_step(memory: &mut [u8], site: u64) -> u32
    ensures value { result ≡ number_of (step_answer memory.old site) }
    ensures memory_after { memory.new ≡ step_memory memory.old site }
{
    u32::from(u8::from(monitor::step(memory, site as usize)))
}

// Does steps in order; each byte of steps is a site number.
#[unsafe(no_mangle)]
pub extern "C" fn boardmarten_run(memory: &mut [u8], steps: &[u8], answers: &mut [u8]) -> u32
    ensures value { result ≡ ran_number (run_answer memory.old steps.now (length answers.old)) }
    ensures memory_after { memory.new ≡ run_memory memory.old steps.now (length answers.old) }
    ensures answers_after { answers.new ≡ run_answers memory.old steps.now answers.old }
{
    ran_number(monitor::run(memory, steps, answers))
}

// Says which part of an accepted image is the body of a kind.
#[unsafe(no_mangle)]
pub extern "C" fn boardmarten_body(image: &[u8], kind: u32) -> u64
    ensures { result ≡ packed_body image.now kind }
{
    let Ok(kind) = u16::try_from(kind) else {
        return 0;
    };
    let part = monitor::body(image, kind);
    if part.is_empty() {
        return 0;
    }
    let start = words::long_at(image, 8 * usize::from(kind));
    (start as u64) + 4294967296 * (part.len() as u64)
}
