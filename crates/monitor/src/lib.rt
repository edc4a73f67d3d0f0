// The public calls. Each takes every slice and every number, ends, and relies on no earlier check; what it will not take it refuses with
// the paper's number and changes no lent byte. Each contract gives the answer and every lent byte at exit as a definition of what was lent.
//
// Net memory is the image itself, then zeros: so loading is a check and a copy, saving is a copy, and a step writes whole records.
#![tactic(auto)]

mod accepted;
mod act;
mod ask;
mod memory;

ghost use Rattle.std.specs.Prelude.{◌≡◌, true, false, Err, length, MatchOption};
ghost use Rattle.format.specs.Verdict.{verdict_of, body_of, body_place};
ghost use Rattle.monitor.specs.Memory.{image_in, holds_net};
ghost use Rattle.monitor.specs.Memory.{load_answer, load_memory, saved_number, save_answer, save_output, step_answer, step_memory, ran_number, run_answer, run_memory, run_answers};

use accepted::Accepted;
use format::{Header, Refusal, Verdict};
use memory::HeldNet;
use stepping::Answer;

// Why nothing is saved: 6 NONET, 20 ROOM.
#[derive(Clone, Copy, PartialEq, Eq, Debug)]
pub enum SaveError {
    NoNet,
    Room,
}

// Why nothing is run: 7 LONG, 6 NONET.
#[derive(Clone, Copy, PartialEq, Eq, Debug)]
pub enum RunError {
    Long,
    NoNet,
}

// The paper's numbers of both.
impl From<SaveError> for u8 {
    ghost from_gives = { λ error n. n ≡ saved_number (Err error) };

    fn from(error: SaveError) -> u8 {
        match error {
            SaveError::NoNet => 6,
            SaveError::Room => 20,
        }
    }
}

impl From<RunError> for u8 {
    ghost from_gives = { λ error n. n ≡ ran_number (Err error) };

    fn from(error: RunError) -> u8 {
        match error {
            RunError::Long => 7,
            RunError::NoNet => 6,
        }
    }
}

// The bytes of net memory.
const MEMORY: usize = 65536;

// The most steps of one run.
const STEPS: usize = 4096;

// What is wrong with an image, or that it is accepted.
pub fn check(image: &[u8]) -> Verdict
    ensures { result ≡ verdict_of image.now }
{
    format::check(image)
}

// The body of a kind, that part of the image itself; the empty part if the image is refused or the kind is not 1 to 5.
pub fn body<'a>(image: &'a [u8], kind: u16) -> &'a [u8]
    ensures result_value { result.now ≡ body_of image.now kind }
    ensures ref_ptr_value { result.ref_ptr ≡ body_place image.entry.ref_ptr image.now kind }
{
    format::body(image, kind)
}

// Puts the net of an accepted image into memory.
pub fn load(image: &[u8], memory: &mut [u8]) -> Verdict
    ensures value { result ≡ load_answer image.now memory.old }
    ensures memory_after { memory.new ≡ load_memory image.now memory.old }
{
    if memory.len() != MEMORY {
        return Err(Refusal::Small);
    }
    format::check(image)?;
    words::fill(memory, image);
    Ok(())
}

// The image of the net that memory holds, if it holds one.
fn held(memory: &[u8]) -> Option<Accepted<'_>>
    ensures { MatchOption result (holds_net memory.now ≡ false) (λ image. (image.bytes.now ≡ image_in memory.now) × (holds_net memory.now ≡ true)) }
{
    if memory.len() != MEMORY {
        return None;
    }
    let end = Header { bytes: memory }.end();
    if MEMORY < end {
        return None;
    }
    let bytes = format::accepted(&memory[..end])?.bytes;
    words::zeros_from(memory, end).then_some(Accepted { bytes })
}

// Writes the image of the net that memory holds.
pub fn save(memory: &[u8], out: &mut [u8]) -> Result<usize, SaveError>
    ensures value { result ≡ save_answer memory.now (length out.old) }
    ensures out_after { out.new ≡ save_output memory.now out.old }
{
    let image = held(memory).ok_or(SaveError::NoNet)?.bytes;
    if out.len() < image.len() {
        return Err(SaveError::Room);
    }
    words::put(out, 0, image);
    Ok(image.len())
}

// Tries the next action of a site.
pub fn step(memory: &mut [u8], site: usize) -> Answer
    ensures value { result ≡ step_answer memory.old site }
    ensures memory_after { memory.new ≡ step_memory memory.old site }
{
    let Some(image) = held(memory) else {
        return Answer::NoNet;
    };
    let starts = image.starts();
    let mut net = HeldNet { memory, starts };
    net.step(site)
}

// One step for each byte of `steps`, in order: memory is checked once, and once is worked out where the rows of each site start.
pub fn run(memory: &mut [u8], steps: &[u8], answers: &mut [u8]) -> Result<(), RunError>
    ensures value { result ≡ run_answer memory.old steps.now (length answers.old) }
    ensures memory_after { memory.new ≡ run_memory memory.old steps.now (length answers.old) }
    ensures answers_after { answers.new ≡ run_answers memory.old steps.now answers.old }
{
    if (STEPS < steps.len()) | (answers.len() < steps.len()) {
        return Err(RunError::Long);
    }
    let image = held(memory).ok_or(RunError::NoNet)?;
    let starts = image.starts();
    let mut net = HeldNet { memory, starts };
    // by number: of what an adapter of `iter_mut`, such as `zip`, writes a proof knows nothing
    for (i, &site) in steps.iter().enumerate() {
        answers[i] = u8::from(net.step(usize::from(site)));
    }
    Ok(())
}
