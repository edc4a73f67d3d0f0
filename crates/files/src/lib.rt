// A file or an input, read whole.
#![tactic(auto)]

ghost use Rattle.std.specs.Prelude.{◌≡◌, ℕ, ◌<◌, ◌≤◌, length, take, IfOk, OnErr};
ghost use Rattle.std.specs.Io.KnownBytes.{Consumes, IsAtEnd};
ghost use Rattle.io.specs.Counts.{IsPrefixLen};

use std::fs::File;
use std::io::{Read, Result};
use std::rt::Files;

// Reads into the front of lent bytes until they are full or the input ends, and answers how many it read. Its errors are those of the reads; after
// one, what the input gave up to it stands at the front. It reads in a loop of its own, since no method of the library's `Read` stops both at full
// bytes and at the input's end and says how many it read: `read_exact` does not say, and `read_to_end` fills a `Vec`.
pub fn fill<R: Read>(input: &mut R, out: &mut [u8]) -> Result<usize>
    ensures prefix_len { IfOk result (λ n. IsPrefixLen n out.new) }
    ensures bytes { IfOk result (λ n. Consumes (R.remaining input.old) (R.remaining input.new) (take n out.new)) }
    ensures end { IfOk result (λ n. n < length out.new → IsAtEnd (R.remaining input.new)) }
    ensures none_lost { OnErr result
        ((k : ℕ) × (k ≤ length out.new) × Consumes (R.remaining input.old) (R.remaining input.new) (take k out.new)) }
{
    let mut done = 0;
    while done < out.len() {
        let n = input.read(&mut out[done..])?;
        if n == 0 {
            break;
        }
        done += n;
    }
    Ok(done)
}

// Reads a file into the front of lent bytes, as much as they hold, and answers how many it read: 0 where it cannot be opened, as where the path
// is not text in UTF-8. Its errors are those of the reads; after one, the file is closed and the front of the bytes may have been written.
// That 0 is promised here, so it is no `Option`: the programs go on from a path that cannot be opened as from an empty input.
pub fn read(files: &impl Files, path: &[u8], out: &mut [u8]) -> Result<usize>
    ensures prefix_len { IfOk result (λ n. IsPrefixLen n out.new) }
    ensures err { OnErr result (length out.new ≡ length out.old) }
{
    let Ok(path) = str::from_utf8(path) else {
        return Ok(0);
    };
    let Ok(mut file) = File::open(files, path) else {
        return Ok(0);
    };
    fill(&mut file, out)
}
