// The records of one owner stand together in their body: where they begin, and where they end, found by halving.
ghost use Rattle.std.specs.Prelude.{◌+◌, ◌-◌, ◌^◌, ◌<◌, ◌≤◌};
ghost use Rattle.words.specs.Tables.{Ordered};
ghost use Rattle.policy.specs.Owners.{Grouped};

use net::{Record, count};
use std::ops::Range;
use words::count_below;

// The numbers of an owner's records in a body.
pub fn group<R: Record>(body: &[u8], owner: usize) -> Range<usize>
    requires { (1 < R.WIDTH) × (owner + 1 < 2 ^ 64) × Ordered R.WIDTH body.now }
    ensures grouped { Grouped R.WIDTH body.now owner result.start (result.end - result.start) }
    ensures ordered { result.start ≤ result.end }
{
    let n = count::<R>(body);
    count_below(body, R::WIDTH, n, owner)..count_below(body, R::WIDTH, n, owner + 1)
}
