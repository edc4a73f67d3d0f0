// Owners of actions and rows: site numbers that never fall, and not too many records of one.
ghost use Rattle.std.specs.Prelude.{◌≡◌, ◌&&◌, ℕ, ◌+◌, ◌*◌, ◌≤◌, ◌<◌, length, get_or};
ghost use Rattle.words.specs.Lists.{before};
ghost use Rattle.rulebook.specs.Parts.{owners_in, owner_ok, room_ok};

use net::Record;
use rulebook::{owner_ok, room_ok};

// Whether record k has a good owner, with room for it, after records whose owners never fall. That the record lies in
// the table is the bound of an index, as in `rulebook::owner_ok`.
pub fn place_ok<R: Record>(table: &[u8], limit: usize, sites: usize, k: usize) -> bool
    requires { (R.WIDTH * k + R.WIDTH ≤ length table.now) × (0 < limit)
        × ((j : ℕ) → j < k → before (owners_in R.WIDTH table.now) j ≤ get_or (owners_in R.WIDTH table.now) j 0) }
    ensures { result ≡ (owner_ok sites (owners_in R.WIDTH table.now) k && room_ok limit (owners_in R.WIDTH table.now) k) }
{
    owner_ok::<R>(table, sites, k) && room_ok::<R>(table, limit, k)
}
