// The rows of an image: owners in order, at most 16 of one; 1 to 4 fields, each not 0, and the fields not used 0.
ghost use Rattle.std.specs.Prelude.{◌≡◌, ◌&&◌, length};
ghost use Rattle.words.specs.Lists.{first_failing};
ghost use Rattle.net.specs.Image.{rows_in};
ghost use Rattle.rulebook.specs.Parts.{count_ok};
ghost use Rattle.format.specs.Format.{fields_ok, row_ok};

use crate::owners::place_ok;
use net::{Row, count, nth};
use rulebook::count_ok;

// The most rows of one site.
pub const STORE_LIMIT: usize = 16;

// Whether the first n of four fields are not 0, and the others 0.
fn fields_ok(n: u8, f: [u16; 4]) -> bool
    ensures { result ≡ fields_ok n f }
{
    f.iter()
        .enumerate()
        .all(|(j, v)| (*v != 0) == (j < usize::from(n)))
}

// Whether a row is good by itself.
fn form_ok(x: Row) -> bool
    ensures { result ≡ (count_ok x.count && fields_ok x.count x.fields) }
{
    count_ok(x.count) && fields_ok(x.count, x.fields)
}

// The first bad row of a net of so many sites. A loop, since `place_ok` asks that the rows so far are good, which no closure of `find` is told.
pub fn first_bad_row(rows: &[u8], sites: usize) -> Option<usize>
    ensures { result ≡ first_failing (row_ok sites (rows_in rows.now)) (length (rows_in rows.now)) }
{
    for k in 0..count::<Row>(rows) {
        let x = nth::<Row>(rows, k);
        let good = place_ok::<Row>(rows, STORE_LIMIT, sites, k) & form_ok(x);
        if !good {
            return Some(k);
        }
    }
    None
}
