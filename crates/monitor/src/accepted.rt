// An accepted image, and the records read from it.
ghost use Rattle.std.specs.Prelude.{◌≡◌, ◌<◌, length, set, Ok};
ghost use Rattle.words.specs.Tables.{starts_of};
ghost use Rattle.net.specs.Records.{row_width};
ghost use Rattle.net.specs.Net.{site_at, row_at};
ghost use Rattle.net.specs.Image.{body_in, state_in};
ghost use Rattle.format.specs.Kinds.{kind_number};
ghost use Rattle.format.specs.Verdict.{verdict_of};
ghost use Rattle.monitor.specs.Plan.{room_in};

use format::{Image, Kind, STORE_LIMIT};
use net::{Record, Row, Site, count, nth};

// The bytes of an accepted image. That a site or a row is there is the bound of an index, as in `rulebook::owner_ok`.
#[derive(Clone, Copy)]
pub struct Accepted<'a> {
    pub bytes: &'a [u8],
    ghost accepted: { verdict_of bytes.now ≡ Ok tt },
}

impl<'a> Accepted<'a> {
    // The body of a kind.
    pub(crate) fn body(self, kind: Kind) -> &'a [u8]
        ensures { result.now ≡ body_in self.entry.bytes.now (kind_number kind) }
    {
        Image { bytes: self.bytes }.body(kind)
    }

    // Where the rows of each site start.
    pub(crate) fn starts(self) -> [u16; 33]
        ensures { result ≡ starts_of row_width (body_in self.entry.bytes.now 5) }
    {
        words::starts(self.body(Kind::Rows), Row::WIDTH)
    }

    // The record of site i.
    pub(crate) fn site(self, i: usize) -> Site
        requires { i < length (state_in self.bytes.now).sites }
        ensures { result ≡ site_at (state_in self.entry.bytes.now).sites i }
    {
        nth(self.body(Kind::Sites), i)
    }

    // Row k.
    pub(crate) fn row(self, k: usize) -> Row
        requires { k < length (state_in self.bytes.now).rows }
        ensures { result ≡ row_at (state_in self.entry.bytes.now).rows k }
    {
        nth(self.body(Kind::Rows), k)
    }

    // Site t once site i is x.
    pub(crate) fn site_after(self, i: usize, x: Site, t: usize) -> Site
        requires { t < length (state_in self.bytes.now).sites }
        ensures { result ≡ site_at (set (state_in self.entry.bytes.now).sites i x) t }
    {
        if i == t {
            return x;
        }
        self.site(t)
    }

    // Where a put's row goes in all rows, if the store has room for it: the rows of site t end at `end`, and if the row STORE_LIMIT before that
    // is t's too, the store is full.
    pub(crate) fn room(self, t: usize) -> Option<usize>
        requires { t < length (state_in self.bytes.now).sites }
        ensures { result ≡ room_in t (state_in self.entry.bytes.now).rows }
    {
        let rows = self.body(Kind::Rows);
        let end = words::count_below(rows, Row::WIDTH, count::<Row>(rows), t + 1);
        if STORE_LIMIT <= end {
            if usize::from(rows[Row::WIDTH * (end - STORE_LIMIT)]) == t {
                return None;
            }
        }
        Some(end)
    }
}
