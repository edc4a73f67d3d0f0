// The sites of an image: names rise strictly, and S dominates C.
ghost use Rattle.std.specs.Prelude.{◌≡◌, ◌&&◌, ltb, length};
ghost use Rattle.words.specs.Lists.{first_failing};
ghost use Rattle.level.specs.Level.{dominates};
ghost use Rattle.net.specs.Image.{sites_in};
ghost use Rattle.format.specs.Format.{site_ok};

use level::Level;
use net::{Site, count, nth};

// Whether a site is good, after a site with the name `last`.
fn site_ok(last: u16, x: Site) -> bool
    ensures { result ≡ (ltb last x.name && dominates x.s x.c) }
{
    let s = Level::from(x.s);
    let c = Level::from(x.c);
    (last < x.name) & s.dominates(c)
}

// The first bad site. The names are taken to start from 0, so that the first is not 0 either and needs no case of its own. Each kind of record has
// a loop of its own: what is carried from one to the next, and asked of those before, differs.
pub fn first_bad_site(sites: &[u8]) -> Option<usize>
    ensures { result ≡ first_failing (site_ok (sites_in sites.now)) (length (sites_in sites.now)) }
{
    let mut last = 0;
    for k in 0..count::<Site>(sites) {
        let x = nth::<Site>(sites, k);
        if !site_ok(last, x) {
            return Some(k);
        }
        last = x.name;
    }
    None
}
