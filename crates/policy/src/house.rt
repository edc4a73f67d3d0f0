// Policies: what an aspect gives an action, and whether the aspects of one site, gathered, grant it. What is gathered grants exactly if each
// part does.
ghost use Rattle.std.specs.Prelude.{◌≡◌, map, ◌+◌, ◌^◌, ◌<◌};
ghost use Rattle.words.specs.Tables.{Ordered};
ghost use Rattle.belnap.specs.Belnap.{grants};
ghost use Rattle.net.specs.Records.{read_aspect};
ghost use Rattle.net.specs.Image.{sites_in, nodes_in, aspects_in, rows_in};
ghost use Rattle.policy.specs.House.{gather_all, gives, policy};

use crate::case::Case;
use crate::cut::{taken, traps};
use crate::eval::{advises, holds};
use crate::owners::group;
use net::Aspect;
use words::size_at;

// What the aspect gives the action: trapped with its condition true its recommendation, else 0.
fn gives(aspect: &[u8; 32], case: &Case<'_>) -> u8
    ensures { let t = case.now.tables in (result ≡ gives (nodes_in t.nodes.now) (sites_in t.sites.now) (rows_in t.rows.now) case.now.act (read_aspect aspect.now 0))
        × (result < 4) }
{
    if !traps(aspect, case) {
        return belnap::UNDECIDED;
    }
    let vars = taken(aspect, case);
    let top = case.nodes.len();
    if holds(size_at(aspect, 28), top, case, &vars) {
        advises(size_at(aspect, 30), top, case, &vars)
    } else {
        belnap::UNDECIDED
    }
}

// Whether each of these aspects gives the action a value that grants; the first that does not decides.
fn all_grant(aspects: &[[u8; 32]], case: &Case<'_>) -> bool
    ensures { let t = case.now.tables in result ≡ grants
        (gather_all (map (gives (nodes_in t.nodes.now) (sites_in t.sites.now) (rows_in t.rows.now) case.now.act)
        (map (λ aspect. read_aspect aspect 0) aspects.now))) }
{
    aspects
        .iter()
        .all(|aspect| belnap::grants(gives(aspect, case)))
}

// Whether the policy of a site, its own aspects gathered, grants the action. The aspects are lent beside the tables, so that they are in order is
// asked here and not by `Tables`.
pub fn policy_grants(site: usize, aspects: &[u8], case: &Case<'_>) -> bool
    requires { (site + 1 < 2 ^ 64) × Ordered 32 aspects.now }
    ensures { let t = case.now.tables in result ≡ grants (policy (nodes_in t.nodes.now) (sites_in t.sites.now) (rows_in t.rows.now) case.now.act site (aspects_in aspects.now)) }
{
    let (records, _) = aspects.as_chunks::<32>();
    all_grant(&records[group::<Aspect>(aspects, site)], case)
}
