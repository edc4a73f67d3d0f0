// What the mandatory rules and the rules of the house say of an action: whether step 4 lets it pass. The bodies of the
// image are read where they stand; only the records that an answer needs are looked at.
#![tactic(auto)]

ghost use Rattle.std.specs.Prelude.{◌≡◌, ◌/◌, ◌<◌, length};
ghost use Rattle.words.specs.Tables.{Ordered};
ghost use Rattle.belnap.specs.Belnap.{grants};
ghost use Rattle.net.specs.Image.{sites_in, nodes_in, aspects_in, rows_in};
ghost use Rattle.policy.specs.Placed.{Placed};
ghost use Rattle.policy.specs.House.{rules_of, judge};

use crate::case::Case;
use crate::house::policy_grants;
use crate::rules::{mandatory, terms};
use net::{Action, Site, nth};

mod case;
mod cut;
mod eval;
mod fields;
mod house;
mod owners;
mod rows;
mod rules;
mod vars;

pub use fields::fits;
pub use vars::bound;

// An action about to be judged: the numbers of its source and target, and the action with each used variable's value in its place.
#[derive(Clone, Copy)]
pub struct Act {
    pub source: usize,
    pub target: usize,
    pub action: Action,
}

// What the rules are read from: the bodies of nodes, sites and rows, and where the rows of each site start.
#[derive(Clone, Copy)]
pub struct Tables<'a> {
    pub nodes: &'a [u8],
    pub sites: &'a [u8],
    pub rows: &'a [u8],
    pub starts: &'a [u16; 33],
    ghost placed: { Placed sites.now rows.now starts.now },
}

// Whether step 4 lets an action pass: the mandatory rules, the source's policy and the target's, gathered, grant. The first of them that does
// not grant decides. A site that acts on itself has one policy, and without aspects there is none.
pub fn permits(tables: &Tables<'_>, aspects: &[u8], act: &Act) -> bool
    requires { (act.now.source < length tables.now.sites.now / 32) × (act.now.target < length tables.now.sites.now / 32) × Ordered 32 aspects.now }
    ensures { result ≡ grants (judge (rules_of (nodes_in tables.now.nodes.now) (aspects_in aspects.now)) (sites_in tables.now.sites.now) (rows_in tables.now.rows.now) act.now) }
{
    let terms = terms(nth(tables.sites, act.source), nth(tables.sites, act.target));
    if !belnap::grants(mandatory(act.action.capability, &terms)) {
        return false;
    }
    if aspects.is_empty() {
        return true;
    }
    let (nodes, _) = tables.nodes.as_chunks::<24>();
    let (rows, _) = tables.rows.as_chunks::<10>();
    let case = Case {
        tables: *tables,
        nodes,
        rows,
        act: *act,
        terms,
    };
    policy_grants(act.source, aspects, &case)
        && (act.source == act.target || policy_grants(act.target, aspects, &case))
}
