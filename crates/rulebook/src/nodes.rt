// Nodes: each is read once, whole and by value, and judged by its kind; the depths of those before it stand in a row, so that each depth is
// worked out once.
ghost use Rattle.std.specs.Prelude.{◌≡◌, ◌&&◌, ℕ, Bool, ◌+◌, ◌*◌, ◌≤◌, length, ltb, leb};
ghost use Rattle.words.specs.Lists.{first_failing};
ghost use Rattle.net.specs.Records.{node_width};
ghost use Rattle.net.specs.Net.{names, place_of, is_there, Rising, node_at, most_nodes};
ghost use Rattle.net.specs.Image.{sites_in, nodes_in};
ghost use Rattle.rulebook.specs.Rulebook.{asked_ok, node_ok};
ghost use Rattle.rulebook.specs.Steps.{parts_of, child_depth, part_depth, good_depth};

use crate::parts::{Tags, count_ok};
use net::{Advice, Condition, Node, count, nth, place_of};

// There are at most so many nodes, and each is at most so deep.
const MOST_NODES: usize = 1024;

const DEPTH_LIMIT: u8 = 8;

// What stands in a or b of a node: the number of a child, which is a condition or a recommendation, the name of a place, or a number up to this.
#[derive(Clone, Copy, PartialEq, Eq, Debug)]
pub enum Part {
    Condition,
    Advice,
    Place,
    UpTo(u16),
}

// What stands in a and in b, by the node's kind; no node has another kind.
fn parts(kind: u8) -> Option<(Part, Part)>
    ensures { result ≡ parts_of kind }
{
    const NOTHING: Part = Part::UpTo(0);
    if let Ok(condition) = Condition::try_from(kind) {
        return Some(match condition {
            Condition::Always | Condition::Equal => (NOTHING, NOTHING),
            Condition::Not => (Part::Condition, NOTHING),
            Condition::And | Condition::Or => (Part::Condition, Part::Condition),
            Condition::Test => (Part::Place, NOTHING),
            Condition::Dominates => (Part::UpTo(7), Part::UpTo(7)),
            Condition::Grants => (Part::Advice, NOTHING),
        });
    }
    Some(match Advice::try_from(kind).ok()? {
        Advice::Constant => (Part::UpTo(3), NOTHING),
        Advice::Of => (Part::Condition, NOTHING),
        Advice::Not => (Part::Advice, NOTHING),
        Advice::Two(_) => (Part::Advice, Part::Advice),
    })
}

// One of the two sorts of nodes, conditions and recommendations.
pub trait Sort {
    ghost holds: { ℕ → Bool };

    // Whether a kind is of the sort.
    fn has(kind: u8) -> bool
        ensures { result ≡ holds kind };
}

impl Sort for Condition {
    ghost holds = { λ kind. leb 1 kind && leb kind 8 };

    fn has(kind: u8) -> bool {
        Condition::try_from(kind).is_ok()
    }
}

impl Sort for Advice {
    ghost holds = { λ kind. leb 16 kind && leb kind 24 };

    fn has(kind: u8) -> bool {
        Advice::try_from(kind).is_ok()
    }
}

// The sites of an image whose names rise, so that a name is found by halving.
#[derive(Clone, Copy)]
pub struct Places<'a> {
    pub sites: &'a [u8],
    ghost rising: { Rising (names (sites_in sites.now)) },
}

impl Places<'_> {
    // Whether a site has this name.
    pub fn has(self, name: u16) -> bool
        ensures { result ≡ is_there (place_of (names (sites_in self.entry.sites.now)) name) }
    {
        place_of(self.sites, name).is_some()
    }
}

// Whether node j is lower than k and of this sort.
#[tactic(auto, using(crate::proofs::Depths::kind_is))]
pub fn below<S: Sort>(nodes: &[u8], k: usize, j: u16) -> bool
    requires { 24 * k ≤ length nodes.now }
    ensures { result ≡ (ltb j k && S.holds (node_at (nodes_in nodes.now) j).kind) }
{
    let j = usize::from(j);
    j < k && S::has(nodes[24 * j])
}

// The depth of child j, which has to be of this sort, of the node after the row.
fn child_depth<S: Sort>(nodes: &[u8], row: &[u8], j: u16) -> Option<u8>
    requires { 24 * length row.now ≤ length nodes.now }
    ensures { result ≡ child_depth (λ x. S.holds x.kind) (nodes_in nodes.now) row.now j }
{
    if below::<S>(nodes, row.len(), j) {
        Some(row[usize::from(j)])
    } else {
        None
    }
}

// The depth of what stands in this part of the node after the row, 0 of what is no child; none where it is bad. That the row is no longer than
// the table is the bound of an index, as in `owner_ok`.
fn part_depth(nodes: &[u8], places: Places<'_>, row: &[u8], part: Part, v: u16) -> Option<u8>
    requires { 24 * length row.now ≤ length nodes.now }
    ensures { result ≡ part_depth (names (sites_in places.entry.sites.now)) (nodes_in nodes.now) row.now part v }
{
    match part {
        Part::Condition => child_depth::<Condition>(nodes, row, v),
        Part::Advice => child_depth::<Advice>(nodes, row, v),
        Part::Place => places.has(v).then_some(0),
        Part::UpTo(most) => (v <= most).then_some(0),
    }
}

// Whether the count and the operands are good.
fn asked_ok(x: Node) -> bool
    ensures { result ≡ asked_ok x }
{
    let l = x.fields;
    match Condition::try_from(x.kind) {
        Ok(Condition::Test) => count_ok(x.count) && Tags::SOUGHT.allow_first(x.count, l),
        Ok(Condition::Equal) => x.count == 0 && Tags::PLAIN.allow_first(2, l),
        _ => x.count == 0 && Tags::PLAIN.allow_first(0, l),
    }
}

// The depth of the node after the row, which has those of all before it; none where it is bad.
#[tactic(auto, using(crate::proofs::Depths::node_is, crate::proofs::Depths::good_rest, crate::proofs::Depths::bad_rest))]
fn depth_at(nodes: &[u8], places: Places<'_>, row: &[u8]) -> Option<u8>
    requires { 24 * length row.now + 24 ≤ length nodes.now }
    ensures { result ≡ good_depth (names (sites_in places.entry.sites.now)) (nodes_in nodes.now) row.now }
{
    let x: Node = nth(nodes, row.len());
    let (a, b) = parts(x.kind)?;
    let first = part_depth(nodes, places, row, a, x.a)?;
    let second = part_depth(nodes, places, row, b, x.b)?;
    let deepest = first.max(second);
    if (x.zero == 0) & (asked_ok(x) & (deepest < DEPTH_LIMIT)) {
        Some(1 + deepest)
    } else {
        None
    }
}

// The first bad node.
pub fn first_bad_node(nodes: &[u8], places: Places<'_>) -> Option<usize>
    requires { length nodes.now ≤ node_width * most_nodes }
    ensures { result ≡ first_failing (node_ok (names (sites_in places.entry.sites.now)) (nodes_in nodes.now)) (length (nodes_in nodes.now)) }
{
    // The row has room for the most nodes that there can be: memory is fixed, with no heap for a list that grows.
    let mut row = [0u8; MOST_NODES];
    for k in 0..count::<Node>(nodes) {
        let Some(depth) = depth_at(nodes, places, &row[..k]) else {
            return Some(k);
        };
        row[k] = depth;
    }
    None
}
