// The two evaluators of the rules of the house: `holds` of conditions, `advises` of recommendations. They call each other on lower node
// numbers. A node is its own 24 bytes, and a child a number in the table, as the image has them, since a tree of
// boxes would need a heap: each reads its kind, and then only the fields that this kind has; a child that cannot change
// the answer is not looked at. A node that is not below its parent, and one of the other sort, is false or 0: no accepted table has one.
ghost use Rattle.std.specs.Prelude.{◌≡◌, ◌≤◌, length, get_or};
ghost use Rattle.level.specs.Level.{dominates};
ghost use Rattle.net.specs.Records.{read_node};
ghost use Rattle.net.specs.Image.{sites_in, nodes_in, rows_in};
ghost use Rattle.policy.specs.House.{name, meant, known, ask, yes, advice, row_of};

use crate::case::Case;
use crate::rows::test;
use crate::vars::{element, known, meant};
use level::Level;
use net::{Advice, Condition, Operand, Record};
use words::{size_at, word};

// An "equal" node: both operands known, and the same.
#[tactic(auto, unfolding(net::specs::Records::read_node, net::specs::Records::four_operands))]
fn equal(node: &[u8; 24], vars: &[u16; 8]) -> bool
    ensures { let x = read_node node.now 0 in result ≡ known (meant vars.now (get_or x.fields 0 (name 0))) (meant vars.now (get_or x.fields 1 (name 0))) }
{
    known(
        meant(Operand::read(node, 8), vars),
        meant(Operand::read(node, 12), vars),
    )
}

// A "dominates" node: of its two terms.
#[tactic(auto, unfolding(net::specs::Records::read_node))]
fn outranks(node: &[u8; 24], terms: &[u16; 8]) -> bool
    ensures { let x = read_node node.now 0 in result ≡ dominates (get_or terms.now x.a 0) (get_or terms.now x.b 0) }
{
    let above = Level::from(element(terms, word(node, 2)));
    let below = Level::from(element(terms, word(node, 4)));
    above.dominates(below)
}

// Whether the condition n, below top, holds.
#[cycle(advises_holds)]
pub fn holds(n: usize, top: usize, case: &Case<'_>, vars: &[u16; 8]) -> bool
    requires { top ≤ length case.now.nodes.now }
    ensures { let t = case.now.tables in result ≡ yes (get_or (row_of (ask (sites_in t.sites.now) (rows_in t.rows.now) case.now.terms vars.now) (nodes_in t.nodes.now) top) n 0) }
{
    if top <= n {
        return false;
    }
    let node = &case.nodes[n];
    match Condition::try_from(node[0]) {
        Ok(Condition::Always) => true,
        Ok(Condition::Not) => !holds(size_at(node, 2), n, case, vars),
        Ok(Condition::And) => {
            holds(size_at(node, 2), n, case, vars) && holds(size_at(node, 4), n, case, vars)
        }
        Ok(Condition::Or) => {
            holds(size_at(node, 2), n, case, vars) || holds(size_at(node, 4), n, case, vars)
        }
        Ok(Condition::Equal) => equal(node, vars),
        Ok(Condition::Test) => test(case, node, vars),
        Ok(Condition::Dominates) => outranks(node, &case.terms),
        Ok(Condition::Grants) => belnap::grants(advises(size_at(node, 2), n, case, vars)),
        Err(_) => false,
    }
}

// What the recommendation n, below top, advises.
#[cycle(advises_holds)]
pub fn advises(n: usize, top: usize, case: &Case<'_>, vars: &[u16; 8]) -> u8
    requires { top ≤ length case.now.nodes.now }
    ensures { let t = case.now.tables in result ≡ advice (get_or (row_of (ask (sites_in t.sites.now) (rows_in t.rows.now) case.now.terms vars.now)
        (nodes_in t.nodes.now) top) n 0) }
{
    if top <= n {
        return belnap::UNDECIDED;
    }
    let node = &case.nodes[n];
    match Advice::try_from(node[0]) {
        // the definition asks for the remainder, below 4 and so a byte
        Ok(Advice::Constant) => (word(node, 2) % 4) as u8,
        Ok(Advice::Of) => {
            if holds(size_at(node, 2), n, case, vars) {
                belnap::YES
            } else {
                belnap::NO
            }
        }
        Ok(Advice::Not) => belnap::not(advises(size_at(node, 2), n, case, vars)),
        Ok(Advice::Two(op)) => {
            let p = advises(size_at(node, 2), n, case, vars);
            let q = if belnap::settles(op, p) {
                p
            } else {
                advises(size_at(node, 4), n, case, vars)
            };
            belnap::operate(op, p, q)
        }
        Err(_) => belnap::UNDECIDED,
    }
}
