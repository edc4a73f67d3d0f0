// The test of a condition: whether some row at the named place is wanted. The rows of a place stand together, and those alone are looked at.
ghost use Rattle.std.specs.Prelude.{◌≡◌, ◌-◌, ◌<◌, ◌≤◌, map};
ghost use Rattle.words.specs.Lists.{some};
ghost use Rattle.net.specs.Records.{read_node, read_row};
ghost use Rattle.net.specs.Image.{sites_in, rows_in};
ghost use Rattle.policy.specs.Owners.{Grouped};
ghost use Rattle.policy.specs.House.{asks, wanted, test_of};

use crate::Tables;
use crate::case::Case;
use crate::vars::{known, meant};
use net::{Operand, Record, Tag, place_of};
use std::ops::Range;
use words::word;

// Whether an operand of a test fits a row's value: "any", or a known value and the same one.
#[tactic(auto, unfolding(crate::specs::House::asks))]
fn asks(p: Operand, value: u16, vars: &[u16; 8]) -> bool
    ensures { result ≡ asks vars.now p value }
{
    p.has(Tag::Any) || known(meant(p, vars), value)
}

// Whether a row is wanted by a test node: it has the count, and each value fits. node and vars stay two: the variables are one aspect's, the node
// another at each step.
fn wanted(row: &[u8; 10], node: &[u8; 24], vars: &[u16; 8]) -> bool
    ensures { result ≡ wanted vars.now (read_node node.now 0) (read_row row.now 0) }
{
    let count = node[1];
    row[1] == count
        && (0..usize::from(count).min(4)).all(|i| asks(
            Operand::read(node, 8 + 4 * i),
            word(row, 2 + 2 * i),
            vars,
        ))
}

// Whether one of these rows is wanted.
fn sought(rows: &[[u8; 10]], node: &[u8; 24], vars: &[u16; 8]) -> bool
    ensures { result ≡ some (wanted vars.now (read_node node.now 0)) (map (λ row. read_row row 0) rows.now) }
{
    rows.iter().any(|row| wanted(row, node, vars))
}

// The numbers of the rows of the site at a place.
fn rows_at(tables: &Tables<'_>, place: usize) -> Range<usize>
    requires { place < 32 }
    ensures grouped { Grouped 10 tables.now.rows.now place result.start (result.end - result.start) }
    ensures ordered { result.start ≤ result.end }
{
    usize::from(tables.starts[place])..usize::from(tables.starts[place + 1])
}

// A test node: whether some row at the named place is wanted.
pub fn test(case: &Case<'_>, node: &[u8; 24], vars: &[u16; 8]) -> bool
    ensures { let t = case.now.tables in result ≡ test_of (sites_in t.sites.now) (rows_in t.rows.now) vars.now (read_node node.now 0) }
{
    let Some(place) = place_of(case.tables.sites, word(node, 2)) else {
        return false;
    };
    sought(&case.rows[rows_at(&case.tables, place)], node, vars)
}
