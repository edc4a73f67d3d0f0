// What the rules of the house are asked about.
ghost use Rattle.net.specs.Records.{node_width, row_width};
ghost use Rattle.policy.specs.Asked.{Acting, Divided};

use crate::{Act, Tables};

// An action about to be judged: what the rules are read from, the bodies of nodes and rows divided into records once for all that are looked
// at, and the terms of the action's two sites.
#[derive(Drop)]
pub struct Case<'a> {
    pub tables: Tables<'a>,
    pub nodes: &'a [[u8; 24]],
    pub rows: &'a [[u8; 10]],
    pub act: Act,
    pub terms: [u16; 8],
    ghost nodes_divided: { Divided node_width tables.nodes.now nodes.now },
    ghost rows_divided: { Divided row_width tables.rows.now rows.now },
    ghost acting: { Acting act tables.sites.now terms },
}
