// The mandatory rules: a constant table of capability, left term, right term, gone through for each action.
ghost use Rattle.std.specs.Prelude.{◌≡◌, ◌<◌, get_or};
ghost use Rattle.policy.specs.House.{terms_of, term_number, rule_gives, mandatory};

use level::Level;
use net::{Capability, Site};

// The levels that rules speak of: S, C, O and HS of the source, O, HO, S and C of the target.
#[derive(Clone, Copy, PartialEq, Eq, Debug)]
pub enum Term {
    SourceS,
    SourceC,
    SourceO,
    SourceHs,
    TargetO,
    TargetHo,
    TargetS,
    TargetC,
}

// For actions of this capability the left term has to dominate the right.
#[derive(Clone, Copy)]
pub struct Rule {
    pub capability: Capability,
    pub left: Term,
    pub right: Term,
}

// The rules.
const RULES: [Rule; 8] = [
    // put: O of the target over C and HS of the source
    Rule {
        capability: Capability::Put,
        left: Term::TargetO,
        right: Term::SourceC,
    },
    Rule {
        capability: Capability::Put,
        left: Term::TargetO,
        right: Term::SourceHs,
    },
    // take: both these and those of read
    Rule {
        capability: Capability::Take,
        left: Term::TargetO,
        right: Term::SourceC,
    },
    Rule {
        capability: Capability::Take,
        left: Term::TargetO,
        right: Term::SourceHs,
    },
    Rule {
        capability: Capability::Take,
        left: Term::SourceS,
        right: Term::TargetO,
    },
    Rule {
        capability: Capability::Take,
        left: Term::SourceS,
        right: Term::TargetHo,
    },
    // read: S of the source over O and HO of the target
    Rule {
        capability: Capability::Read,
        left: Term::SourceS,
        right: Term::TargetO,
    },
    Rule {
        capability: Capability::Read,
        left: Term::SourceS,
        right: Term::TargetHo,
    },
];

// The terms 0 to 7 of an action from x to y.
pub fn terms(x: Site, y: Site) -> [u16; 8]
    ensures { result ≡ terms_of x y }
{
    [x.s, x.c, x.o, x.hs, y.o, y.ho, y.s, y.c]
}

// The level of a term.
fn level(term: Term, terms: &[u16; 8]) -> Level
    ensures { result.code ≡ get_or terms.now (term_number term) 0 }
{
    // `as` gives an enum's own place, which no other conversion does
    Level::from(terms[term as usize])
}

// What one rule gives: 2 where the left does not dominate the right, else 0.
fn rule_gives(rule: &Rule, capability: u8, terms: &[u16; 8]) -> u8
    ensures { result ≡ rule_gives capability terms.now rule.now }
{
    // the capability is the record's own byte: `rule_gives` of specs/ answers for every number
    if u8::from(rule.capability) != capability {
        return belnap::UNDECIDED;
    }
    let above = level(rule.left, terms);
    let below = level(rule.right, terms);
    if above.dominates(below) {
        belnap::UNDECIDED
    } else {
        belnap::NO
    }
}

// What the mandatory rules give an action of this capability, gathered: the first 2 decides, since the others are 0 or 2.
pub fn mandatory(capability: u8, terms: &[u16; 8]) -> u8
    ensures { (result ≡ mandatory capability terms.now) × (result < 4) }
{
    let undecided = RULES.iter().all(|rule| rule_gives(rule, capability, terms)
        == belnap::UNDECIDED);
    if undecided {
        belnap::UNDECIDED
    } else {
        belnap::NO
    }
}
