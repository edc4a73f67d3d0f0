// Belnap's four values: 0 no decision, 1 yes, 2 no, 3 conflict. Bit 0 is evidence for, bit 1 evidence against. The six two-place
// operators are tables of constants; what they mean is said by the bit rules of specs/, and callers see those rules alone.
#![tactic(auto)]

ghost use Rattle.std.specs.Prelude.{◌≡◌, ◌<◌};
ghost use Rattle.belnap.specs.Belnap.{grants, not_of, operate_of, settles};
ghost use Rattle.belnap.specs.Operator.{place};

// The codes of the four values. They stay numbers: `settles` and `grants` answer for every u8, and an enum would take only four of
// them.
pub const UNDECIDED: u8 = 0;

pub const YES: u8 = 1;

pub const NO: u8 = 2;

pub const CONFLICT: u8 = 3;

// The two-place operators, in the order of the node kinds 19 to 24.
#[derive(Clone, Copy, PartialEq, Eq, Debug)]
pub enum Operator {
    And,
    Or,
    Consensus,
    Gather,
    Implies,
    Before,
}

// Each a table of p (down) and q (across).
const AND: [[u8; 4]; 4] = [[0, 0, 2, 2], [0, 1, 2, 3], [2, 2, 2, 2], [2, 3, 2, 3]];

const OR: [[u8; 4]; 4] = [[0, 1, 0, 1], [1, 1, 1, 1], [0, 1, 2, 3], [1, 1, 3, 3]];

const CONSENSUS: [[u8; 4]; 4] = [[0, 0, 0, 0], [0, 1, 0, 1], [0, 0, 2, 2], [0, 1, 2, 3]];

const GATHER: [[u8; 4]; 4] = [[0, 1, 2, 3], [1, 1, 3, 3], [2, 3, 2, 3], [3, 3, 3, 3]];

const IMPLIES: [[u8; 4]; 4] = [[0, 1, 2, 3], [0, 1, 2, 3], [1, 1, 1, 1], [1, 1, 1, 1]];

const BEFORE: [[u8; 4]; 4] = [[0, 1, 2, 3], [1, 1, 1, 1], [2, 2, 2, 2], [3, 3, 3, 3]];

// The operator of two values.
#[tactic(auto, using(crate::proofs::Tables::built), unfolding(crate::specs::Belnap::operate_of))]
pub fn operate(op: Operator, p: u8, q: u8) -> u8
    requires { (p < 4) × (q < 4) }
    ensures { (result ≡ operate_of (place op) p q) × (result < 4) }
{
    let i = usize::from(p);
    let j = usize::from(q);
    match op {
        Operator::And => AND[i][j],
        Operator::Or => OR[i][j],
        Operator::Consensus => CONSENSUS[i][j],
        Operator::Gather => GATHER[i][j],
        Operator::Implies => IMPLIES[i][j],
        Operator::Before => BEFORE[i][j],
    }
}

// Whether the first value decides the operator, whatever the second is.
#[tactic(auto, unfolding(crate::specs::Belnap::settles))]
pub fn settles(op: Operator, p: u8) -> bool
    ensures { result ≡ settles (place op) p }
{
    match op {
        Operator::And => p == NO,
        Operator::Or => p == YES,
        Operator::Consensus => p == UNDECIDED,
        Operator::Gather => p == CONFLICT,
        Operator::Implies => NO <= p,
        Operator::Before => p != UNDECIDED,
    }
}

// Not swaps the two bits.
pub fn not(p: u8) -> u8
    requires { p < 4 }
    ensures { (result ≡ not_of p) × (result < 4) }
{
    p % 2 * 2 + p / 2
}

// A value grants exactly if it is 0 or 1.
pub fn grants(p: u8) -> bool
    ensures { result ≡ grants p }
{
    p < NO
}
