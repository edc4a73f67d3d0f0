// Rules that several kinds of record share: of operands, counts, capabilities and owners.
ghost use Rattle.std.specs.Prelude.{◌≡◌, cond, ◌+◌, ◌*◌, ◌≤◌, ◌<◌, length, drop, ltb};
ghost use Rattle.words.specs.Lists.{before};
ghost use Rattle.rulebook.specs.Parts.{operand_ok, tags_of, unused, operands_ok, count_ok, capability_ok, speaks, owners_in, owner_ok, NeverFall, room_ok};
ghost use Rattle.rulebook.specs.Steps.{alone, once_each};

use net::{Capability, Operand, Record, Tag};

// Which tags may stand in a place beside those of names and variables.
#[derive(Clone, Copy, PartialEq, Eq, Debug)]
pub struct Tags {
    pub binds: bool,
    pub any: bool,
    pub binder: bool,
}

// Whether an operand is not used.
fn is_unused(x: Operand) -> bool
    ensures { result ≡ unused x }
{
    x.has(Tag::Name) & (x.value == 0)
}

impl Tags {
    // Names and variables alone: a target, the sides of an "equal", the fields of a put.
    pub const PLAIN: Tags = Tags {
        binds: false,
        any: false,
        binder: false,
    };

    // What a field of a take or read may be as well.
    pub const BOUND: Tags = Tags {
        binds: true,
        any: false,
        binder: false,
    };

    // What a field of a test, and the source and target of a cut, may be as well.
    pub const SOUGHT: Tags = Tags {
        binds: false,
        any: true,
        binder: false,
    };

    // What a field of a cut may be as well.
    pub const CUT: Tags = Tags {
        binds: false,
        any: true,
        binder: true,
    };

    // Whether an operand is good where these tags may stand.
    pub fn allow(self, x: Operand) -> bool
        ensures { result ≡ operand_ok (tags_of self.binds self.any self.binder) x }
    {
        match Tag::try_from(x.tag) {
            Ok(Tag::Name) => x.value != 0,
            Ok(Tag::Variable) => x.value < 8,
            Ok(Tag::Binds) => self.binds & (x.value < 8),
            Ok(Tag::Any) => self.any & (x.value == 0),
            Ok(Tag::Binder) => self.binder & (x.value == 0),
            Err(_) => false,
        }
    }

    // Whether operand j of some, of which the first n are used, is as it has to be.
    fn allow_at(self, n: u8, j: u8, x: Operand) -> bool
        ensures { result ≡ cond (ltb j n) (operand_ok (tags_of self.binds self.any self.binder) x) (unused x) }
    {
        if j < n { self.allow(x) } else { is_unused(x) }
    }

    // Whether the first n of four operands are good and the others not used. Written out: a chain would carry j as a usize beside a count that is a
    // u8, and is no plainer.
    pub fn allow_first(self, n: u8, l: [Operand; 4]) -> bool
        ensures { result ≡ operands_ok (tags_of self.binds self.any self.binder) n l }
    {
        self.allow_at(n, 0, l[0])
            & (self.allow_at(n, 1, l[1]) & (self.allow_at(n, 2, l[2]) & self.allow_at(n, 3, l[3])))
    }
}

// The three functions below take any number as the tag: a `Tag` in its place would ask more of who calls them.

// Whether an operand with this tag speaks of variable v.
pub fn speaks_of(tag: u16, v: u16, x: Operand) -> bool
    ensures { result ≡ speaks tag v x }
{
    (x.tag == tag) & (x.value == v)
}

// Whether an operand, where it has this tag, speaks of a variable that none from place `from` on speaks of with the tag.
#[tactic(auto, unfolding(crate::specs::Steps::alone))]
pub fn is_alone(tag: u16, x: Operand, l: [Operand; 4], from: usize) -> bool
    ensures { result ≡ alone tag x (drop from l) }
{
    x.tag != tag || !l.iter().skip(from).any(|y| speaks_of(tag, x.value, *y))
}

// Whether no two of four operands, with this tag, speak of one variable: each with those after it, which a chain would say no plainer.
pub fn once_each(tag: u16, l: [Operand; 4]) -> bool
    ensures { result ≡ once_each tag l }
{
    is_alone(tag, l[0], l, 1) & (is_alone(tag, l[1], l, 2) & is_alone(tag, l[2], l, 3))
}

// Whether so many fields are 1 to 4.
pub fn count_ok(n: u8) -> bool
    ensures { result ≡ count_ok n }
{
    (1..=4).contains(&n)
}

// Whether c is put, take or read.
pub fn capability_ok(c: u8) -> bool
    ensures { result ≡ capability_ok c }
{
    Capability::try_from(c).is_ok()
}

// The owner before record k, 0 before the first: no owner is below 0, so the first record needs no case of its own.
#[tactic(auto, using(crate::proofs::Owners::before_is))]
fn owner_before<R: Record>(table: &[u8], k: usize) -> u8
    requires { R.WIDTH * k + R.WIDTH ≤ length table.now }
    ensures { result ≡ before (owners_in R.WIDTH table.now) k }
{
    if k == 0 {
        return 0;
    }
    table[R::WIDTH * (k - 1)]
}

// Whether record k's owner is a site and not below the owner before it. That record k lies in the table is the bound of an index, which a slice's
// own index asks too: a struct of table and index would only give the pair another name.
#[tactic(auto, using(crate::proofs::Owners::owner_is))]
pub fn owner_ok<R: Record>(table: &[u8], sites: usize, k: usize) -> bool
    requires { R.WIDTH * k + R.WIDTH ≤ length table.now }
    ensures { result ≡ owner_ok sites (owners_in R.WIDTH table.now) k }
{
    let owner = table[R::WIDTH * k];
    usize::from(owner) < sites && owner_before::<R>(table, k) <= owner
}

// Whether record k's owner has room for it: where owners never fall, the record so many before it has another owner.
#[tactic(auto, using(crate::proofs::Rooms::room_back))]
pub fn room_ok<R: Record>(table: &[u8], limit: usize, k: usize) -> bool
    requires { (R.WIDTH * k + R.WIDTH ≤ length table.now) × (0 < limit) × NeverFall (owners_in R.WIDTH table.now) k }
    ensures { result ≡ room_ok limit (owners_in R.WIDTH table.now) k }
{
    k < limit || table[R::WIDTH * (k - limit)] != table[R::WIDTH * k]
}
