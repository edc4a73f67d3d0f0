// The variables of actions: sets of the eight, a bit for each, and the rule that an action binds none twice and uses only what was bound before.
// The operands are good, so neither the values nor the count of fields are tested here.
ghost use Rattle.std.specs.Prelude.{◌≡◌, ℕ, ◌≤◌, ◌<◌};
ghost use Rattle.std.specs.Int.Bits.{bit_or};
ghost use Rattle.net.specs.Codes.{tag_code};
ghost use Rattle.format.specs.Steps.{Ranged, EachRanged, bit_of, set_of, apart, parts_ok};

use net::{Operand, Tag};

// The variable of a part that has this tag.
#[tactic(auto, unfolding(crate::specs::Steps::bit_of))]
fn bit(tag: Tag, x: Operand) -> u8
    requires { Ranged (tag_code tag) x }
    ensures { result ≡ bit_of (tag_code tag) x }
{
    let v = x.value;
    if x.has(tag) { 1u8 << v } else { 0 }
}

// The fields of an action whose operands are good: what has the tag of a variable, used or bound, has one of the eight, and a field not in use
// has no such tag.
#[derive(Clone, Copy)]
pub struct GoodFields {
    pub fields: [Operand; 4],
    ghost ranged: { (tag : ℕ) → 0 < tag → tag ≤ 2 → EachRanged tag fields },
}

impl GoodFields {
    // The variables of those with this tag, of variables used or bound. Each by itself: the closure of a `fold` would have to be told that each is one
    // of the eight.
    #[tactic(auto, using(crate::proofs::Binding::set_steps))]
    fn set(self, tag: Tag) -> u8
        requires { (0 < tag_code tag) × (tag_code tag ≤ 2) }
        ensures { result ≡ set_of (tag_code tag) self.fields }
    {
        let f = self.fields;
        bit(tag, f[0]) | (bit(tag, f[1]) | (bit(tag, f[2]) | bit(tag, f[3])))
    }

    // Whether no two bind one variable: each pair once, which no chain says plainer.
    #[tactic(auto, using(crate::proofs::Binding::apart_steps))]
    fn bound_once(self) -> bool
        ensures { result ≡ apart 2 self.fields }
    {
        let a = bit(Tag::Binds, self.fields[0]);
        let b = bit(Tag::Binds, self.fields[1]);
        let c = bit(Tag::Binds, self.fields[2]);
        let d = bit(Tag::Binds, self.fields[3]);
        ((a & (b | (c | d))) == 0) & (((b & (c | d)) == 0) & ((c & d) == 0))
    }

    // Whether the variables of an action with this target and these fields are good, after actions that bind `bound`.
    #[tactic(auto, unfolding(crate::specs::Steps::parts_ok))]
    pub fn ok(self, bound: u8, target: Operand) -> bool
        requires { Ranged 1 target }
        ensures { result ≡ parts_ok bound target self.fields }
    {
        let uses = bit(Tag::Variable, target) | self.set(Tag::Variable);
        let binds = self.set(Tag::Binds);
        self.bound_once() & (((uses & binds) == 0) & ((uses & bound) == uses))
    }

    // The set with what they bind.
    pub fn bound_too(self, bound: u8) -> u8
        ensures { result ≡ bit_or bound (set_of 2 self.fields) }
    {
        bound | self.set(Tag::Binds)
    }
}
