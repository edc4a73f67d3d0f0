// The actions of an image: owners in order, at most 16 of one; operands as an action may have them; and of the variables, none bound twice,
// none both bound and used, and each used one bound by an earlier action of the same program.
ghost use Rattle.std.specs.Prelude.{◌≡◌, cond, eqb, length};
ghost use Rattle.words.specs.Lists.{first_failing, all_of};
ghost use Rattle.net.specs.Image.{actions_in};
ghost use Rattle.format.specs.Format.{action_ok};
ghost use Rattle.format.specs.Steps.{operands_good, form_rules};

use crate::owners::place_ok;
use crate::variables::GoodFields;
use net::{Action, Capability, count, nth};
use rulebook::{Tags, capability_ok, count_ok};

// The most actions of one site.
const PROGRAM_LIMIT: usize = 16;

// What is bound before an action of `owner` that comes after one of `last`: what that program bound so far, or nothing where a program begins.
fn bound_for(bound: u8, last: u8, owner: u8) -> u8
    ensures { result ≡ cond (eqb owner last) bound 0 }
{
    if owner == last { bound } else { 0 }
}

// Whether the fields of an action are as its capability has them: a put binds nothing.
fn fields_ok(x: Action) -> bool
    ensures { result ≡ operands_good x }
{
    let tags = if x.does(Capability::Put) {
        Tags::PLAIN
    } else {
        Tags::BOUND
    };
    tags.allow_first(x.count, x.fields)
}

// Whether an action is good by itself, after actions of its program that bind `bound`.
fn form_ok(bound: u8, x: Action) -> bool
    ensures { result ≡ all_of (form_rules bound x) }
{
    let fields = x.fields;
    x.zero == 0
        && (capability_ok(x.capability)
            && (count_ok(x.count)
                && (Tags::PLAIN.allow(x.target)
                    && (fields_ok(x) && GoodFields { fields }.ok(bound, x.target)))))
}

// The first bad action of a net of so many sites. Nothing is bound before the first, so it needs no case of its own, whatever its owner.
pub fn first_bad_action(actions: &[u8], sites: usize) -> Option<usize>
    ensures { result ≡ first_failing (action_ok sites (actions_in actions.now)) (length (actions_in actions.now)) }
{
    let mut bound = 0;
    let mut last = 0;
    for k in 0..count::<Action>(actions) {
        let x = nth::<Action>(actions, k);
        let earlier = bound_for(bound, last, x.owner);
        let good = place_ok::<Action>(actions, PROGRAM_LIMIT, sites, k) & form_ok(earlier, x);
        if !good {
            return Some(k);
        }
        let fields = x.fields;
        bound = GoodFields { fields }.bound_too(earlier);
        last = x.owner;
    }
    None
}
