// The state of each site: its position lies in its program, and a variable is set exactly when an action before the position binds it.
ghost use Rattle.std.specs.Prelude.{◌≡◌, true, not, ◌+◌, ◌*◌, ◌-◌, ◌≤◌, eqb, length, get_or, take, drop};
ghost use Rattle.std.specs.Bool.{beq};
ghost use Rattle.words.specs.Lists.{first_failing, every, all, all_of};
ghost use Rattle.words.specs.Tables.{Ordered};
ghost use Rattle.net.specs.Records.{action_width};
ghost use Rattle.net.specs.Image.{sites_in, actions_in};
ghost use Rattle.format.specs.Format.{placed, state_ok};
ghost use Rattle.format.specs.Steps.{in_set, bound_by, operands_good};

use crate::variables::GoodFields;
use net::{Action, Record, Site, count, nth};
use words::count_below;

// Whether each variable is set exactly if it is bound.
fn set_right(vars: [u16; 8], bound: u8) -> bool
    ensures { result ≡ every (λ v. beq (not (eqb (get_or vars v 0) 0)) (in_set bound v)) 8 }
{
    vars.iter()
        .enumerate()
        .all(|(v, x)| (*x != 0) == ((bound >> v) % 2 == 1))
}

// The actions of an image of which none is bad: they are in the order of their owners, and their operands are good.
#[derive(Clone, Copy)]
pub struct Programs<'a> {
    pub actions: &'a [u8],
    ghost in_order: { Ordered action_width actions.now },
    ghost good: { all operands_good (actions_in actions.now) ≡ true },
}

impl Programs<'_> {
    // The variables that n actions bind, from action `from` on.
    fn bound_by(self, from: usize, n: usize) -> u8
        requires { action_width * (from + n) ≤ length self.actions.now }
        ensures { result ≡ bound_by (take n (drop from (actions_in self.entry.actions.now))) }
    {
        let mut bound = 0;
        for j in 0..n {
            let fields = nth::<Action>(self.actions, from + j).fields;
            bound = GoodFields { fields }.bound_too(bound);
        }
        bound
    }

    // Whether the state of a site is good whose program is the actions from..to.
    fn state_ok(self, from: usize, to: usize, x: Site) -> bool
        requires { (from ≤ to) × (action_width * to ≤ length self.actions.now) }
        ensures { result ≡ all_of (placed (take (to - from) (drop from (actions_in self.entry.actions.now))) x.position x.vars) }
    {
        let position = usize::from(x.position);
        position <= to - from && set_right(x.vars, self.bound_by(from, position))
    }

    // The first site whose state is bad.
    pub fn first_bad_state(self, sites: &[u8]) -> Option<usize>
        ensures { result ≡ first_failing (state_ok (actions_in self.entry.actions.now) (sites_in sites.now)) (length (sites_in sites.now)) }
    {
        let m = count::<Action>(self.actions);
        let mut from = 0;
        for k in 0..count::<Site>(sites) {
            let to = count_below(self.actions, Action::WIDTH, m, k + 1);
            if !self.state_ok(from, to, nth::<Site>(sites, k)) {
                return Some(k);
            }
            from = to;
        }
        None
    }
}
