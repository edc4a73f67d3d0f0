// Asking: what a step would do, found by reading alone.
ghost use Rattle.std.specs.Prelude.{◌≡◌, ◌<◌, length, Ok};
ghost use Rattle.words.specs.Tables.{starts_of};
ghost use Rattle.net.specs.Image.{body_in, state_in, rules_in};
ghost use Rattle.stepping.specs.Step.{resolved, resolved_action, chosen, go, planned, allowed, asking};
ghost use Rattle.monitor.specs.Plan.{next_in, plan_of};

use crate::accepted::Accepted;
use format::Kind;
use net::{Action, Capability, Operand, Record, Row, Site, Tag, count, nth};
use policy::{Act, Tables};
use stepping::Answer;

// What a granted step does: puts a row, or takes or reads the row with this number.
#[derive(Clone, Copy)]
pub enum Grant {
    Put(Act),
    Get(Act, usize),
}

// An operand with the value of a used variable in its place.
fn resolved(x: Operand, vars: &[u16; 8]) -> Operand
    ensures { result ≡ resolved vars.now x }
{
    if !x.has(Tag::Variable) {
        return x;
    }
    Operand {
        tag: u16::from(Tag::Name),
        // 0 is unset in the image's own words, so there is no `Option`
        value: vars.get(usize::from(x.value)).copied().unwrap_or(0),
    }
}

// The whole action, so resolved.
fn resolved_action(x: Action, vars: &[u16; 8]) -> Action
    ensures { result ≡ resolved_action vars.now x }
{
    Action {
        target: resolved(x.target, vars),
        fields: x.fields.map(|field| resolved(field, vars)),
        ..x
    }
}

// A net as asking reads it: an accepted image, and where the rows of each site start.
#[derive(Clone, Copy)]
pub struct Net<'a> {
    pub image: Accepted<'a>,
    pub starts: &'a [u16; 33],
    ghost started: { starts.now ≡ starts_of 10 (body_in image.bytes.now 5) },
}

impl Net<'_> {
    // The oldest row at the target that fits the action. The rows at the target stand together, from where they start to where the next site's do.
    fn oldest(&self, act: &Act) -> Option<usize>
        requires { act.now.target < 32 }
        ensures { result ≡ chosen act.now (state_in self.now.image.bytes.now).rows }
    {
        let rows = self.image.body(Kind::Rows);
        // the stretch that `rows_at` of policy gives of its tables: there are none here to ask
        let start = usize::from(self.starts[act.target]);
        let end = usize::from(self.starts[act.target + 1]);
        (start..end).find(|&k| policy::fits(act.action, nth(rows, k)))
    }

    // Where action number p of site i stands among all actions: p past the first of i's, if the action there is i's.
    fn next_of(&self, i: usize, p: u16) -> Option<usize>
        ensures { result ≡ next_in (body_in self.now.image.bytes.now 4) i p }
    {
        let actions = self.image.body(Kind::Actions);
        let n = count::<Action>(actions);
        let k = words::count_below(actions, Action::WIDTH, n, i) + usize::from(p);
        (k < n && usize::from(actions[Action::WIDTH * k]) == i).then_some(k)
    }

    // Step 5, of an action that the rules let pass: a put needs no row, a take or read the oldest that fits.
    fn allowed(&self, act: Act) -> Result<Grant, Answer>
        requires { act.target < 32 }
        ensures { plan_of result ≡ allowed (state_in self.now.image.bytes.now) act }
    {
        if act.action.does(Capability::Put) {
            return Ok(Grant::Put(act));
        }
        let row = self.oldest(&act).ok_or(Answer::NoMatch)?;
        Ok(Grant::Get(act, row))
    }

    // Step 4: what the rules say of an action between sites that are there.
    fn judged(&self, act: Act) -> Result<Grant, Answer>
        requires { (act.source < length (state_in self.now.image.bytes.now).sites) × (act.target < length (state_in self.now.image.bytes.now).sites) }
        ensures { plan_of result ≡ planned (rules_in self.now.image.bytes.now) (state_in self.now.image.bytes.now) (go act) }
    {
        let image = self.image;
        let tables = Tables {
            nodes: image.body(Kind::Nodes),
            sites: image.body(Kind::Sites),
            rows: image.body(Kind::Rows),
            starts: self.starts,
        };
        let passes = policy::permits(&tables, image.body(Kind::Aspects), &act);
        if !passes {
            return Err(Answer::Denied);
        }
        self.allowed(act)
    }

    // What site i would do: steps 1 to 3 find its next action and the site that the action's target names.
    pub(crate) fn ask(&self, i: usize) -> Result<Grant, Answer>
        ensures { plan_of result ≡ asking (rules_in self.now.image.bytes.now) (state_in self.now.image.bytes.now) i }
    {
        let sites = self.image.body(Kind::Sites);
        if count::<Site>(sites) <= i {
            return Err(Answer::NoSite);
        }
        let site: Site = nth(sites, i);
        let actions = self.image.body(Kind::Actions);
        let k = self.next_of(i, site.position).ok_or(Answer::Done)?;
        let action = resolved_action(nth(actions, k), &site.vars);
        let Some(target) = net::place_of(sites, action.target.value) else {
            return Err(Answer::NoPlace);
        };
        self.judged(Act {
            source: i,
            target,
            action,
        })
    }
}
