// Eight variables, or terms: set, bound to a row's values, looked up, and compared. 0 means unset.
ghost use Rattle.std.specs.Prelude.{◌≡◌, get_or, set};
ghost use Rattle.net.specs.Net.{fields_of, values_of};
ghost use Rattle.policy.specs.Match.{bound};
ghost use Rattle.policy.specs.House.{meant, known};

use crate::fields::used;
use net::{Action, Operand, Row, Tag};

// Sets a variable; there is none from 8 on.
pub fn assign(vars: &mut [u16; 8], variable: u16, value: u16)
    ensures { vars.new ≡ set vars.old variable value }
{
    // tested by hand: the contract of a slice's `get_mut` does not say what the slice holds after a write through the place
    let at = usize::from(variable);
    if at < vars.len() {
        vars[at] = value;
    }
}

// The variables, those that the fields bind now bound to the row's values.
pub fn bound(action: Action, row: Row, vars: [u16; 8]) -> [u16; 8]
    ensures { result ≡ bound (fields_of action) (values_of row) vars }
{
    let fields = used(&action.fields, action.count);
    let values = used(&row.fields, row.count);
    let mut bound = vars;
    for (x, value) in fields.iter().zip(values) {
        if x.has(Tag::Binds) {
            assign(&mut bound, x.value, *value);
        }
    }
    bound
}

// Number i of eight; 0 from 8 on, which is unset in the image's own words.
pub fn element(list: &[u16; 8], i: u16) -> u16
    ensures { result ≡ get_or list.now i 0 }
{
    list.get(usize::from(i)).copied().unwrap_or(0)
}

// An operand's value, 0 where its variable is unset.
pub fn meant(x: Operand, vars: &[u16; 8]) -> u16
    ensures { result ≡ meant vars.now x }
{
    if x.has(Tag::Variable) {
        element(vars, x.value)
    } else {
        x.value
    }
}

// A known value, and the same one.
pub fn known(v: u16, w: u16) -> bool
    ensures { result ≡ known v w }
{
    v != 0 && v == w
}
