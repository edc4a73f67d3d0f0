// Matching: whether a row fits an action's fields.
ghost use Rattle.std.specs.Prelude.{◌≡◌, ◌||◌, eqb, length, min, take};
ghost use Rattle.net.specs.Net.{is_binding, fields_of, values_of};
ghost use Rattle.policy.specs.Match.{fits};

use net::{Action, Operand, Row, Tag};

// Those of four fields that a count takes in.
#[tactic(auto, using(crate::proofs::Places::take_four, crate::proofs::Places::length_four))]
pub fn used<T>(fields: &[T; 4], count: u8) -> &[T]
    ensures those { result.now ≡ take count fields.now }
    ensures many { length result.now ≡ min count 4 }
{
    &fields[..usize::from(count).min(4)]
}

// Whether a value fits a field: the field binds, or it is the same.
fn field_fits(x: Operand, value: u16) -> bool
    ensures { result ≡ (is_binding x || eqb x.value value) }
{
    x.has(Tag::Binds) || x.value == value
}

// Whether a row fits an action's fields: as many, and each value equal to its field unless the field binds. By
// number: with a `zip` a run through full stores takes more instructions than the peer's.
pub fn fits(action: Action, row: Row) -> bool
    ensures { result ≡ fits (fields_of action) (values_of row) }
{
    let fields = used(&action.fields, action.count);
    let values = used(&row.fields, row.count);
    fields.len() == values.len() && (0..fields.len()).all(|i| field_fits(fields[i], values[i]))
}
