// Aspects: each is read once, whole and by value.
ghost use Rattle.std.specs.Prelude.{◌≡◌, [], ◌∷◌, ◌+◌, ◌*◌, ◌≤◌, length};
ghost use Rattle.words.specs.Lists.{first_failing};
ghost use Rattle.net.specs.Image.{nodes_in, aspects_in};
ghost use Rattle.rulebook.specs.Rulebook.{aspect_ok};
ghost use Rattle.rulebook.specs.Steps.{alone, once_each, head_ok, cut_ok, names_ok};

use crate::nodes::below;
use crate::parts::{Tags, capability_ok, count_ok, is_alone, once_each, owner_ok, speaks_of};
use net::{Advice, Aspect, Condition, Node, Operand, Tag, count, nth};

// Whether the capability, the count and the byte after them are good.
fn head_ok(x: Aspect) -> bool
    ensures { result ≡ head_ok x }
{
    capability_ok(x.capability) & (count_ok(x.count) & (x.zero == 0))
}

// Whether two operands are not one variable.
#[tactic(auto, unfolding(crate::specs::Steps::alone))]
fn are_apart(x: Operand, y: Operand) -> bool
    ensures { result ≡ alone 1 x (y ∷ []) }
{
    !x.has(Tag::Variable) | !speaks_of(x.tag, x.value, y)
}

// Whether source, target and fields take no variable twice.
#[tactic(auto, using(crate::proofs::Cuts::once_six))]
fn takes_once(source: Operand, target: Operand, l: [Operand; 4]) -> bool
    ensures { result ≡ once_each 1 (source ∷ target ∷ l) }
{
    let variable = u16::from(Tag::Variable);
    are_apart(source, target)
        & (is_alone(variable, source, l, 0)
            & (is_alone(variable, target, l, 0) & once_each(variable, l)))
}

// Whether the cut is good.
#[tactic(auto, unfolding(crate::specs::Steps::cut_ok))]
fn cut_ok(x: Aspect) -> bool
    ensures { result ≡ cut_ok x }
{
    let source = x.source;
    let target = x.target;
    let l = x.fields;
    Tags::SOUGHT.allow(source)
        && (Tags::SOUGHT.allow(target)
            && (Tags::CUT.allow_first(x.count, l) && takes_once(source, target, l)))
}

// Whether it names a condition and a recommendation.
#[tactic(auto, using(words::proofs::Tables::table_length))]
fn names_ok(nodes: &[u8], x: Aspect) -> bool
    ensures { result ≡ names_ok (nodes_in nodes.now) x }
{
    let n = count::<Node>(nodes);
    below::<Condition>(nodes, n, x.condition) & below::<Advice>(nodes, n, x.recommendation)
}

// Whether aspect k is good where those before it are.
fn aspect_ok(aspects: &[u8], nodes: &[u8], sites: usize, k: usize) -> bool
    requires { 32 * k + 32 ≤ length aspects.now }
    ensures { result ≡ aspect_ok sites (nodes_in nodes.now) (aspects_in aspects.now) k }
{
    let x: Aspect = nth(aspects, k);
    owner_ok::<Aspect>(aspects, sites, k) && (head_ok(x) && (cut_ok(x) && names_ok(nodes, x)))
}

// The first bad aspect.
pub fn first_bad_aspect(aspects: &[u8], nodes: &[u8], sites: usize) -> Option<usize>
    ensures { result ≡ first_failing (aspect_ok sites (nodes_in nodes.now) (aspects_in aspects.now)) (length (aspects_in aspects.now)) }
{
    (0..count::<Aspect>(aspects)).find(|&k| !aspect_ok(aspects, nodes, sites, k))
}
