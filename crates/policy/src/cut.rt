// Cuts: whether an aspect traps an action, and what the cut's variables take. An aspect is its own 32 bytes, read no further than the
// answer needs.
ghost use Rattle.std.specs.Prelude.{◌≡◌, ◌/◌, ◌<◌, length, take};
ghost use Rattle.words.specs.Lists.{fit_all};
ghost use Rattle.net.specs.Records.{read_aspect};
ghost use Rattle.net.specs.Net.{fields_of, site_at};
ghost use Rattle.net.specs.Image.{sites_in};
ghost use Rattle.policy.specs.Match.{through};
ghost use Rattle.policy.specs.House.{name, pattern_fits, traps, takes, taken};

use crate::case::Case;
use crate::fields::used;
use crate::vars::assign;
use net::{Action, Operand, Record, Tag};
use words::word;

// Whether a pattern fits a part of an action, which is a name or binds: a name fits that name, a variable any name, "any" all, "binder"
// only what binds.
#[tactic(auto, unfolding(crate::specs::House::pattern_fits))]
fn pattern_fits(p: Operand, x: Operand) -> bool
    ensures { result ≡ pattern_fits p x }
{
    match Tag::try_from(p.tag) {
        Ok(Tag::Name) => x.has(Tag::Name) && p.value == x.value,
        Ok(Tag::Variable) => x.has(Tag::Name),
        Ok(Tag::Any) => true,
        Ok(Tag::Binder) => x.has(Tag::Binds),
        Ok(Tag::Binds) | Err(_) => false,
    }
}

// The name of a site, as a part of an action.
#[tactic(auto, using(crate::proofs::Bodies::name_in))]
fn named(sites: &[u8], site: usize) -> Operand
    requires { site < length sites.now / 32 }
    ensures { result ≡ name (site_at (sites_in sites.now) site).name }
{
    Operand {
        tag: Tag::Name.into(),
        value: word(sites, 32 * site),
    }
}

// Whether the aspect's patterns fit the action's fields, by number, as `fits` goes.
fn fields_fit(aspect: &[u8; 32], action: &Action) -> bool
    ensures { result ≡ fit_all pattern_fits (take action.now.count (read_aspect aspect.now 0).fields) (fields_of action.now) }
{
    let fields = used(&action.fields, action.count);
    (0..fields.len()).all(|i| pattern_fits(Operand::read(aspect, 12 + 4 * i), fields[i]))
}

// Whether the aspect traps the action: the same capability and count, and parts that all fit.
#[tactic(auto, unfolding(crate::specs::House::traps, net::specs::Records::read_aspect))]
pub fn traps(aspect: &[u8; 32], case: &Case<'_>) -> bool
    ensures { result ≡ traps (sites_in case.now.tables.sites.now) case.now.act (read_aspect aspect.now 0) }
{
    let sites = case.tables.sites;
    let act = &case.act;
    aspect[1] == act.action.capability
        && aspect[2] == act.action.count
        && pattern_fits(Operand::read(aspect, 4), named(sites, act.source))
        && pattern_fits(Operand::read(aspect, 8), named(sites, act.target))
        && fields_fit(aspect, &act.action)
}

// A pattern meets its part of the action: a variable takes it.
#[tactic(auto, unfolding(crate::specs::House::takes))]
fn takes(vars: &mut [u16; 8], p: Operand, x: Operand)
    ensures { vars.new ≡ takes p x vars.old }
{
    if p.has(Tag::Variable) {
        assign(vars, p.value, x.value);
    }
}

// The aspect's patterns, as many as it counts, meet the action's fields.
fn fields_take(vars: &mut [u16; 8], aspect: &[u8; 32], action: &Action)
    ensures { let x = read_aspect aspect.now 0 in vars.new ≡ through takes (take x.count x.fields) (fields_of action.now) vars.old }
{
    let fields = used(&action.fields, action.count.min(aspect[2]));
    for (i, x) in fields.iter().enumerate() {
        takes(vars, Operand::read(aspect, 12 + 4 * i), *x);
    }
}

// What the variables of the aspect's cut take from the action; the others are unset.
#[tactic(auto, unfolding(crate::specs::House::taken, net::specs::Records::read_aspect))]
pub fn taken(aspect: &[u8; 32], case: &Case<'_>) -> [u16; 8]
    ensures { result ≡ taken (sites_in case.now.tables.sites.now) case.now.act (read_aspect aspect.now 0) }
{
    let sites = case.tables.sites;
    let act = &case.act;
    let mut vars = [0; 8];
    takes(
        &mut vars,
        Operand::read(aspect, 4),
        named(sites, act.source),
    );
    takes(
        &mut vars,
        Operand::read(aspect, 8),
        named(sites, act.target),
    );
    fields_take(&mut vars, aspect, &act.action);
    vars
}
