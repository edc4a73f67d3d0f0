// Which images are accepted: the size, the edition, the contents, each kind of record, then the state of each site; and the bodies of an
// accepted image, as parts of it. `check` and `body` ask for nothing; the header's numbers and the parts are for those who know an image to
// be in order.
#![tactic(auto)]

mod actions;
mod contents;
mod owners;
mod sites;
mod states;
mod stores;
mod variables;

ghost use Rattle.std.specs.Prelude.{◌≡◌, ◌<◌, true, false, MatchOption, IfSome};
ghost use Rattle.net.specs.Image.{state_in, rules_in};
ghost use Rattle.format.specs.Verdict.{number_of, record_of, is_accepted, records_verdict, verdict_of, body_of, body_place};
ghost use Rattle.format.specs.Steps.{state_verdict};
ghost use Rattle.format.specs.declared.Refusal.{Refusal};

use actions::first_bad_action;
use contents::size_ok;
pub use contents::{Header, Image, Kind};
use net::{Site, count};
use rulebook::{Places, first_bad_aspect, first_bad_node};
use sites::first_bad_site;
use states::Programs;
pub use stores::STORE_LIMIT;
use stores::first_bad_row;
use words::word;

// Why an image is refused. `Small` is load's alone.
#[derive(Clone, Copy, PartialEq, Eq, Debug)]
pub enum Refusal {
    Size,
    Edition,
    Contents,
    BadSite(u16),
    BadNode(u16),
    BadAspect(u16),
    BadAction(u16),
    BadRow(u16),
    BadState(u16),
    Small,
}

// What a check answers.
pub type Verdict = Result<(), Refusal>;

// The paper's number of an answer. A function and no `From`: `Verdict` is a `Result`, whose conversions are not this crate's to write.
pub fn number(v: Verdict) -> u16
    ensures { result ≡ number_of v }
{
    match v {
        Ok(()) => 0,
        Err(Refusal::Size) => 10,
        Err(Refusal::Edition) => 11,
        Err(Refusal::Contents) => 12,
        Err(Refusal::BadSite(_)) => 13,
        Err(Refusal::BadNode(_)) => 14,
        Err(Refusal::BadAspect(_)) => 15,
        Err(Refusal::BadAction(_)) => 16,
        Err(Refusal::BadRow(_)) => 17,
        Err(Refusal::BadState(_)) => 18,
        Err(Refusal::Small) => 19,
    }
}

// The record that an answer carries, 0 where there is none: C packs it beside the number.
pub fn record(v: Verdict) -> u16
    ensures { result ≡ record_of v }
{
    match v {
        Err(
            Refusal::BadSite(k)
            | Refusal::BadNode(k)
            | Refusal::BadAspect(k)
            | Refusal::BadAction(k)
            | Refusal::BadRow(k)
            | Refusal::BadState(k),
        ) => k,
        _ => 0,
    }
}

// The verdict on a kind of record, of which the first bad one is found: its refusal carries the number, which `as` cuts to a word. `small` says that
// it fits one: a test in the place of `as` could not fail.
fn refuse<F: FnOnce(u16) -> Refusal>(bad: Option<usize>, refusal: F) -> Verdict
    requires small { IfSome bad (λ k. k < 65536) }
    requires callable { F.IsAlwaysCallable refusal }
    ensures { MatchOption bad (result ≡ Ok tt) (λ k. (why : Refusal) × F.post refusal k why × (result ≡ Err why)) }
{
    match bad {
        None => Ok(()),
        Some(k) => Err(refusal(k as u16)),
    }
}

// The verdict on actions, rows and the state of each site.
fn check_state(image: Image<'_>) -> Verdict
    ensures { result ≡ state_verdict (state_in image.entry.bytes.now) }
{
    let sites = image.body(Kind::Sites);
    let actions = image.body(Kind::Actions);
    let n = count::<Site>(sites);
    refuse(first_bad_action(actions, n), Refusal::BadAction)?;
    refuse(first_bad_row(image.body(Kind::Rows), n), Refusal::BadRow)?;
    refuse(
        Programs { actions }.first_bad_state(sites),
        Refusal::BadState,
    )
}

// The verdict on all records.
fn check_records(image: Image<'_>) -> Verdict
    ensures { result ≡ records_verdict (state_in image.entry.bytes.now) (rules_in image.entry.bytes.now) }
{
    let sites = image.body(Kind::Sites);
    let nodes = image.body(Kind::Nodes);
    let aspects = image.body(Kind::Aspects);
    refuse(first_bad_site(sites), Refusal::BadSite)?;
    refuse(first_bad_node(nodes, Places { sites }), Refusal::BadNode)?;
    refuse(
        first_bad_aspect(aspects, nodes, count::<Site>(sites)),
        Refusal::BadAspect,
    )?;
    check_state(image)
}

// Whether an image is accepted, and if not why.
#[tactic(auto, unfolding(crate::specs::Verdict::size_ok, crate::specs::Verdict::verdict_of))]
pub fn check(image: &[u8]) -> Verdict
    ensures { result ≡ verdict_of image.now }
{
    if !size_ok(image) {
        return Err(Refusal::Size);
    }
    if word(image, 0) != 1 {
        return Err(Refusal::Edition);
    }
    let header = Header { bytes: image };
    check_records(Image::of(header).ok_or(Refusal::Contents)?)
}

// An image that is accepted.
pub fn accepted(image: &[u8]) -> Option<Image<'_>>
    ensures { MatchOption result (is_accepted (verdict_of image.now) ≡ false) (λ it. (it.bytes ≡ image.entry) × (verdict_of image.now ≡ Ok tt)) }
{
    check(image).ok()?;
    Some(Image { bytes: image })
}

// The body of a kind, as that part of the image itself; the empty part of it if the image is refused or there is no such kind.
#[tactic(auto, unfolding(crate::specs::Verdict::handed_out, crate::specs::Verdict::body_of, crate::specs::Verdict::body_place))]
pub fn body<'a>(image: &'a [u8], kind: u16) -> &'a [u8]
    ensures result_value { result.now ≡ body_of image.now kind }
    ensures ref_ptr_value { result.ref_ptr ≡ body_place image.entry.ref_ptr image.now kind }
{
    let Ok(kind) = Kind::try_from(kind) else {
        return &image[..0];
    };
    match accepted(image) {
        Some(image) => image.body(kind),
        None => &image[..0],
    }
}
