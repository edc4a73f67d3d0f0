// The work of the stepping program: an image is loaded, steps are run on it, and what came of it is put into lent bytes as lines of text.
#![tactic(auto)]

ghost use Rattle.std.specs.Prelude.{◌≡◌, true, false, ◌+◌, ◌*◌, ◌/◌, ◌≤◌, ◌<◌, length, MatchOption};
ghost use Rattle.io.specs.Counts.{IsPrefixLen};
ghost use Rattle.net.specs.Net.{held};
ghost use Rattle.net.specs.Image.{rows_in};
ghost use Rattle.monitor.specs.Memory.{holds_net, rules_held, state_held};
ghost use Rattle.lines.specs.Lines.{Put};
ghost use Rattle.lines.specs.Pages.{Adds};
ghost use Rattle.stepper.specs.Farmstep.{input_ok, image_of, steps_of, step_line, site_line, step_lines, site_lines, ran_text, loaded_text, printed};
ghost use Rattle.stepper.specs.Bodies.{site_lines_of};

use lines::Page;
use monitor::RunError;
use net::{Row, Site};

// The most bytes of an input.
const MOST_INPUT: usize = 60000;

// Room for what any input makes the program print: 4,096 lines of steps and 32 of sites, each number 20 digits wide.
pub const ROOM: usize = 262144;

// The kinds of the bodies that are printed, as numbers: `monitor::body` takes every number.
const SITES: u16 = 1;

const ROWS: u16 = 5;

// Puts the line of a step.
fn step_line(page: &mut Page, index: usize, site: u8, answer: u8)
    requires { page.old.at + 63 ≤ length page.old.bytes.now }
    ensures { Adds (step_line index site answer) page.old page.new }
{
    // `as`, since there is no `From` between usize and u64
    page.number(index as u64);
    let numbers = [u64::from(site), u64::from(answer)];
    page.line(b"", &numbers);
}

// Puts a line per step.
fn step_lines(page: &mut Page, steps: &[u8], answers: &[u8])
    requires { (length steps.now ≤ length answers.now) × (page.old.at + 63 * length steps.now ≤ length page.old.bytes.now) }
    ensures { Adds (step_lines steps.now answers.now) page.old page.new }
{
    for (i, (site, answer)) in steps.iter().zip(answers).enumerate() {
        step_line(page, i, *site, *answer);
    }
}

// Puts the line of a site that holds so many rows.
#[tactic(auto, unfolding(crate::specs::Farmstep::site_line))]
fn site_line(page: &mut Page, site: Site, rows: usize)
    requires { page.old.at + 110 ≤ length page.old.bytes.now }
    ensures { Adds (site_line site rows) page.old page.new }
{
    let numbers = [
        u64::from(site.name),
        u64::from(site.hs),
        u64::from(site.ho),
        // `as`, since there is no `From` between usize and u64
        rows as u64,
        u64::from(site.lost),
    ];
    page.line(b"site", &numbers);
}

// How many rows a site holds.
fn rows_held(rows: &[u8], site: usize) -> usize
    ensures { result ≡ held site (rows_in rows.now) }
{
    (0..net::count::<Row>(rows))
        .filter(|k| usize::from(net::nth::<Row>(rows, *k).owner) == site)
        .count()
}

// Puts a line per site, from the bodies of sites and rows.
fn site_lines(page: &mut Page, sites: &[u8], rows: &[u8])
    requires { page.old.at + 110 * (length sites.now / 32) ≤ length page.old.bytes.now }
    ensures { Adds (site_lines_of sites.now rows.now) page.old page.new }
{
    for k in 0..net::count::<Site>(sites) {
        let site = net::nth::<Site>(sites, k);
        site_line(page, site, rows_held(rows, k));
    }
}

// Puts a line per site of the net that memory holds. It is saved into a buffer of a fixed size: the programs have no heap.
fn net_lines(page: &mut Page, memory: &[u8])
    requires { (holds_net memory.now ≡ true) × (page.old.at + 3520 ≤ length page.old.bytes.now) }
    ensures { Adds (site_lines (state_held memory.now)) page.old page.new }
{
    let mut saved = io::large_buffer();
    let n = monitor::save(memory, &mut saved).unwrap();
    let image = &saved[..n];
    site_lines(
        page,
        monitor::body(image, SITES),
        monitor::body(image, ROWS),
    );
}

// Runs the steps on memory that holds a net, and puts a line per step and per site.
fn ran(page: &mut Page, memory: &mut [u8], steps: &[u8])
    requires { (holds_net memory.old ≡ true) × (page.old.at + 262144 ≤ length page.old.bytes.now) }
    ensures { Adds (ran_text (rules_held memory.old) (state_held memory.old) steps.now) page.old page.new }
{
    let mut answers = io::buffer();
    let Ok(()) = monitor::run(memory, steps, &mut answers) else {
        return page.line(b"run", &[u64::from(u8::from(RunError::Long))]);
    };
    step_lines(page, steps, &answers);
    net_lines(page, memory);
}

// Loads the image, and runs the steps on its net.
fn loaded(page: &mut Page, image: &[u8], steps: &[u8])
    requires { page.old.at + 262144 ≤ length page.old.bytes.now }
    ensures { Adds (loaded_text image.now steps.now) page.old page.new }
{
    let mut memory = io::large_buffer();
    let verdict = monitor::load(image, &mut memory);
    let Ok(()) = verdict else {
        let numbers = [
            u64::from(format::number(verdict)),
            u64::from(format::record(verdict)),
        ];
        return page.line(b"load", &numbers);
    };
    ran(page, &mut memory, steps);
}

// The image and the steps of an input, if it has a length and an image as long as it says, and is not too long.
fn parts(input: &[u8]) -> Option<(&[u8], &[u8])>
    ensures { MatchOption result (input_ok input.now ≡ false)
        (λ p. (input_ok input.now ≡ true) × (p.0.now ≡ image_of input.now) × (p.1.now ≡ steps_of input.now)) }
{
    if MOST_INPUT < input.len() {
        return None;
    }
    let (length, rest) = input.split_at_checked(4)?;
    rest.split_at_checked(words::long_at(length, 0))
}

// Puts what the program prints for an input.
fn input_lines(page: &mut Page, input: &[u8])
    requires { page.old.at + 262144 ≤ length page.old.bytes.now }
    ensures { Adds (printed input.now) page.old page.new }
{
    match parts(input) {
        Some((image, steps)) => loaded(page, image, steps),
        None => page.line(b"input", &[]),
    }
}

// Puts what the program prints for an input, from the front on, and answers how long it is.
pub fn farmstep(input: &[u8], out: &mut [u8]) -> usize
    requires { 262144 ≤ length out.old }
    ensures put { Put out.old 0 (printed input.now) out.new result }
    ensures prefix_len { IsPrefixLen result out.new }
{
    let mut page = Page { bytes: out, at: 0 };
    input_lines(&mut page, input);
    page.at
}
