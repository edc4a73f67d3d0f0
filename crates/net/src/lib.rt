// The records of a net, field by field as the image has them, by value. A reader asks for its record's place and tests nothing; a writer
// gives the record's bytes. What a net is, and its image, is in specs/. Kinds and tags are numbers in a record, and a count stands beside
// its four fields: any bytes are read, those of a refused image too, and `image_of_net` in proofs/Images.antt says that what was read is
// written back byte for byte, which needs the numbers that stand for nothing and the fields past the count.
#![tactic(auto)]

mod codes;

ghost use Rattle.std.specs.Prelude.{◌≡◌, ℕ, List, ◌+◌, ◌*◌, ◌/◌, ◌≤◌, ◌<◌, eqb, length};
ghost use Rattle.std.proofs.Common.{rules};
ghost use Rattle.words.specs.Bytes.{u16_at};
ghost use Rattle.words.specs.Tables.{build};
ghost use Rattle.net.specs.Codes.{tag_code, capability_code};
ghost use Rattle.net.specs.Records.{site_width, node_width, aspect_width, action_width, row_width, read_operand, read_site, read_node, read_aspect, read_action, read_row, site_bytes, row_bytes};
ghost use Rattle.net.specs.Net.{names, place_of, Rising};
ghost use Rattle.net.specs.Image.{sites_in};

pub use codes::{Advice, Capability, Condition, Tag, Unknown};
use std::array;
use words::word;

// A record of an image: how many bytes it takes, and how it is read from the byte where it starts.
pub trait Record: Copy {
    ghost WIDTH: { ℕ };

    ghost read_of: { List ℕ → ℕ → Self };

    const WIDTH: usize;

    // The record at byte `at`.
    fn read(s: &[u8], at: usize) -> Self
        requires { at + WIDTH ≤ length s.now }
        ensures { result ≡ read_of s.now at };

    ghost wide: { 0 < WIDTH };
}

// Record number k of a table. Tables are gone over by number: no function can answer `impl Iterator`, and records are read by value.
pub fn nth<R: Record>(table: &[u8], k: usize) -> R
    requires { R.WIDTH * k + R.WIDTH ≤ length table.now }
    ensures { result ≡ R.read_of table.now (R.WIDTH * k) }
{
    R::read(table, R::WIDTH * k)
}

// How many records a table has.
pub fn count<R: Record>(table: &[u8]) -> usize
    ensures { result ≡ length table.now / R.WIDTH }
{
    table.len() / R::WIDTH
}

// N records, one after the other, from byte `at` on.
pub fn several<R: Record, const N: usize>(s: &[u8], at: usize) -> [R; N]
    requires { at + R.WIDTH * N ≤ length s.now }
    ensures { result ≡ build N (λ k. R.read_of s.now (at + R.WIDTH * k)) }
{
    array::from_fn(
        |k: usize| -> R
            requires { at + R.WIDTH * k + R.WIDTH ≤ length s.now }
            ensures { result ≡ R.read_of s.entry.now (at + R.WIDTH * k) }
        { R::read(s, at + R::WIDTH * k) },
    )
}

// A word is the least record.
impl Record for u16 {
    ghost WIDTH = { 2 };

    ghost read_of = { u16_at };

    const WIDTH: usize = 2;

    fn read(s: &[u8], at: usize) -> u16 {
        word(s, at)
    }

    ghost wide = { Prim.search rules };
}

// An operand, 4 bytes. Its tag is that of a `Tag`, or no tag at all in an image that is refused.
#[derive(Clone, Copy, PartialEq, Eq)]
pub struct Operand {
    pub tag: u16,
    pub value: u16,
}

impl Operand {
    // Whether an operand has this tag.
    pub fn has(self, tag: Tag) -> bool
        ensures { result ≡ eqb self.tag (tag_code tag) }
    {
        self.tag == u16::from(tag)
    }
}

impl Record for Operand {
    ghost WIDTH = { 4 };

    ghost read_of = { read_operand };

    const WIDTH: usize = 4;

    #[tactic(auto, unfolding(crate::specs::Records::read_operand))]
    fn read(s: &[u8], at: usize) -> Operand {
        Operand {
            tag: word(s, at),
            value: word(s, at + 2),
        }
    }

    ghost wide = { Prim.search rules };
}

// A site, 32 bytes.
#[derive(Clone, Copy)]
pub struct Site {
    pub name: u16,
    pub s: u16,
    pub c: u16,
    pub o: u16,
    pub hs: u16,
    pub ho: u16,
    pub position: u16,
    pub lost: u16,
    pub vars: [u16; 8],
}

impl Record for Site {
    ghost WIDTH = { site_width };

    ghost read_of = { read_site };

    const WIDTH: usize = 32;

    #[tactic(auto, unfolding(crate::specs::Records::read_site, crate::specs::Records::eight_words))]
    fn read(s: &[u8], at: usize) -> Site {
        Site {
            name: word(s, at),
            s: word(s, at + 2),
            c: word(s, at + 4),
            o: word(s, at + 6),
            hs: word(s, at + 8),
            ho: word(s, at + 10),
            position: word(s, at + 12),
            lost: word(s, at + 14),
            vars: several(s, at + 16),
        }
    }

    ghost wide = { Prim.search rules };
}

impl Site {
    // The 32 bytes of a site's record. The eight variables are written out: no method puts an array together from two.
    pub fn bytes(self) -> [u8; 32]
        ensures { result ≡ site_bytes self }
    {
        let v = self.vars;
        let words = [
            self.name,
            self.s,
            self.c,
            self.o,
            self.hs,
            self.ho,
            self.position,
            self.lost,
            v[0],
            v[1],
            v[2],
            v[3],
            v[4],
            v[5],
            v[6],
            v[7],
        ];
        array::from_fn(|i| words[i / 2].to_le_bytes()[i % 2])
    }
}

// A node of the rules of the house, 24 bytes. Its kind is that of a `Condition` or of an `Advice`.
#[derive(Clone, Copy)]
pub struct Node {
    pub kind: u8,
    pub count: u8,
    pub a: u16,
    pub b: u16,
    pub zero: u16,
    pub fields: [Operand; 4],
}

impl Record for Node {
    ghost WIDTH = { node_width };

    ghost read_of = { read_node };

    const WIDTH: usize = 24;

    #[tactic(auto, unfolding(crate::specs::Records::read_node, crate::specs::Records::four_operands))]
    fn read(s: &[u8], at: usize) -> Node {
        Node {
            kind: s[at],
            count: s[at + 1],
            a: word(s, at + 2),
            b: word(s, at + 4),
            zero: word(s, at + 6),
            fields: several(s, at + 8),
        }
    }

    ghost wide = { Prim.search rules };
}

// An aspect of the rules of the house, 32 bytes. Its capability is that of a `Capability`.
#[derive(Clone, Copy)]
pub struct Aspect {
    pub owner: u8,
    pub capability: u8,
    pub count: u8,
    pub zero: u8,
    pub source: Operand,
    pub target: Operand,
    pub fields: [Operand; 4],
    pub condition: u16,
    pub recommendation: u16,
}

impl Record for Aspect {
    ghost WIDTH = { aspect_width };

    ghost read_of = { read_aspect };

    const WIDTH: usize = 32;

    #[tactic(auto, unfolding(crate::specs::Records::read_aspect, crate::specs::Records::four_operands))]
    fn read(s: &[u8], at: usize) -> Aspect {
        Aspect {
            owner: s[at],
            capability: s[at + 1],
            count: s[at + 2],
            zero: s[at + 3],
            source: Operand::read(s, at + 4),
            target: Operand::read(s, at + 8),
            fields: several(s, at + 12),
            condition: word(s, at + 28),
            recommendation: word(s, at + 30),
        }
    }

    ghost wide = { Prim.search rules };
}

// An action of a site's program, 24 bytes. Its capability is that of a `Capability`.
#[derive(Clone, Copy)]
pub struct Action {
    pub owner: u8,
    pub zero: u8,
    pub capability: u8,
    pub count: u8,
    pub target: Operand,
    pub fields: [Operand; 4],
}

impl Record for Action {
    ghost WIDTH = { action_width };

    ghost read_of = { read_action };

    const WIDTH: usize = 24;

    #[tactic(auto, unfolding(crate::specs::Records::read_action, crate::specs::Records::four_operands))]
    fn read(s: &[u8], at: usize) -> Action {
        Action {
            owner: s[at],
            zero: s[at + 1],
            capability: s[at + 2],
            count: s[at + 3],
            target: Operand::read(s, at + 4),
            fields: several(s, at + 8),
        }
    }

    ghost wide = { Prim.search rules };
}

impl Action {
    // Whether an action is of this capability.
    pub fn does(self, capability: Capability) -> bool
        ensures { result ≡ eqb self.capability (capability_code capability) }
    {
        self.capability == u8::from(capability)
    }
}

// A row of a site's store, 10 bytes.
#[derive(Clone, Copy)]
pub struct Row {
    pub owner: u8,
    pub count: u8,
    pub fields: [u16; 4],
}

impl Record for Row {
    ghost WIDTH = { row_width };

    ghost read_of = { read_row };

    const WIDTH: usize = 10;

    #[tactic(auto, unfolding(crate::specs::Records::read_row, crate::specs::Records::four_words))]
    fn read(s: &[u8], at: usize) -> Row {
        Row {
            owner: s[at],
            count: s[at + 1],
            fields: several(s, at + 2),
        }
    }

    ghost wide = { Prim.search rules };
}

impl Row {
    // The 10 bytes of a row's record.
    #[tactic(auto, unfolding(crate::specs::Records::row_bytes, crate::specs::Records::word_bytes4))]
    pub fn bytes(self) -> [u8; 10]
        ensures { result ≡ row_bytes self }
    {
        let [a, b, c, d] = self.fields.map(u16::to_le_bytes);
        [
            self.owner, self.count, a[0], a[1], b[0], b[1], c[0], c[1], d[0], d[1],
        ]
    }
}

// The number of the site that has a name, where the names rise: found by halving. A loop of its own, since each search of the library goes through
// all the halves though it has met the name, and every test node of a rule asks for its place.
pub fn place_of(sites: &[u8], wanted: u16) -> Option<usize>
    requires { Rising (names (sites_in sites.now)) }
    ensures { result ≡ place_of (names (sites_in sites.now)) wanted }
{
    let mut base = 0;
    let mut size = count::<Site>(sites);
    if size == 0 {
        return None;
    }
    while size > 1 {
        let half = size / 2;
        let middle = base + half;
        let name = word(sites, Site::WIDTH * middle);
        if name <= wanted {
            if name == wanted {
                return Some(middle);
            }
            base = middle;
        }
        size -= half;
    }
    if word(sites, Site::WIDTH * base) == wanted {
        Some(base)
    } else {
        None
    }
}
