// The header of an image: how many records of each kind it says, where each body lies, and whether its contents are in order.
ghost use Rattle.std.specs.Prelude.{◌≡◌, true, false, ◌+◌, ◌^◌, ◌≤◌, ◌<◌, length, MatchOption};
ghost use Rattle.net.specs.Image.{width_of, most_of, least_of, count_in, offset_in, length_in, start_in, end_in, entry_ok, contents_ok, body_in};
ghost use Rattle.format.specs.Kinds.{kind_number, kind_of};
ghost use Rattle.format.specs.Verdict.{size_ok};

use net::{Action, Aspect, Node, Record, Row, Site, Unknown};
use words::{long_at, size_at};

// The most records of each kind.
const MOST_SITES: usize = 32;

const MOST_NODES: usize = 1024;

const MOST_ASPECTS: usize = 256;

const MOST_ACTIONS: usize = 512;

const MOST_ROWS: usize = 512;

// The bytes before the first body, and the most bytes of an image.
const HEADER: usize = 44;

const MOST_BYTES: usize = HEADER
    + (Site::WIDTH * MOST_SITES
        + (Node::WIDTH * MOST_NODES
            + (Aspect::WIDTH * MOST_ASPECTS
                + (Action::WIDTH * MOST_ACTIONS + Row::WIDTH * MOST_ROWS))));

// Whether an image is as long as one can be: it has a header, and no more than the most records of every kind.
#[tactic(auto, unfolding(crate::specs::Verdict::size_ok))]
pub fn size_ok(s: &[u8]) -> bool
    ensures { result ≡ size_ok s.now }
{
    (HEADER <= s.len()) & (s.len() <= MOST_BYTES)
}

// The kinds of record, in the order of their bodies.
#[derive(Clone, Copy, PartialEq, Eq, Debug)]
pub enum Kind {
    Sites,
    Nodes,
    Aspects,
    Actions,
    Rows,
}

impl From<Kind> for usize {
    ghost from_gives = { λ kind n. n ≡ kind_number kind };

    fn from(kind: Kind) -> usize {
        match kind {
            Kind::Sites => 1,
            Kind::Nodes => 2,
            Kind::Aspects => 3,
            Kind::Actions => 4,
            Kind::Rows => 5,
        }
    }
}

impl TryFrom<u16> for Kind {
    type Error = Unknown;

    ghost try_from_gives = { λ n kind. kind ≡ kind_of n };

    fn try_from(number: u16) -> Result<Kind, Unknown> {
        match number {
            1 => Ok(Kind::Sites),
            2 => Ok(Kind::Nodes),
            3 => Ok(Kind::Aspects),
            4 => Ok(Kind::Actions),
            5 => Ok(Kind::Rows),
            _ => Err(Unknown),
        }
    }
}

impl Kind {
    // The bytes of a record.
    #[tactic(auto, unfolding(net::specs::Image::width_of))]
    fn width(self) -> usize
        ensures { (result ≡ width_of (kind_number self)) × (result ≤ 32) }
    {
        match self {
            Kind::Sites => Site::WIDTH,
            Kind::Nodes => Node::WIDTH,
            Kind::Aspects => Aspect::WIDTH,
            Kind::Actions => Action::WIDTH,
            Kind::Rows => Row::WIDTH,
        }
    }

    // The most records.
    #[tactic(auto, unfolding(net::specs::Image::most_of))]
    fn most(self) -> usize
        ensures { result ≡ most_of (kind_number self) }
    {
        match self {
            Kind::Sites => MOST_SITES,
            Kind::Nodes => MOST_NODES,
            Kind::Aspects => MOST_ASPECTS,
            Kind::Actions => MOST_ACTIONS,
            Kind::Rows => MOST_ROWS,
        }
    }

    // The least records: a net has a site.
    fn least(self) -> usize
        ensures { result ≡ least_of (kind_number self) }
    {
        if self == Kind::Sites { 1 } else { 0 }
    }
}

// Bytes that begin with a header.
#[derive(Clone, Copy)]
pub struct Header<'a> {
    pub bytes: &'a [u8],
    ghost long: { 44 ≤ length bytes.now },
}

impl Header<'_> {
    // How many records of a kind the contents say.
    pub fn records(self, kind: Kind) -> usize
        ensures { (result ≡ count_in self.entry.bytes.now (kind_number kind)) × (result < 65536) }
    {
        size_at(self.bytes, 8 * usize::from(kind) - 2)
    }

    // Where the contents say that the body of a kind starts.
    pub fn offset(self, kind: Kind) -> usize
        ensures { (result ≡ offset_in self.entry.bytes.now (kind_number kind)) × (result < 2 ^ 32) }
    {
        long_at(self.bytes, 8 * usize::from(kind))
    }

    // How long the body of a kind is.
    fn size(self, kind: Kind) -> usize
        ensures { (result ≡ length_in self.entry.bytes.now (kind_number kind)) × (result < 2 ^ 32) }
    {
        kind.width() * self.records(kind)
    }

    // Where the body of a kind ends.
    fn end_of(self, kind: Kind) -> usize
        ensures { (result ≡ start_in self.entry.bytes.now (kind_number kind + 1)) × (result < 2 ^ 33) }
    {
        self.offset(kind) + self.size(kind)
    }

    // Where the body of a kind has to start: the first after the header, each other where the one before it ends.
    fn start(self, kind: Kind) -> usize
        ensures { (result ≡ start_in self.entry.bytes.now (kind_number kind)) × (result < 2 ^ 33) }
    {
        match kind {
            Kind::Sites => HEADER,
            Kind::Nodes => self.end_of(Kind::Sites),
            Kind::Aspects => self.end_of(Kind::Nodes),
            Kind::Actions => self.end_of(Kind::Aspects),
            Kind::Rows => self.end_of(Kind::Actions),
        }
    }

    // Where the last body ends.
    pub fn end(self) -> usize
        ensures { (result ≡ end_in self.entry.bytes.now) × (result < 2 ^ 33) }
    {
        self.end_of(Kind::Rows)
    }

    // Whether the entry of a kind is right.
    #[tactic(auto, unfolding(net::specs::Image::entry_ok))]
    fn entry_ok(self, kind: Kind) -> bool
        ensures { result ≡ entry_ok self.entry.bytes.now (kind_number kind) }
    {
        let n = self.records(kind);
        (size_at(self.bytes, 8 * usize::from(kind) - 4) == usize::from(kind))
            & ((kind.least() <= n) & ((n <= kind.most()) & (self.offset(kind) == self.start(kind))))
    }

    // Whether the contents are in order: five entries that are right, and the image ends with the last body. The five by name, as the definition has them.
    #[tactic(auto, unfolding(net::specs::Image::contents_ok))]
    fn contents_ok(self) -> bool
        ensures { result ≡ contents_ok self.entry.bytes.now }
    {
        (size_at(self.bytes, 2) == 5)
            && (self.entry_ok(Kind::Sites)
                && (self.entry_ok(Kind::Nodes)
                    & (self.entry_ok(Kind::Aspects)
                        & (self.entry_ok(Kind::Actions)
                            & (self.entry_ok(Kind::Rows) & (self.end() == self.bytes.len()))))))
    }
}

// An image whose contents are in order, so that each body is where its entry says.
#[derive(Clone, Copy)]
pub struct Image<'a> {
    pub bytes: &'a [u8],
    ghost in_order: { contents_ok bytes.now ≡ true },
}

impl<'a> Image<'a> {
    // The image of a header whose contents are in order. An `Option` and no `TryFrom`: there is one way to fail, and the caller names its refusal.
    pub fn of(header: Header<'a>) -> Option<Image<'a>>
        ensures { MatchOption result (contents_ok header.entry.bytes.now ≡ false)
            (λ image. (image.bytes ≡ header.entry.bytes) × (contents_ok header.entry.bytes.now ≡ true)) }
    {
        if header.contents_ok() {
            Some(Image {
                bytes: header.bytes,
            })
        } else {
            None
        }
    }

    // The body of a kind: that part of the image itself.
    #[tactic(auto, using(net::proofs::Bodies::least_length, net::proofs::Bodies::within), unfolding(net::specs::Image::body_in))]
    pub fn body(self, kind: Kind) -> &'a [u8]
        ensures result_value { result.now ≡ body_in self.entry.bytes.now (kind_number kind) }
        ensures ref_ptr_value { result.ref_ptr ≡ (self.entry.bytes.ref_ptr.0, offset_in self.entry.bytes.now (kind_number kind) + self.entry.bytes.ref_ptr.1) }
    {
        let header = Header { bytes: self.bytes };
        let start = header.offset(kind);
        let length = header.size(kind);
        &self.bytes[start..start + length]
    }
}
