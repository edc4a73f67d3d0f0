// Acting: what a granted step changes. Records are read and changed by value, and written whole.
ghost use Rattle.std.specs.Prelude.{◌≡◌, true, cond, map, suc, ◌+◌, ◌-◌, ◌*◌, ◌≤◌, ◌<◌, T, length};
ghost use Rattle.words.specs.Bytes.{splice, inserted, removed, u16_bytes};
ghost use Rattle.words.specs.Lists.{all};
ghost use Rattle.level.specs.Level.{join};
ghost use Rattle.net.specs.Records.{site_fits, site_bytes, row_bytes};
ghost use Rattle.net.specs.Image.{count_in, offset_in, state_in};
ghost use Rattle.stepping.specs.Step.{advance, marked, loses, informed, row_put, has_room, put_after, got_after};
ghost use Rattle.monitor.specs.Memory.{rules_held, state_held, memory_with};
ghost use Rattle.monitor.specs.Plan.{informed_by, Sited, Ready, Reads};

use crate::accepted::Accepted;
use format::{Header, Kind};
use level::Level;
use net::{Capability, Operand, Record, Row, Site};
use policy::Act;

// Where the sites begin in memory.
const HEADER: usize = 44;

// Where memory says how many rows there are.
const ROW_COUNT: usize = 38;

// The join of three levels.
fn join3(x: u16, y: u16, z: u16) -> u16
    ensures { result ≡ join (join x y) z }
{
    Level::from(x).join(y.into()).join(z.into()).code
}

// The site one action further, with these variables.
fn advance(x: Site, vars: [u16; 8]) -> Site
    requires { suc x.position < 65536 }
    ensures { result ≡ advance vars x }
{
    Site {
        position: x.position + 1,
        vars,
        ..x
    }
}

// The store with its history joined with what a writer brings.
fn marked(x: Site, c: u16, hs: u16) -> Site
    ensures { result ≡ marked c hs x }
{
    Site {
        ho: join3(x.ho, c, hs),
        ..x
    }
}

// The store with one row more lost.
fn loses(x: Site) -> Site
    ensures { result ≡ loses x }
{
    Site {
        lost: x.lost.saturating_add(1),
        ..x
    }
}

// The process with its history joined with what a reader meets. `marked` sets HO and this HS: a field's name is no parameter.
fn informed(x: Site, o: u16, ho: u16) -> Site
    ensures { result ≡ informed o ho x }
{
    Site {
        hs: join3(x.hs, o, ho),
        ..x
    }
}

// Writes the record of site i. A site's number and its record stay two: where memory has it, and what it is to be.
fn write_site(memory: &mut [u8], i: usize, x: Site)
    requires { 44 + 32 * i + 32 ≤ length memory.old }
    ensures { memory.new ≡ splice memory.old (44 + 32 * i) (site_bytes x) }
{
    words::put(memory, HEADER + Site::WIDTH * i, &x.bytes());
}

// Where the rows begin in memory, and how many they are.
#[derive(Clone, Copy)]
pub struct Rows {
    pub base: usize,
    pub count: usize,
}

impl Rows {
    // Those that a header says. No `From`: it picks two of a header's numbers out and turns nothing into another form.
    fn of(header: Header<'_>) -> Rows
        ensures { (result.base ≡ offset_in header.entry.bytes.now 5) × (result.count ≡ count_in header.entry.bytes.now 5) }
    {
        Rows {
            base: header.offset(Kind::Rows),
            count: header.records(Kind::Rows),
        }
    }

    // Puts a row in as number k of all rows, and counts it.
    fn add(self, memory: &mut [u8], k: usize, row: Row)
        requires { (k ≤ self.count) × (self.count < 65535) × (44 ≤ self.base) × (self.base + 10 * self.count + 10 ≤ length memory.old) }
        ensures { memory.new ≡ splice (inserted (row_bytes row) (self.base + 10 * k) (self.base + 10 * self.count) memory.old) 38 (u16_bytes (self.count + 1)) }
    {
        let Rows { base, count } = self;
        words::insert(
            memory,
            base + Row::WIDTH * k,
            base + Row::WIDTH * count,
            &row.bytes(),
        );
        // `as`, since below 65536 by the `requires` a test could not fail.
        words::put(memory, ROW_COUNT, &words::word_bytes((count + 1) as u16));
    }

    // Takes row number k of all rows out, and counts it.
    fn remove(self, memory: &mut [u8], k: usize)
        requires { (k < self.count) × (self.count < 65536) × (44 ≤ self.base) × (self.base + 10 * self.count ≤ length memory.old) }
        ensures { memory.new ≡ splice (removed 10 (self.base + 10 * k) (self.base + 10 * self.count) memory.old) 38 (u16_bytes (self.count - 1)) }
    {
        let Rows { base, count } = self;
        words::remove(
            memory,
            base + Row::WIDTH * k,
            base + Row::WIDTH * count,
            Row::WIDTH,
        );
        // `as`, since below 65536 by the `requires` a test could not fail.
        words::put(memory, ROW_COUNT, &words::word_bytes((count - 1) as u16));
    }
}

// The values of four fields.
fn values(fields: [Operand; 4]) -> [u16; 4]
    ensures { result ≡ map (λ x. x.value) fields }
{
    fields.map(|field| field.value)
}

// The row that a put adds.
fn row_put(act: &Act) -> Row
    requires { act.now.target < 256 }
    ensures { result ≡ row_put act.now }
{
    Row {
        // `as`, since below 256 by the `requires` a test could not fail.
        owner: act.target as u8,
        count: act.action.count,
        fields: values(act.action.fields),
    }
}

// The source after it took or read row k at the target.
pub(crate) fn read_get(image: Accepted<'_>, act: &Act, k: usize) -> Site
    requires { Sited image.bytes.now act.now.source act.now.target × (k < length (state_in image.bytes.now).rows) }
    ensures { result ≡ informed_by (state_in image.entry.bytes.now) act.now k }
{
    let x = image.site(act.source);
    let y = image.site(act.target);
    let vars = policy::bound(act.action, image.row(k), x.vars);
    informed(advance(x, vars), y.o, y.ho)
}

// The target of a put: with room its history is joined with what the writer brings, else it has lost a row. `room` says
// what becomes of the store: c and hs are there either way, so this is no `Option`.
fn changed(y: Site, room: bool, c: u16, hs: u16) -> Site
    ensures { result ≡ cond room (marked c hs y) (loses y) }
{
    if room { marked(y, c, hs) } else { loses(y) }
}

// What a put will write: the source one action further, then the target, then, if there is room, its row at a place among all rows.
#[derive(Clone, Copy)]
pub struct Writes {
    pub source: Site,
    pub target: Site,
    pub place: Option<usize>,
}

// The same, read from an image.
pub(crate) fn read_put(image: Accepted<'_>, act: &Act) -> Writes
    requires { Sited image.bytes.now act.now.source act.now.target }
    ensures { Reads (state_in image.entry.bytes.now) act.now.source act.now.target result }
{
    let x = image.site(act.source);
    let source = advance(x, x.vars);
    let place = image.room(act.target);
    let y = image.site_after(act.source, source, act.target);
    Writes {
        source,
        target: changed(y, place.is_some(), x.c, x.hs),
        place,
    }
}

// Writes the records of two sites, one after the other.
fn write_sites(memory: &mut [u8], i: usize, x: Site, t: usize, y: Site)
    requires { (44 + 32 * i + 32 ≤ length memory.old) × (44 + 32 * t + 32 ≤ length memory.old) }
    ensures { memory.new ≡ splice (splice memory.old (44 + 32 * i) (site_bytes x)) (44 + 32 * t) (site_bytes y) }
{
    write_site(memory, i, x);
    write_site(memory, t, y);
}

// Writes what a put was found to write.
pub(crate) fn put(memory: &mut [u8], act: &Act, writes: &Writes)
    requires { Ready memory.old act.now.source act.now.target × Reads (state_held memory.old) act.now.source act.now.target writes.now
        × T (all site_fits (put_after (state_held memory.old) act.now (has_room (state_held memory.old) act.now)).sites) }
    ensures { memory.new ≡ memory_with (rules_held memory.old) (put_after (state_held memory.old) act.now (has_room (state_held memory.old) act.now)) }
{
    let rows = Rows::of(Header { bytes: memory });
    write_sites(memory, act.source, writes.source, act.target, writes.target);
    if let Some(k) = writes.place {
        rows.add(memory, k, row_put(act));
    }
}

// Writes the source of a take or read of row k as it was found to be after it, and takes the row out.
pub(crate) fn get(memory: &mut [u8], act: &Act, k: usize, source: Site)
    requires { Ready memory.old act.now.source act.now.target × (k < length (state_held memory.old).rows) × (source ≡ informed_by (state_held memory.old) act.now k)
        × T (all site_fits (got_after (state_held memory.old) act.now k).sites) }
    ensures { memory.new ≡ memory_with (rules_held memory.old) (got_after (state_held memory.old) act.now k) }
{
    let rows = Rows::of(Header { bytes: memory });
    write_site(memory, act.source, source);
    if act.action.does(Capability::Take) {
        rows.remove(memory, k);
    }
}
