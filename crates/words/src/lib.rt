// Numbers in lent bytes, little-endian; stretches of bytes copied, cleared, moved, put in and taken out; and the search in a table
// whose records stand in the order of their first byte. Readers ask for their place and test nothing, and a slice and
// a place stay two parameters, as in a slice's own index; what a function leaves of lent
// bytes is one list in its contract.
#![tactic(auto)]

ghost use Rattle.std.specs.Prelude.{◌≡◌, ℕ, ◌+◌, ◌-◌, ◌*◌, ◌/◌, ◌^◌, ◌≤◌, ◌<◌, length, get_or, drop};
ghost use Rattle.words.specs.Bytes.{u16_at, u32_at, u16_bytes, blank, all_zero, padded, splice, inserted, removed};
ghost use Rattle.words.specs.Tables.{count_below, starts_of, starts_moved, Movable};

// The u16 at byte `at`.
#[tactic(auto, unfolding(crate::specs::Bytes::u16_at))]
pub fn word(s: &[u8], at: usize) -> u16
    requires { at + 1 < length s.now }
    ensures { result ≡ u16_at s.now at }
{
    u16::from_le_bytes([s[at], s[at + 1]])
}

// The same as a size: one calls the other, and a generic in the number would be no plainer.
pub fn size_at(s: &[u8], at: usize) -> usize
    requires { at + 1 < length s.now }
    ensures { (result ≡ u16_at s.now at) × (result < 65536) }
{
    usize::from(word(s, at))
}

// The u32 at byte `at`, as a size. Two sizes, as in `u32_at`: what `u32::from_le_bytes` gives becomes a size only by `as`.
#[tactic(auto, unfolding(crate::specs::Bytes::u32_at))]
pub fn long_at(s: &[u8], at: usize) -> usize
    requires { at + 3 < length s.now }
    ensures { (result ≡ u32_at s.now at) × (result < 2 ^ 32) }
{
    size_at(s, at) + 65536 * size_at(s, at + 2)
}

// The two bytes of a u16.
pub fn word_bytes(x: u16) -> [u8; 2]
    ensures { result ≡ u16_bytes x }
{
    x.to_le_bytes()
}

// The bytes b from byte `at` on, in the place of what was there.
#[tactic(auto, using(crate::proofs::Shifts::placed))]
pub fn put(mem: &mut [u8], at: usize, b: &[u8])
    requires { at + length b.now ≤ length mem.old }
    ensures { mem.new ≡ splice mem.old at b.now }
{
    mem[at..at + b.len()].copy_from_slice(b);
}

// Zeros from byte `from` up to byte `to`.
#[tactic(auto, using(crate::proofs::Shifts::placed))]
pub fn clear(mem: &mut [u8], from: usize, to: usize)
    requires { (from ≤ to) × (to ≤ length mem.old) }
    ensures { mem.new ≡ splice mem.old from (blank (to - from)) }
{
    mem[from..to].fill(0);
}

// Whether every byte is 0. There is no early exit, so that the loop takes many bytes at a time; it reads the two halves side by side, which
// costs fewer instructions a byte than a `fold` over one stream, and by number, since the halves may differ by a byte.
pub fn zeros(s: &[u8]) -> bool
    ensures { result ≡ all_zero s.now }
{
    let half = s.len() / 2;
    let mut seen = 0;
    for j in 0..half {
        seen |= s[j] | s[half + j];
    }
    if 2 * half < s.len() {
        seen |= s[2 * half];
    }
    seen == 0
}

// Whether every byte from byte `at` on is 0. The long part begins at a multiple of 64, so that none of its loads lies across two lines of
// the processor's cache where the slice begins at one.
#[tactic(auto, using(crate::proofs::Shifts::parted))]
pub fn zeros_from(s: &[u8], at: usize) -> bool
    requires { (at ≤ length s.now) × (at < 2 ^ 63) }
    ensures { result ≡ all_zero (drop at s.now) }
{
    let line = at.next_multiple_of(64);
    if s.len() < line {
        return zeros(&s[at..]);
    }
    zeros(&s[at..line]) & zeros(&s[line..])
}

// The bytes b, then zeros to the end.
#[tactic(auto, using(crate::proofs::Shifts::pads))]
pub fn fill(mem: &mut [u8], b: &[u8])
    requires { length b.now ≤ length mem.old }
    ensures { mem.new ≡ padded (length mem.old) b.now }
{
    put(mem, 0, b);
    let n = mem.len();
    clear(mem, b.len(), n);
}

// Puts b in at byte `at`, and the bytes at..end after it.
#[tactic(auto, using(crate::proofs::Shifts::insertion))]
pub fn insert(mem: &mut [u8], at: usize, end: usize, b: &[u8])
    requires { (at ≤ end) × (end + length b.now ≤ length mem.old) }
    ensures { mem.new ≡ inserted b.now at end mem.old }
{
    mem.copy_within(at..end, at + b.len());
    put(mem, at, b);
}

// Takes the w bytes from byte `at` on out: those up to `end` move down, and zeros come after them.
#[tactic(auto, using(crate::proofs::Shifts::removal))]
pub fn remove(mem: &mut [u8], at: usize, end: usize, w: usize)
    requires { (at + w ≤ end) × (end ≤ length mem.old) }
    ensures { mem.new ≡ removed w at end mem.old }
{
    mem.copy_within(at + w..end, at);
    clear(mem, end - w, end);
}

// How many of the first n records of width w begin with a byte below `bound`, where these bytes never fall: found by halving. The loop is
// written out: `partition_point` takes records whose width is a constant, and this takes any w.
pub fn count_below(s: &[u8], w: usize, n: usize, bound: usize) -> usize
    requires { (w * n ≤ length s.now) × (1 < w) × ((i j : ℕ) → i ≤ j → j < n → get_or s.now (w * i) 0 ≤ get_or s.now (w * j) 0) }
    ensures { (result ≡ count_below s.now w n bound) × (result ≤ n) }
{
    let mut low = 0;
    let mut high = n;
    while low < high {
        let middle = (low + high) / 2;
        if usize::from(s[w * middle]) < bound {
            low = middle + 1;
        } else {
            high = middle;
        }
    }
    low
}

// Where the records of each owner from 0 to 32 start, found in one walk over the records and the owners.
pub fn starts(s: &[u8], w: usize) -> [u16; 33]
    requires { (0 < w) × (length s.now / w < 65536) }
    ensures { result ≡ starts_of w s.now }
{
    let n = s.len() / w;
    let mut starts = [0; 33];
    let mut k = 0;
    for (t, start) in starts.iter_mut().enumerate() {
        k = (k..n).find(|&j| t <= usize::from(s[w * j])).unwrap_or(n);
        // `as`, since by the `requires` there are fewer than 65536
        *start = k as u16;
    }
    starts
}

// The starts once the records of this owner are one more, or one fewer: those after it move.
pub fn move_starts<const UP: bool>(starts: &mut [u16; 33], owner: usize)
    requires { Movable UP owner starts.old }
    ensures { starts.new ≡ starts_moved UP owner starts.old }
{
    for start in starts[owner.min(32) + 1..].iter_mut() {
        *start = if UP { *start + 1 } else { *start - 1 };
    }
}
