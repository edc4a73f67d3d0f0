// What is left of a script, from whose front the operations and their arguments are read. Sizes are made by `as`, since there is no `From` to usize
// from u32 and u64. That the rest gets no longer is said of each call: it is about a change, which no ghost field can tell.
ghost use Rattle.std.specs.Prelude.{◌≤◌, ◌<◌, length, OnOk, IfOk};

use std::io;

// Why a script ends before its end.
#[derive(Drop)]
pub enum Stop {
    // It ends inside an operation, or asks for what there is not.
    Script,
    // A line could not be printed.
    Print(io::Error),
}

impl From<io::Error> for Stop {
    fn from(error: io::Error) -> Stop {
        Stop::Print(error)
    }
}

#[derive(Clone, Copy)]
pub struct Script<'a> {
    pub rest: &'a [u8],
}

impl<'a> Script<'a> {
    // The next n bytes.
    pub fn bytes(&mut self, n: usize) -> Result<&'a [u8], Stop>
        ensures { length self.new.rest.now ≤ length self.old.rest.now }
    {
        let (bytes, rest) = self.rest.split_at_checked(n).ok_or(Stop::Script)?;
        self.rest = rest;
        Ok(bytes)
    }

    // The next N bytes.
    fn array<const N: usize>(&mut self) -> Result<[u8; N], Stop>
        ensures shorter { length self.new.rest.now ≤ length self.old.rest.now }
        ensures taken { 0 < N → OnOk result (length self.new.rest.now < length self.old.rest.now) }
    {
        let (bytes, rest) = self.rest.split_first_chunk::<N>().ok_or(Stop::Script)?;
        self.rest = rest;
        Ok(*bytes)
    }

    // The next u8.
    pub fn byte(&mut self) -> Result<u8, Stop>
        ensures shorter { length self.new.rest.now ≤ length self.old.rest.now }
        ensures taken { OnOk result (length self.new.rest.now < length self.old.rest.now) }
    {
        let [byte] = self.array::<1>()?;
        Ok(byte)
    }

    // The next u16. One method a number: `from_le_bytes` belongs to no trait that a generic one could ask for.
    pub fn word(&mut self) -> Result<u16, Stop>
        ensures { length self.new.rest.now ≤ length self.old.rest.now }
    {
        Ok(u16::from_le_bytes(self.array()?))
    }

    // The next u32.
    pub fn long(&mut self) -> Result<usize, Stop>
        ensures { length self.new.rest.now ≤ length self.old.rest.now }
    {
        Ok(u32::from_le_bytes(self.array()?) as usize)
    }

    // The number of a site: the next u64.
    pub fn site(&mut self) -> Result<usize, Stop>
        ensures { length self.new.rest.now ≤ length self.old.rest.now }
    {
        Ok(u64::from_le_bytes(self.array()?) as usize)
    }

    // The next u32, if it is no more than there is.
    pub fn at_most(&mut self, most: usize) -> Result<usize, Stop>
        ensures shorter { length self.new.rest.now ≤ length self.old.rest.now }
        ensures within { IfOk result (λ n. n ≤ most) }
    {
        let n = self.long()?;
        if n <= most { Ok(n) } else { Err(Stop::Script) }
    }

    // The next u32, and as many bytes.
    pub fn counted(&mut self) -> Result<&'a [u8], Stop>
        ensures { length self.new.rest.now ≤ length self.old.rest.now }
    {
        let n = self.long()?;
        self.bytes(n)
    }
}
