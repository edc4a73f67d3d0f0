// Lines of text put into lent bytes, one piece after the other. Each method asks for room, goes on after what it put, and leaves every other
// byte as it was.
#![tactic(auto)]

ghost use Rattle.std.specs.Prelude.{◌+◌, ◌*◌, ◌≤◌, length, [], ◌∷◌};
ghost use Rattle.lines.specs.Lines.{decimal, spaced, line};
ghost use Rattle.lines.specs.Pages.{Adds};

// Lent bytes, filled up to byte `at`: `farmstep` fills what it is lent and cannot fail, as a `String` can and `fmt::Write` does. Each method asks for the
// room of its own text, so no one fact of the page would do for all.
#[derive(Drop)]
pub struct Page<'a> {
    pub bytes: &'a mut [u8],
    pub at: usize,
}

impl Page<'_> {
    // Puts bytes as they are.
    pub fn text(&mut self, b: &[u8])
        requires { self.old.at + length b.now ≤ length self.old.bytes.now }
        ensures { Adds b.now self.old self.new }
    {
        words::put(self.bytes, self.at, b);
        self.at += b.len();
    }

    // Puts a number in decimal.
    pub fn number(&mut self, n: u64)
        requires { self.old.at + 20 ≤ length self.old.bytes.now }
        ensures { Adds (decimal n) self.old self.new }
    {
        let mut digits = [0u8; 20];
        let k = io::decimal(n, &mut digits);
        self.text(&digits[..k]);
    }

    // Puts a space and a number.
    fn gap(&mut self, n: u64)
        requires { self.old.at + 21 ≤ length self.old.bytes.now }
        ensures { Adds (spaced (n ∷ [])) self.old self.new }
    {
        self.text(b" ");
        self.number(n);
    }

    // Puts a space before each of some numbers.
    pub fn spaced(&mut self, numbers: &[u64])
        requires { self.old.at + 21 * length numbers.now ≤ length self.old.bytes.now }
        ensures { Adds (spaced numbers.now) self.old self.new }
    {
        for n in numbers {
            self.gap(*n);
        }
    }

    // Puts a word, the numbers after it, and the line's end.
    pub fn line(&mut self, word: &[u8], numbers: &[u64])
        requires { self.old.at + length word.now + 21 * length numbers.now + 1 ≤ length self.old.bytes.now }
        ensures { Adds (line word.now numbers.now) self.old self.new }
    {
        self.text(word);
        self.spaced(numbers);
        self.text(b"\n");
    }
}
