// Lines of text, written one after another.
ghost use Rattle.std.specs.Prelude.{◌≡◌, [], ◌∷◌, ◌++◌, ◌+◌, ◌*◌, ◌≤◌, ◌<◌, length, drop};
ghost use Rattle.model.specs.Report.{decimal, line};
ghost use Rattle.report.specs.Writing.{Room, Wrote};

// A buffer, and the place where the next byte goes. Past the buffer's end nothing is written.
#[derive(Drop)]
pub struct Writer<'a> {
    buffer: &'a mut [u8],
    place: usize,
}

impl<'a> Writer<'a> {
    pub fn new(buffer: &'a mut [u8]) -> Writer<'a>
        ensures same_reference { result.buffer.ghost_name ≡ buffer.entry.ghost_name }
        ensures bytes { result.buffer.now ≡ buffer.old }
        ensures place { result.place ≡ 0 }
    {
        Writer { buffer, place: 0 }
    }

    pub fn place(&self) -> usize
        ensures { result ≡ self.now.place }
    {
        self.place
    }

    fn put(&mut self, byte: u8)
        requires { Room self.old 1 }
        ensures { Wrote 1 (byte ∷ []) self.old self.new }
    {
        let place = self.place;
        // `get_mut` of a slice does not promise what a write through it leaves.
        if place < self.buffer.len() {
            self.buffer[place] = byte;
        }
        self.place += 1;
    }

    fn copy(&mut self, text: &[u8])
        requires { Room self.old (length text.now) }
        ensures { Wrote (length text.now) text.now self.old self.new }
    {
        for byte in text {
            self.put(*byte);
        }
    }

    fn decimal(&mut self, value: u32)
        requires { Room self.old 10 }
        ensures { Wrote 10 (decimal value) self.old self.new }
    {
        let mut text = [0u8; 10];
        let first = digits(&mut text, value);
        self.copy(&text[first..]);
    }

    // A letter, a space before each number, and the line's end.
    pub fn line(&mut self, letter: u8, first: &[u32], others: &[u32])
        requires { Room self.old (11 * (length first.now + length others.now) + 2) }
        ensures { Wrote (11 * (length first.now + length others.now) + 2) (line letter (first.now ++ others.now)) self.old self.new }
    {
        self.put(letter);
        for value in first.iter().chain(others).copied() {
            self.put(b' ');
            self.decimal(value);
        }
        self.put(b'\n');
    }
}

// The decimal digits, at the end of the text, and where they begin there.
fn digits(text: &mut [u8], value: u32) -> usize
    requires { length text.old ≡ 10 }
    ensures { (result < 10) × (drop result text.new ≡ decimal value) }
{
    // The loop counts by what is left of the value, not by an index.
    let mut rest = value;
    let mut first: usize = 9;
    while rest >= 10 {
        text[first] = b'0' + ((rest % 10) as u8);
        rest /= 10;
        first -= 1;
    }
    text[first] = b'0' + (rest as u8);
    first
}
