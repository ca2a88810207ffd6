#![tactic(auto)]

// A reader over the lent sheet: it hands out the commands one after another.
ghost use Rattle.std.specs.Prelude.{◌≡◌, []};
ghost use Rattle.commands.specs.View.{view_decoded};
ghost use Rattle.reader.specs.Handed.{HandsOut, after, moved};

use commands::{Command, Fault};

// Document 01's form, a slice and an offset. No `Iterator`: it never ends by itself, but hands out the same fault again for ever.
#[derive(Clone, Copy)]
pub struct Reader<'a> {
    pub sheet: &'a [u8],
    pub at: usize,
}

// The place after what was found at a place: a fault moves nothing. A match, for each arm has a must-fail edit.
pub fn place_after(at: usize, d: Result<(Command, usize), Fault>) -> usize
    ensures { result ≡ after at (view_decoded [] d) }
{
    match d {
        Ok((_, next)) => next,
        Err(_) => at,
    }
}

impl<'a> Reader<'a> {
    // A reader at the sheet's start.
    pub fn over(sheet: &'a [u8]) -> Reader<'a>
        ensures { (result.sheet ≡ sheet.entry) × (result.at ≡ 0) }
    {
        Reader { sheet, at: 0 }
    }

    // Hands out the command at the offset, and moves past it.
    pub fn next(&mut self) -> Result<(Command, usize), Fault>
        ensures { HandsOut self.old.sheet.now self.old.at result × (self.new ≡ moved self.old) }
    {
        let at = self.at;
        let d = commands::decode(self.sheet, at);
        self.at = place_after(at, d);
        d
    }
}
