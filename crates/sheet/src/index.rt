// What the run needs of an accepted sheet beside its bytes: how many words, blocks, tasks and releases it declares, and the places
// where its bodies and its releases start. The index takes 80 bytes; no byte of the sheet is copied.
ghost use Rattle.std.specs.Prelude.{◌≡◌, ◌<◌, [], length, get_or, eqb};
ghost use Rattle.model.specs.Sheet.{sheet_of};
ghost use Rattle.commands.specs.View.{view_command};
ghost use Rattle.model.specs.Command.{no_block};
ghost use Rattle.sheet.specs.Indexed.{Indexed, Room, counted, place_or, empty_index, IsBlock};

use crate::checked::Accepted;
use commands::Command;
use commands::ceilings::SheetCeilings;

// Fixed memory: of the eight places of bodies the first `tasks` are set.
#[derive(Clone, Copy)]
pub struct Sheet {
    pub words: u8,
    pub blocks: u8,
    pub tasks: u8,
    pub releases: u16,
    pub bodies: [usize; SheetCeilings::TASKS as usize],
    pub released: usize,
}

// The bytes of a WORD and of a BLOCK.
const WORD_BYTES: usize = 5;

const BLOCK_BYTES: usize = 37;

impl Sheet {
    pub fn empty() -> Sheet
        ensures { result ≡ empty_index }
    {
        Sheet {
            words: 0,
            blocks: 0,
            tasks: 0,
            releases: 0,
            bodies: [0; SheetCeilings::TASKS as usize],
            released: 0,
        }
    }

    // One more command, which stands at a place, the next one after it.
    #[tactic(auto, unfolding(crate::specs::Indexed::counted))]
    fn count(&mut self, c: Command, at: usize, next: usize)
        requires { Room self.old (view_command [] c) }
        ensures { self.new ≡ counted self.old (view_command [] c) at next }
    {
        match c {
            Command::Word(_) => self.words += 1,
            Command::Block(_) => self.blocks += 1,
            Command::Task => {
                self.bodies[self.tasks as usize] = next;
                self.tasks += 1;
            }
            Command::Release(_) => {
                self.released = self.first_place(at);
                self.releases += 1;
            }
            Command::End => self.released = self.first_place(at),
            Command::Body(_) => {}
        }
    }

    // The place of the first release: this one, if there was none before.
    fn first_place(&self, at: usize) -> usize
        ensures { result ≡ place_or (eqb self.now.releases 0) at self.now.released }
    {
        if self.releases == 0 {
            at
        } else {
            self.released
        }
    }
}

impl Accepted<'_> {
    // The index, in one pass.
    pub fn index(self) -> Sheet
        ensures { Indexed self.entry.bytes.now result }
    {
        let sheet = self.bytes();
        let mut x = Sheet::empty();
        let mut at = 0;
        // No `for`: a command says where the next one stands. `let .. else` is document 01's form.
        loop {
            let Ok((c, next)) = commands::decode(sheet, at) else {
                return x;
            };
            x.count(c, at, next);
            at = next;
        }
    }

    // The start value of a word.
    pub fn word(self, i: usize) -> u32
        requires { i < length (sheet_of self.bytes.now).words }
        ensures { result ≡ get_or (sheet_of self.entry.bytes.now).words i 0 }
    {
        commands::value::<4>(self.bytes(), WORD_BYTES * i + 1)
    }

    // The version of a block, and its eight values; `words` is the number of words before the blocks, which alone these need of the index.
    pub fn version(self, words: usize, i: usize) -> u32
        requires { IsBlock self.bytes.now words i }
        ensures { result ≡ (get_or (sheet_of self.entry.bytes.now).blocks i no_block).version }
    {
        commands::value::<4>(self.bytes(), WORD_BYTES * words + BLOCK_BYTES * i + 1)
    }

    pub fn block_values(self, words: usize, i: usize) -> [u32; SheetCeilings::BLOCK_VALUES]
        requires { IsBlock self.bytes.now words i }
        ensures { result ≡ (get_or (sheet_of self.entry.bytes.now).blocks i no_block).values }
    {
        commands::values(self.bytes(), WORD_BYTES * words + BLOCK_BYTES * i + 1)
    }
}
