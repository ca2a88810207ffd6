// An accepted sheet, and how many words, blocks and tasks it declares.
ghost use Rattle.std.specs.Prelude.{◌≡◌, length};
ghost use Rattle.model.specs.Sheet.{sheet_of};
ghost use Rattle.sheet.specs.Indexed.{Indexed};

use sheet::checked::Accepted;
use sheet::index::Sheet;

#[derive(Clone, Copy)]
pub struct Counts<'a> {
    pub sheet: Accepted<'a>,
    pub words: usize,
    pub blocks: usize,
    pub tasks: usize,
    pub ghost all_words: { words ≡ length (sheet_of sheet.bytes.now).words },
    pub ghost all_blocks: { blocks ≡ length (sheet_of sheet.bytes.now).blocks },
    pub ghost all_tasks: { tasks ≡ length (sheet_of sheet.bytes.now).bodies },
}

impl<'a> Counts<'a> {
    pub fn of(sheet: Accepted<'a>, index: &Sheet) -> Counts<'a>
        requires { Indexed sheet.bytes.now index.now }
        ensures sheet { result.sheet ≡ sheet.entry }
        ensures words { result.words ≡ index.now.words }
        ensures blocks { result.blocks ≡ index.now.blocks }
        ensures tasks { result.tasks ≡ index.now.tasks }
    {
        Counts {
            sheet,
            words: index.words.into(),
            blocks: index.blocks.into(),
            tasks: index.tasks.into(),
        }
    }
}
