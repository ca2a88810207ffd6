#![tactic(auto)]

// The two records at the start of a run of an accepted sheet: what all tasks share, and each task's own. The start is that of a sheet
// which declares nothing; then the words and the blocks of the sheet are set one after another.
pub mod counts;

ghost use Rattle.std.specs.Prelude.{◌≡◌, map, ◌+◌, ◌<◌};
ghost use Rattle.model.specs.Word.{fresh_word};
ghost use Rattle.state.specs.Packed.{unpack};
ghost use Rattle.state.specs.State.{shared, own};
ghost use Rattle.start.specs.Start.{SharedStarts, OwnStarts, TasksStart};
ghost use Rattle.start.specs.Declaring.{sheet_in, nothing, declaring, NextBlock, Before, Stored};

use commands::ceilings::SheetCeilings;
use counts::Counts;
use state::{Memory, Task, Word};

// The banks' cells stand after those of the words.
const WORDS: usize = SheetCeilings::WORDS as usize;

const VALUES: usize = SheetCeilings::BLOCK_VALUES;

const TASKS: usize = SheetCeilings::TASKS as usize;

const COPIES: usize = 4;

fn fresh_cell(value: u32) -> u64
    ensures { unpack result ≡ fresh_word value }
{
    Word::fresh(value).pack()
}

// Every cell holds a fresh word, all else is 0.
fn blank() -> Memory
    ensures { SharedStarts nothing (shared result) }
{
    Memory::filled(fresh_cell(0))
}

fn set_words(n: &Counts, memory: &mut Memory)
    requires { SharedStarts (declaring (sheet_in n.now) 0 0) (shared memory.old) }
    ensures { SharedStarts (declaring (sheet_in n.now) n.now.words 0) (shared memory.new) }
{
    for w in 0..n.words {
        memory.set_cell(w, fresh_cell(n.sheet.word(w)));
    }
}

fn set_store(memory: &mut Memory, store: usize, values: [u32; VALUES])
    requires { Before (shared memory.old) store values }
    ensures { Stored (shared memory.old) store values (shared memory.new) }
{
    for (k, value) in values.iter().enumerate() {
        memory.set_value(VALUES * store + k, *value);
    }
}

// The bank word of block b holds its version and its store, and the store its values. With N tasks the store is 4N + b.
fn set_block(n: &Counts, memory: &mut Memory, b: usize)
    requires { NextBlock n.now (shared memory.old) b }
    ensures { SharedStarts (declaring (sheet_in n.now) n.now.words (b + 1)) (shared memory.new) }
{
    let store = COPIES * n.tasks + b;
    let version = n.sheet.version(n.words, b);
    memory.set_cell(WORDS + b, fresh_cell(version * 256 + store as u32));
    set_store(memory, store, n.sheet.block_values(n.words, b));
}

fn set_blocks(n: &Counts, memory: &mut Memory)
    requires { SharedStarts (declaring (sheet_in n.now) n.now.words 0) (shared memory.old) }
    ensures { SharedStarts (declaring (sheet_in n.now) n.now.words n.now.blocks) (shared memory.new) }
{
    for b in 0..n.blocks {
        set_block(n, memory, b);
    }
}

pub fn memory(n: &Counts) -> Memory
    ensures { SharedStarts (sheet_in n.now) (shared result) }
{
    let mut memory = blank();
    set_words(n, &mut memory);
    set_blocks(n, &mut memory);
    memory
}

// Task p has the stores 4p to 4p + 3 as copies, and nothing else yet.
fn own_start(p: usize) -> Task
    requires { p < 8 }
    ensures { OwnStarts p (own result) }
{
    let first = (COPIES * p) as u32;
    Task::with_copies([first, first + 1, first + 2, first + 3])
}

pub fn tasks() -> [Task; TASKS]
    ensures { TasksStart (map own result) }
{
    std::array::from_fn(own_start)
}
