// READ, also of a bank word: load the word, look at status, fetch the save place only if needed.
ghost use Rattle.std.specs.Prelude.{◌≡◌};
ghost use Rattle.state.specs.State.{shared};
ghost use Rattle.exchanges.specs.Reading.{owned, saved_for, current_in, after_look, after_reading};

use crate::places;
use state::{Memory, Status};

#[derive(Clone, Copy)]
pub enum Reading {
    Load,
    Look(u64),
    Fetch(u64),
}

// Not ControlFlow: these names say what a tick of READ did, as Exchanged's do.
#[derive(Clone, Copy)]
pub enum Read {
    Reads(Reading),
    Gives(u32),
}

// The word's own value counts: it is valid, or its task's status is 2.
#[tactic(auto, unfolding(crate::specs::Reading::owned))]
pub fn own(memory: &Memory, word: u64) -> bool
    ensures { result ≡ owned (shared memory.now) word }
{
    state::valid_of(word)
        || memory.status(state::task_of(word) as usize) == Status::Committed as u32
}

// The save place of a word's task and count.
pub fn saved(memory: &Memory, word: u64) -> u32
    ensures { result ≡ saved_for (shared memory.now) word }
{
    memory.save(places::slot(state::task_of(word), state::count_of(word)))
}

// The current value of a cell: its word's own value if that counts, else the save place.
#[tactic(auto, unfolding(crate::specs::Reading::current_in))]
pub fn current(memory: &Memory, cell: usize) -> u32
    ensures { result ≡ current_in (shared memory.now) cell }
{
    let word = memory.cell(cell);
    if own(memory, word) {
        state::value_of(word)
    } else {
        saved(memory, word)
    }
}

#[tactic(auto, unfolding(crate::specs::Reading::after_look))]
fn look(memory: &Memory, word: u64) -> Read
    ensures { result ≡ after_look (shared memory.now) word }
{
    if own(memory, word) {
        Read::Gives(state::value_of(word))
    } else {
        Read::Reads(Reading::Fetch(word))
    }
}

#[tactic(auto, unfolding(crate::specs::Reading::after_reading))]
pub fn read_tick(memory: &Memory, cell: usize, step: Reading) -> Read
    ensures { result ≡ after_reading (shared memory.now) cell step }
{
    match step {
        Reading::Load => Read::Reads(Reading::Look(memory.cell(cell))),
        Reading::Look(word) => look(memory, word),
        Reading::Fetch(word) => Read::Gives(saved(memory, word)),
    }
}
