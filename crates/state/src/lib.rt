#![tactic(auto)]

// A word packed into a number; what all tasks share, and one task's record. Past an array's end an element reads 0 and a store does
// nothing, so that each accessor is total.
ghost use Rattle.std.specs.Prelude.{◌≡◌};
ghost use Rattle.model.specs.Lists.{at, replace};
ghost use Rattle.state.specs.Packed.{fresh, packed, value_of, count_of, valid_of, task_of};

mod memory;
mod task;

pub use memory::{Memory, Status};
pub use task::Task;

#[derive(Clone, Copy)]
pub struct Word {
    pub value: u32,
    pub count: u8,
    pub valid: bool,
    pub task: u8,
}

impl Word {
    // A word starts valid, with count 0 and task 0.
    pub fn fresh(value: u32) -> Self
        ensures { result ≡ fresh value }
    {
        Word {
            value,
            count: 0,
            valid: true,
            task: 0,
        }
    }

    // The value lowest, then count and valid mark, the task on top.
    pub fn pack(self) -> u64
        ensures { result ≡ packed self.value self.count self.valid self.task }
    {
        let low = (self.value as u64) + 4294967296 * ((self.count % 8) as u64);
        let high = 68719476736 * (self.task as u64);
        if self.valid {
            return low + 34359738368 + high;
        }
        low + high
    }
}

// A packed word is a plain number and no type of its own: cells, entries and the exchange's tests would wrap and unwrap it at each use.
pub fn value_of(word: u64) -> u32
    ensures { result ≡ value_of word }
{
    (word % 4294967296) as u32
}

pub fn count_of(word: u64) -> u8
    ensures { result ≡ count_of word }
{
    (word / 4294967296 % 8) as u8
}

pub fn valid_of(word: u64) -> bool
    ensures { result ≡ valid_of word }
{
    word / 34359738368 % 2 == 1
}

pub fn task_of(word: u64) -> u32
    ensures { result ≡ task_of word }
{
    (word / 68719476736) as u32
}

// Past the end an element reads as `past`, and a store does nothing. By the index, for `get_mut` says nothing of the slice afterwards.
#[tactic(auto, unfolding(model::specs::Lists::at))]
fn element<T: Copy>(items: &[T], i: usize, past: T) -> T
    ensures { result ≡ at past items.now i }
{
    items.get(i).copied().unwrap_or(past)
}

#[tactic(auto, unfolding(model::specs::Lists::replace))]
fn store<T: Copy>(items: &mut [T], i: usize, v: T)
    ensures { items.new ≡ replace items.old i v }
{
    if i < items.len() {
        items[i] = v;
    }
}
