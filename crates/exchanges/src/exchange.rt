// SWAP of k words by task p, one step a tick. A step carries i; Clean and its Mark carry j and the answer too. The value that
// Look or Fetch found is kept beside the step, so that a step has four bytes and is copied as one number.
ghost use Rattle.std.specs.Prelude.{◌≡◌};
ghost use Rattle.state.specs.State.{shared, own};
ghost use Rattle.exchanges.specs.Places.{went, noted, left};
ghost use Rattle.exchanges.specs.Exchange.{after_start, after_test, after_load, after_look, after_fetch, after_save, after_fail};
ghost use Rattle.exchanges.specs.Exchange.{after_mark, after_install, cleaning, after_commit, onward, as_new, marked, installed_at};
ghost use Rattle.exchanges.specs.Exchange.{after_clean, after_clean_mark, after_exchange};

// Memory, task and p stay apart: the machine lends one task of its eight for a statement, and p is that task's number.
use crate::{places, read};
use state::{Memory, Status, Task, Word};

#[derive(Clone, Copy)]
pub enum Step {
    Start,
    Test(u8),
    Load(u8),
    Look(u8),
    Fetch(u8),
    Save(u8),
    Fail(u8),
    Mark(u8),
    Install(u8),
    Commit(u8),
    Clean(u8, u8, bool),
    CleanMark(u8, u8, bool),
}

// The value found for entry i: Save is next.
#[derive(Clone, Copy)]
pub struct Found {
    pub i: u8,
    pub value: u32,
}

// Three ways, so no ControlFlow: a value found is kept beside the step.
#[derive(Clone, Copy)]
pub enum Exchanged {
    Goes(Step),
    Finds(Found),
    Ends(bool),
}

// SWAP begins.
#[tactic(auto, unfolding(crate::specs::Exchange::after_start))]
pub fn start(memory: &mut Memory, p: u8) -> Step
    ensures { went result (shared memory.new) ≡ after_start (shared memory.old) p }
{
    memory.set_status(p as usize, Status::Started as u32);
    Step::Test(0)
}

#[tactic(auto, unfolding(crate::specs::Exchange::after_test))]
fn test(memory: &Memory, p: u8, k: u8, i: u8) -> Step
    ensures { result ≡ after_test (shared memory.now) p k i }
{
    if i == k || memory.status(p as usize) == Status::Failed as u32 {
        Step::Commit(i)
    } else {
        Step::Load(i)
    }
}

#[tactic(auto, unfolding(crate::specs::Exchange::after_load))]
fn load(memory: &Memory, task: &mut Task, i: u8) -> Step
    ensures { noted result (own task.new) ≡ after_load (shared memory.now) (own task.old) i }
{
    let cell = task.target(i) as usize;
    task.set_init(i, memory.cell(cell));
    task.set_overlapped(i, 0);
    Step::Look(i)
}

#[tactic(auto, unfolding(crate::specs::Exchange::after_look))]
fn look(memory: &Memory, task: &mut Task, i: u8) -> Exchanged
    ensures { noted result (own task.new) ≡ after_look (shared memory.now) (own task.old) i }
{
    let word = task.init(i);
    if read::own(memory, word) {
        task.set_overlapped(i, 0);
        let value = state::value_of(word);
        Exchanged::Finds(Found { i, value })
    } else {
        task.set_overlapped(i, 1);
        Exchanged::Goes(Step::Fetch(i))
    }
}

#[tactic(auto, unfolding(crate::specs::Exchange::after_fetch))]
fn fetch(memory: &Memory, task: &Task, i: u8) -> Exchanged
    ensures { result ≡ after_fetch (shared memory.now) (own task.now) i }
{
    let value = read::saved(memory, task.init(i));
    Exchanged::Finds(Found { i, value })
}

#[tactic(auto, unfolding(crate::specs::Exchange::after_save))]
fn save(memory: &mut Memory, task: &Task, p: u8, i: u8, value: u32) -> Step
    ensures { went result (shared memory.new) ≡ after_save (shared memory.old) (own task.now) p i value }
{
    memory.set_save(places::slot(p as u32, i), value);
    let old = task.old(i);
    if value != old {
        Step::Fail(i)
    } else if task.overlapped(i) == 0 || old == task.new(i) {
        Step::Install(i)
    } else {
        Step::Mark(i)
    }
}

// As start but for status and step: each is its own rule of document 01.
#[tactic(auto, unfolding(crate::specs::Exchange::after_fail))]
fn fail(memory: &mut Memory, p: u8, i: u8) -> Step
    ensures { went result (shared memory.new) ≡ after_fail (shared memory.old) p i }
{
    memory.set_status(p as usize, Status::Failed as u32);
    Step::Test(i)
}

// The task of the word loaded for entry i gets status 1.
#[tactic(auto, unfolding(crate::specs::Exchange::marked))]
fn mark_task(memory: &mut Memory, task: &Task, i: u8)
    ensures { shared memory.new ≡ marked (shared memory.old) (own task.now) i }
{
    memory.set_status(state::task_of(task.init(i)) as usize, Status::Failed as u32);
}

#[tactic(auto, unfolding(crate::specs::Exchange::after_mark))]
fn mark(memory: &mut Memory, task: &Task, i: u8) -> Step
    ensures { went result (shared memory.new) ≡ after_mark (shared memory.old) (own task.now) i }
{
    mark_task(memory, task, i);
    Step::Install(i)
}

// The word that task p installs for its entry i.
fn installed(task: &Task, p: u8, i: u8) -> u64
    ensures { result ≡ installed_at (own task.now) p i }
{
    Word {
        value: task.new(i),
        count: i,
        valid: false,
        task: p,
    }
    .pack()
}

#[tactic(auto, unfolding(crate::specs::Exchange::after_install))]
fn install(memory: &mut Memory, task: &Task, p: u8, i: u8) -> Step
    ensures { went result (shared memory.new) ≡ after_install (shared memory.old) (own task.now) p i }
{
    let cell = task.target(i) as usize;
    let next = places::next(i);
    if memory.cell(cell) == task.init(i) {
        memory.set_cell(cell, installed(task, p, i));
        Step::Test(next)
    } else {
        Step::Fail(next)
    }
}

// Clean begins, unless there is nothing to clean.
fn to_clean(i: u8, yes: bool) -> Exchanged
    ensures { result ≡ cleaning i yes }
{
    if i == 0 {
        Exchanged::Ends(yes)
    } else {
        Exchanged::Goes(Step::Clean(i, 0, yes))
    }
}

#[tactic(auto, unfolding(crate::specs::Exchange::after_commit))]
fn commit(memory: &mut Memory, p: u8, i: u8) -> Exchanged
    ensures { went result (shared memory.new) ≡ after_commit (shared memory.old) p i }
{
    let task = p as usize;
    let yes = memory.status(task) == Status::Started as u32;
    if yes {
        memory.set_status(task, Status::Committed as u32);
    }
    to_clean(i, yes)
}

// Clean goes to the next j, or was the last.
fn to_next(i: u8, j: u8, yes: bool) -> Exchanged
    ensures { result ≡ onward i j yes }
{
    let n = places::next(j);
    if n == i {
        Exchanged::Ends(yes)
    } else {
        Exchanged::Goes(Step::Clean(i, n, yes))
    }
}

// Whether Clean makes the word new.
fn as_new(old: u32, new: u32, yes: bool) -> bool
    ensures { result ≡ as_new old new yes }
{
    old != new && yes
}

#[tactic(auto, unfolding(crate::specs::Exchange::after_clean))]
fn clean(memory: &mut Memory, task: &Task, p: u8, i: u8, j: u8, yes: bool) -> Exchanged
    ensures { went result (shared memory.new) ≡ after_clean (shared memory.old) (own task.now) p i j yes }
{
    let cell = task.target(j) as usize;
    let new = task.new(j);
    let renewed = as_new(task.old(j), new, yes);
    let mine = memory.cell(cell) == installed(task, p, j);
    if mine {
        let word = if renewed {
            Word {
                value: new,
                count: 0,
                valid: true,
                task: p,
            }
            .pack()
        } else {
            task.init(j)
        };
        memory.set_cell(cell, word);
        to_next(i, j, yes)
    } else if renewed || task.overlapped(j) == 0 {
        to_next(i, j, yes)
    } else {
        Exchanged::Goes(Step::CleanMark(i, j, yes))
    }
}

#[tactic(auto, unfolding(crate::specs::Exchange::after_clean_mark))]
fn clean_mark(memory: &mut Memory, task: &Task, i: u8, j: u8, yes: bool) -> Exchanged
    ensures { went result (shared memory.new) ≡ after_clean_mark (shared memory.old) (own task.now) i j yes }
{
    mark_task(memory, task, j);
    to_next(i, j, yes)
}

// A match: a step is kept from tick to tick in fixed memory, where no closure can be.
// One statement of the exchange of k words by task p; the value is what was found last.
#[tactic(auto, unfolding(crate::specs::Exchange::after_exchange))]
pub fn exchange_tick(
    memory: &mut Memory,
    task: &mut Task,
    p: u8,
    k: u8,
    value: u32,
    step: Step,
) -> Exchanged
    ensures { left result (shared memory.new) (own task.new) ≡ after_exchange (shared memory.old) (own task.old) p k value step }
{
    match step {
        Step::Start => Exchanged::Goes(start(memory, p)),
        Step::Test(i) => Exchanged::Goes(test(memory, p, k, i)),
        Step::Load(i) => Exchanged::Goes(load(memory, task, i)),
        Step::Look(i) => look(memory, task, i),
        Step::Fetch(i) => fetch(memory, task, i),
        Step::Save(i) => Exchanged::Goes(save(memory, task, p, i, value)),
        Step::Fail(i) => Exchanged::Goes(fail(memory, p, i)),
        Step::Mark(i) => Exchanged::Goes(mark(memory, task, i)),
        Step::Install(i) => Exchanged::Goes(install(memory, task, p, i)),
        Step::Commit(i) => commit(memory, p, i),
        Step::Clean(i, j, yes) => clean(memory, task, p, i, j, yes),
        Step::CleanMark(i, j, yes) => clean_mark(memory, task, i, j, yes),
    }
}
