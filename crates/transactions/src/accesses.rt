// GET and PUT with all their ticks, by what the block is so far, and what a lost attempt leaves.
ghost use Rattle.std.specs.Prelude.{◌≡◌, ◌%◌, ◌^◌};
ghost use Rattle.state.specs.State.{shared, own};
ghost use Rattle.state.specs.Held.{touched_in};
ghost use Rattle.exchanges.specs.Places.{went, noted, left};
ghost use Rattle.jobs.specs.Jobs.{in_phase};
ghost use Rattle.transactions.specs.Blocks.{bank_of, named_block, touching, clearing};
ghost use Rattle.transactions.specs.Accesses.{goes_on, first_read, store_for, got_by, after_copy, after_put, access_tick};
ghost use Rattle.transactions.specs.Accesses.{loses_attempt, checked_by, again_read};

use commands::Access;
use commands::ceilings::SheetCeilings;
use exchanges::read::{Read, Reading};
use exchanges::{places, read};
use jobs::{Counter, Inner, Job, Phase};
use state::{Memory, Task};

const VALUES: u8 = SheetCeilings::BLOCK_VALUES as u8;

// The cell of a block's bank word.
pub fn bank(block: u8) -> usize
    ensures { result ≡ bank_of block }
{
    (SheetCeilings::WORDS as usize) + (block as usize)
}

pub fn block(access: Access) -> u8
    ensures { result ≡ named_block access }
{
    match access {
        Access::Get { block, .. } | Access::Put { block, .. } => block,
    }
}

// The job in its transaction, with that inner step.
pub fn inner(job: &mut Job, step: Inner)
    ensures { job.new ≡ in_phase job.old (Phase.Transaction step) }
{
    job.in_phase(Phase::Transaction(step));
}

// The next command of the transaction.
pub fn goes_on(job: &mut Job)
    ensures { job.new ≡ goes_on job.old }
{
    inner(job, Inner::Between);
    job.at = job.next_line();
    job.pairs = 0;
}

// Block b's bit in the mask of touched blocks, and whether it is set: one shift each, as the definitions of the mask have them.
fn bit(b: u8) -> u16
    ensures { result ≡ 2 ^ (b % 16) }
{
    1 << (b % SheetCeilings::BLOCKS)
}

fn is_touched(mask: u16, b: u8) -> bool
    ensures { result ≡ touched_in mask (b % 16) }
{
    (mask >> (b % SheetCeilings::BLOCKS)) % 2 == 1
}

// Block b is touched: not copied yet, that bank word remembered.
fn touch(task: &mut Task, b: u8, bank: u32)
    ensures { own task.new ≡ touching b bank (own task.old) }
{
    task.set_slot(b, 0);
    task.set_remembered(b, bank);
    task.set_touched(task.touched() | bit(b));
}

// No block is touched.
pub fn clear(task: &mut Task)
    ensures { own task.new ≡ clearing (own task.old) }
{
    task.set_touched(0);
}

#[tactic(auto, unfolding(crate::specs::Accesses::first_read))]
pub fn first_read(task: &mut Task, job: &mut Job, access: Access, read: Read)
    ensures { noted job.new (own task.new) ≡ first_read (own task.old) job.old access read }
{
    match read {
        Read::Reads(step) => inner(job, Inner::First(access, step)),
        Read::Gives(value) => {
            touch(task, block(access), value);
            inner(job, Inner::Between)
        }
    }
}

// The store of a touched block: the own copy if PUT before.
fn store_for(task: &Task, block: u8) -> u32
    ensures { result ≡ store_for (own task.now) block }
{
    let slot = task.slot(block);
    if slot == 0 {
        task.remembered(block) % 256
    } else {
        task.copy((slot - 1) as usize)
    }
}

#[tactic(auto, unfolding(crate::specs::Accesses::got_by))]
fn get(memory: &Memory, task: &Task, job: &mut Job, access: Access, block: u8, offset: u8)
    ensures { job.new ≡ got_by (shared memory.now) (own task.now) job.old access block offset }
{
    let place = places::slot(store_for(task, block), offset);
    inner(
        job,
        Inner::Again(access, memory.value(place), Reading::Load),
    );
}

// Value n goes into the next copy store.
#[tactic(auto, unfolding(crate::specs::Accesses::after_copy))]
pub fn copy(memory: &mut Memory, task: &Task, job: &mut Job, access: Access, n: u8)
    ensures { went job.new (shared memory.new) ≡ after_copy (shared memory.old) (own task.now) job.old access n }
{
    let from = places::slot(task.remembered(block(access)) % 256, n);
    let to = places::slot(task.copy(job.used as usize), n);
    memory.set_value(to, memory.value(from));
    let done = places::next(n);
    if done == VALUES {
        inner(job, Inner::Again(access, 0, Reading::Load))
    } else {
        inner(job, Inner::Copying(access, done))
    }
}

#[tactic(auto, unfolding(crate::specs::Accesses::after_put))]
fn put(memory: &mut Memory, task: &Task, job: &mut Job, block: u8, offset: u8, register: u8)
    ensures { went job.new (shared memory.new) ≡ after_put (shared memory.old) (own task.now) job.old block offset register }
{
    let place = places::slot(store_for(task, block), offset);
    memory.set_value(place, task.register(register));
    goes_on(job);
}

// The command at work is a GET or a PUT.
#[tactic(auto, unfolding(crate::specs::Accesses::access_tick))]
pub fn access(memory: &mut Memory, task: &mut Task, job: &mut Job, access: Access)
    ensures { left job.new (shared memory.new) (own task.new) ≡ access_tick (shared memory.old) (own task.old) job.old access }
{
    let b = block(access);
    if is_touched(task.touched(), b) {
        match access {
            Access::Get { block, offset, .. } => get(memory, task, job, access, block, offset),
            Access::Put {
                block,
                offset,
                register,
            } => {
                if task.slot(block) == 0 {
                    copy(memory, task, job, access, 0);
                } else {
                    put(memory, task, job, block, offset, register);
                }
            }
        }
    } else {
        let read = read::read_tick(memory, bank(b), Reading::Load);
        first_read(task, job, access, read);
    }
}

// An attempt is lost and counted: registers as kept, nothing touched, next the command after BEGIN.
#[tactic(auto, unfolding(crate::specs::Accesses::loses_attempt))]
pub fn lose_attempt(task: &mut Task, job: &mut Job)
    ensures { noted job.new (own task.new) ≡ loses_attempt (own task.old) job.old }
{
    jobs::count(task, Counter::Lost as u8);
    jobs::restore(task);
    clear(task);
    *job = Job::new(Phase::Transaction(Inner::Between), job.begin, 0);
}

// The version read again is the remembered one.
#[tactic(auto, unfolding(crate::specs::Accesses::checked_by))]
fn check(task: &mut Task, job: &mut Job, access: Access, value: u32)
    ensures { noted job.new (own task.new) ≡ checked_by (own task.old) job.old access value }
{
    match access {
        Access::Get { register, .. } => {
            task.set_register(register, value);
            goes_on(job)
        }
        Access::Put { block, .. } => {
            task.set_slot(block, (job.used as u32) + 1);
            inner(job, Inner::Between);
            job.used = places::next(job.used);
        }
    }
}

#[tactic(auto, unfolding(crate::specs::Accesses::again_read))]
pub fn again_read(task: &mut Task, job: &mut Job, access: Access, value: u32, read: Read)
    ensures { noted job.new (own task.new) ≡ again_read (own task.old) job.old access value read }
{
    match read {
        Read::Reads(step) => inner(job, Inner::Again(access, value, step)),
        Read::Gives(bank) => {
            // A version is all but the lowest byte.
            if bank / 256 == task.remembered(block(access)) / 256 {
                check(task, job, access, value)
            } else {
                lose_attempt(task, job)
            }
        }
    }
}
