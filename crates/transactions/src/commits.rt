// COMMIT: the touched bank words gathered, spent, and what its exchange's answer leaves: old stores taken back, or a lost attempt.
ghost use Rattle.std.specs.Prelude.{◌≡◌};
ghost use Rattle.state.specs.State.{own};
ghost use Rattle.exchanges.specs.Places.{noted};
ghost use Rattle.transactions.specs.Blocks.{is_spent, spent_at, new_bank, entering, taking_one, taking_back};
ghost use Rattle.transactions.specs.Commits.{Gathers, commit_by, committed_by};

use crate::accesses;
use crate::bits::Bits;
use commands::ceilings::SheetCeilings;
use exchanges::exchange::{Exchanged, Step};
use jobs::{Counter, Inner, Job, Phase};
use state::Task;

// A PUT block at the last version.
fn is_spent(slot: u32, bank: u32) -> bool
    ensures { result ≡ is_spent slot bank }
{
    slot != 0 && bank / 256 == SheetCeilings::LAST_VERSION
}

// What the bank word of a touched block becomes: itself where only read, new store and version + 1 where PUT.
fn new_bank(task: &Task, slot: u32, bank: u32) -> u32
    ensures { result ≡ new_bank (own task.now) slot bank }
{
    if slot == 0 {
        bank
    } else {
        let store = task.copy((slot - 1) as usize);
        (bank / 256 * 256).wrapping_add(256).wrapping_add(store)
    }
}

// Entry n is the bank word of block b; whether that block is spent.
fn gather_one(task: &mut Task, b: u8, n: u8) -> bool
    ensures { (result ≡ spent_at (own task.old) b) × (own task.new ≡ entering b n (own task.old)) }
{
    let slot = task.slot(b);
    let bank = task.remembered(b);
    let new = new_bank(task, slot, bank);
    jobs::enter(
        task,
        n,
        (SheetCeilings::WORDS as u32) + (b as u32),
        bank,
        new,
    );
    is_spent(slot, bank)
}

// How many passes gathered the entries, one each; whether a PUT block is at the last version. `Gathers` has both by name.
#[derive(Clone, Copy)]
pub struct Gathered {
    pub passes: u8,
    pub spent: bool,
}

// The touched bank words by rising number, straight from one touched block to the next.
fn gather(task: &mut Task) -> Gathered
    ensures { Gathers (own task.old) result (own task.new) }
{
    let mask = task.touched();
    // The number of the next entry, at the end of all.
    let mut passes: u8 = 0;
    let mut spent = false;
    for b in Bits(mask as u32) {
        let spends = gather_one(task, b, passes);
        spent |= spends;
        passes += 1;
    }
    Gathered { passes, spent }
}

#[tactic(auto, unfolding(crate::specs::Commits::commit_by))]
pub fn commit(task: &mut Task, job: &mut Job)
    ensures { noted job.new (own task.new) ≡ commit_by (own task.old) job.old }
{
    if task.touched() == 0 {
        job.done(0);
        return;
    }
    let gathered = gather(task);
    if gathered.spent {
        jobs::count(task, Counter::Spent as u8);
        *job = Job::new(Phase::Idle, job.at, 0);
    } else {
        accesses::inner(job, Inner::Committing(Step::Start));
        job.pairs = gathered.passes;
    }
}

// The copy slot of block b, if PUT, takes the block's old store.
#[tactic(auto, unfolding(crate::specs::Blocks::taken_one))]
fn take_one(task: &mut Task, b: u8)
    ensures { own task.new ≡ taking_one b (own task.old) }
{
    let slot = task.slot(b);
    if slot != 0 {
        task.set_copy((slot - 1) as usize, task.remembered(b) % 256);
    }
}

// The k-th used copy slot takes the replaced block's old store.
fn take_back(task: &mut Task)
    ensures { own task.new ≡ taking_back (own task.old) }
{
    for b in Bits(task.touched() as u32) {
        take_one(task, b);
    }
}

#[tactic(auto, unfolding(crate::specs::Commits::committed_by))]
pub fn committed_by(task: &mut Task, job: &mut Job, exchanged: Exchanged)
    ensures { noted job.new (own task.new) ≡ committed_by (own task.old) job.old exchanged }
{
    match exchanged {
        Exchanged::Goes(step) => accesses::inner(job, Inner::Committing(step)),
        Exchanged::Ends(true) => {
            take_back(task);
            job.done(0)
        }
        Exchanged::Ends(false) => accesses::lose_attempt(task, job),
        Exchanged::Finds(found) => job.with_value(
            Phase::Transaction(Inner::Committing(Step::Save(found.i))),
            found.value,
        ),
    }
}
