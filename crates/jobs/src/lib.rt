#![tactic(auto)]

// A task's job: idle, in a plain command, in a read, in an exchange or in a transaction, each with its next step.
ghost use Rattle.std.specs.Prelude.{◌≡◌};
ghost use Rattle.state.specs.State.{own};
ghost use Rattle.exchanges.specs.Places.{noted};
ghost use Rattle.jobs.specs.Jobs.{job_at, in_phase, with_value, next_line, counted, added, keeping, restoring, entered};
ghost use Rattle.jobs.specs.Jobs.{after_done, read_by, swap_by};

use commands::Access;
use exchanges::exchange::{Exchanged, Step};
use exchanges::read::{Read, Reading};
use state::{Task, Word};

// The inner step of a transaction: between inner steps; in the first reading of a bank word; after n copied values;
// in the second reading, with the value that GET fetched; in the exchange of COMMIT.
#[derive(Clone, Copy)]
pub enum Inner {
    Between,
    First(Access, Reading),
    Copying(Access, u8),
    Again(Access, u32, Reading),
    Committing(Step),
}

// In a read: its register and word; in an exchange: the register for the answer.
#[derive(Clone, Copy)]
pub enum Phase {
    Idle,
    Plain,
    Read(u8, u8, Reading),
    Exchange(u8, Step),
    Transaction(Inner),
}

// The line at work and the one after BEGIN; the value that an exchange found last; the waiting PAIRs; the used copy slots.
#[derive(Clone, Copy)]
pub struct Job {
    pub phase: Phase,
    pub at: usize,
    pub begin: usize,
    pub value: u32,
    pub pairs: u8,
    pub used: u8,
}

impl Job {
    // At that line, which is also the one after BEGIN, with nothing found and no slot used.
    pub fn new(phase: Phase, at: usize, pairs: u8) -> Self
        ensures { result ≡ job_at phase at pairs }
    {
        Job {
            phase,
            value: 0,
            at,
            begin: at,
            pairs,
            used: 0,
        }
    }

    pub fn in_phase(&mut self, phase: Phase)
        ensures { self.new ≡ in_phase self.old phase }
    {
        self.phase = phase;
    }

    pub fn with_value(&mut self, phase: Phase, value: u32)
        ensures { self.new ≡ with_value self.old phase value }
    {
        self.phase = phase;
        self.value = value;
    }

    // The line after the one at work.
    pub fn next_line(&self) -> usize
        ensures { result ≡ next_line self.now }
    {
        self.at.wrapping_add(1)
    }

    // The command is done: the next line is at work.
    pub fn done(&mut self, pairs: u8)
        ensures { self.new ≡ after_done self.old pairs }
    {
        *self = Job::new(Phase::Plain, self.next_line(), pairs);
    }
}

// A task's counts, in the order of its T line.
#[derive(Clone, Copy)]
pub enum Counter {
    Finished,
    Spent,
    Lost,
    Ticks,
    Dropped,
}

// By number, as docs/decisions/building.md names it, promised for any; Counter has the names.
#[tactic(auto, unfolding(crate::specs::Jobs::counted))]
pub fn count(task: &mut Task, n: u8)
    ensures { own task.new ≡ counted (own task.old) n }
{
    task.set_count(n, task.count(n).wrapping_add(1));
}

#[tactic(auto, unfolding(crate::specs::Jobs::added))]
pub fn add(task: &mut Task, register: u8, other: u8)
    ensures { own task.new ≡ added (own task.old) register other }
{
    let sum = task.register(register).wrapping_add(task.register(other));
    task.set_register(register, sum);
}

// BEGIN keeps the eight registers, a restart gives them back.
pub fn keep(task: &mut Task)
    ensures { own task.new ≡ keeping 8 (own task.old) }
{
    task.keep();
}

pub fn restore(task: &mut Task)
    ensures { own task.new ≡ restoring 8 (own task.old) }
{
    task.restore();
}

// Entry n, with nothing loaded yet.
#[tactic(auto, unfolding(crate::specs::Jobs::entered_in))]
pub fn enter(task: &mut Task, n: u8, target: u32, old: u32, new: u32)
    ensures { own task.new ≡ entered (own task.old) n target old new }
{
    task.set_target(n, target);
    task.set_old(n, old);
    task.set_new(n, new);
    task.set_init(n, Word::fresh(0).pack());
    task.set_overlapped(n, 0);
}

#[tactic(auto, unfolding(crate::specs::Jobs::read_by))]
pub fn read_by(task: &mut Task, job: &mut Job, register: u8, word: u8, read: Read)
    ensures { noted job.new (own task.new) ≡ read_by (own task.old) job.old register word read }
{
    match read {
        Read::Reads(step) => job.in_phase(Phase::Read(register, word, step)),
        Read::Gives(value) => {
            task.set_register(register, value);
            job.done(job.pairs)
        }
    }
}

#[tactic(auto, unfolding(crate::specs::Jobs::swap_by))]
pub fn swap_by(task: &mut Task, job: &mut Job, register: u8, exchanged: Exchanged)
    ensures { noted job.new (own task.new) ≡ swap_by (own task.old) job.old register exchanged }
{
    match exchanged {
        Exchanged::Goes(step) => job.in_phase(Phase::Exchange(register, step)),
        Exchanged::Ends(yes) => {
            task.set_register(register, yes as u32);
            job.done(0)
        }
        Exchanged::Finds(found) => {
            job.with_value(Phase::Exchange(register, Step::Save(found.i)), found.value)
        }
    }
}
