// A statement inside a command, by the phase of its job.
ghost use Rattle.std.specs.Prelude.{◌≡◌};
ghost use Rattle.state.specs.State.{shared, own};
ghost use Rattle.exchanges.specs.Places.{left};
ghost use Rattle.statements.specs.Statements.{transact_tick, other_tick, exchange_step, step_tick};

use exchanges::exchange::Step;
use exchanges::{exchange, read};
use jobs::{Inner, Job, Phase};
use state::{Memory, Task};
use transactions::{accesses, commits};

// The step of an exchange that a job is at, of SWAP or of COMMIT.
#[tactic(auto, unfolding(crate::specs::Statements::exchange_step))]
fn exchange_step(phase: Phase) -> Option<Step>
    ensures { result ≡ exchange_step phase }
{
    match phase {
        Phase::Exchange(_, step) | Phase::Transaction(Inner::Committing(step)) => Some(step),
        _ => None,
    }
}

// A statement inside a transaction that is not its exchange's.
#[tactic(auto, unfolding(crate::specs::Statements::transact_tick))]
fn transact(memory: &mut Memory, task: &mut Task, job: &mut Job, inner: Inner)
    ensures { left job.new (shared memory.new) (own task.new) ≡ transact_tick (shared memory.old) (own task.old) job.old inner }
{
    match inner {
        Inner::First(access, step) => {
            let read = read::read_tick(memory, accesses::bank(accesses::block(access)), step);
            accesses::first_read(task, job, access, read)
        }
        Inner::Copying(access, n) => accesses::copy(memory, task, job, access, n),
        Inner::Again(access, value, step) => {
            let read = read::read_tick(memory, accesses::bank(accesses::block(access)), step);
            accesses::again_read(task, job, access, value, read)
        }
        Inner::Between | Inner::Committing(_) => {}
    }
}

// A statement that is no exchange's.
#[tactic(auto, unfolding(crate::specs::Statements::other_tick))]
fn other(memory: &mut Memory, task: &mut Task, job: &mut Job)
    ensures { left job.new (shared memory.new) (own task.new) ≡ other_tick (shared memory.old) (own task.old) job.old job.old.phase }
{
    match job.phase {
        Phase::Read(register, word, step) => {
            let read = read::read_tick(memory, word as usize, step);
            jobs::read_by(task, job, register, word, read)
        }
        Phase::Transaction(inner) => transact(memory, task, job, inner),
        Phase::Idle | Phase::Plain | Phase::Exchange(_, _) => {}
    }
}

// One statement inside a command. Both exchanges are done in one place, so that their code stands there once.
pub fn step(memory: &mut Memory, task: &mut Task, p: u8, job: &mut Job)
    ensures { left job.new (shared memory.new) (own task.new) ≡ step_tick (shared memory.old) (own task.old) p job.old job.old.phase }
{
    let Some(step) = exchange_step(job.phase) else {
        other(memory, task, job);
        return;
    };
    let exchanged = exchange::exchange_tick(memory, task, p, job.pairs, job.value, step);
    if let Phase::Exchange(register, _) = job.phase {
        jobs::swap_by(task, job, register, exchanged)
    } else {
        commits::committed_by(task, job, exchanged)
    }
}
