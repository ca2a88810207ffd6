#![tactic(auto)]

// What a release does to its task: it waits behind an unfinished job, or is dropped and counted, or a job starts.
ghost use Rattle.std.specs.Prelude.{◌≡◌, ◌^◌, ◌<◌};
ghost use Rattle.state.specs.State.{own};
ghost use Rattle.arrivals.specs.Releases.{unfinished?, dropped_by, waiting_by, begun_by, zeroing, zeroed_by, started_by};

use commands::ceilings::TaskCeilings;
use jobs::{Counter, Job, Phase};
use state::Task;

pub mod releases;

// The bit of a task in the mask of unfinished jobs. No type for a task's number: each
// place that makes one shows that it is below 8.
pub fn bit(i: usize) -> u32
    requires { i < 8 }
    ensures { result ≡ 2 ^ i }
{
    1 << i
}

pub fn unfinished(phase: Phase) -> bool
    ensures { result ≡ unfinished? phase }
{
    !matches!(phase, Phase::Idle)
}

// A release to a task whose job is unfinished waits behind it, and is dropped where as many wait as may: the task counts it.
pub fn drop_by(task: &mut Task, waiting: u8, phase: Phase)
    ensures { own task.new ≡ dropped_by (unfinished? phase) waiting (own task.old) }
{
    let full = TaskCeilings::WAITING <= waiting;
    if full && unfinished(phase) {
        jobs::count(task, Counter::Dropped as u8);
    }
}

// How many wait then: one more, or one fewer where a job starts. Only one that waited finds any behind a job that has ended.
pub fn wait_by(waiting: u8, phase: Phase) -> u8
    ensures { result ≡ waiting_by (unfinished? phase) waiting }
{
    if !unfinished(phase) {
        waiting.saturating_sub(1)
    } else if waiting < TaskCeilings::WAITING {
        waiting + 1
    } else {
        waiting
    }
}

// Else a job starts, with all registers 0.
pub fn begun(mask: u32, i: usize, phase: Phase) -> u32
    requires { i < 8 }
    ensures { result ≡ begun_by (unfinished? phase) mask i }
{
    if unfinished(phase) {
        mask
    } else {
        mask.wrapping_add(bit(i))
    }
}

// One register after another: the record's fields are private to its crate.
#[tactic(auto, unfolding(jobs::specs::Jobs::zeroed))]
fn zero(task: &mut Task)
    ensures { own task.new ≡ zeroing 8 (own task.old) }
{
    for n in 0..TaskCeilings::REGISTERS {
        task.set_register(n, 0);
    }
}

pub fn zero_by(task: &mut Task, phase: Phase)
    ensures { own task.new ≡ zeroed_by (unfinished? phase) (own task.old) }
{
    if !unfinished(phase) {
        zero(task);
    }
}

pub fn start_by(job: &mut Job, line: usize)
    ensures { job.new ≡ started_by (unfinished? job.old.phase) job.old line }
{
    if !unfinished(job.phase) {
        *job = Job::new(Phase::Plain, line, 0);
    }
}
