// A statement that takes up a command, outside and inside a transaction.
ghost use Rattle.std.specs.Prelude.{◌≡◌};
ghost use Rattle.state.specs.State.{shared, own};
ghost use Rattle.exchanges.specs.Places.{left};
ghost use Rattle.statements.specs.Statements.{outside_tick, plain_tick, inside_tick, between_tick, plain?, begin_tick};

use commands::{BodyCommand, Inside, Outside};
use exchanges::read::Reading;
use exchanges::{exchange, places, read};
use jobs::{Inner, Job, Phase};
use state::{Memory, Task};
use transactions::{accesses, commits};

// A command that stands only outside a transaction.
#[tactic(auto, unfolding(crate::specs::Statements::outside_tick))]
fn outside(memory: &mut Memory, task: &mut Task, p: u8, job: &mut Job, command: Outside)
    ensures { left job.new (shared memory.new) (own task.new) ≡ outside_tick (shared memory.old) (own task.old) p job.old command }
{
    match command {
        Outside::Read { register, word } => {
            let read = read::read_tick(memory, word as usize, Reading::Load);
            jobs::read_by(task, job, register, word, read)
        }
        Outside::Pair { word, old, new } => {
            let o = task.register(old);
            let n = task.register(new);
            jobs::enter(task, job.pairs, word as u32, o, n);
            job.done(places::next(job.pairs))
        }
        Outside::Swap(register) => {
            let step = exchange::start(memory, p);
            job.in_phase(Phase::Exchange(register, step));
        }
        Outside::Begin => {
            jobs::keep(task);
            accesses::clear(task);
            *job = Job::new(Phase::Transaction(Inner::Between), job.next_line(), 0);
        }
    }
}

// Outside a transaction; the sheet check lets none of inside stand there. LOAD and ADD stand here and in `between`: what follows differs.
#[tactic(auto, unfolding(crate::specs::Statements::plain_tick))]
fn plain_command(memory: &mut Memory, task: &mut Task, p: u8, job: &mut Job, command: BodyCommand)
    ensures { left job.new (shared memory.new) (own task.new) ≡ plain_tick (shared memory.old) (own task.old) p job.old command }
{
    match command {
        BodyCommand::Load { register, value } => {
            task.set_register(register, value);
            job.done(job.pairs)
        }
        BodyCommand::Add { register, other } => {
            jobs::add(task, register, other);
            job.done(job.pairs)
        }
        BodyCommand::Outside(c) => outside(memory, task, p, job, c),
        BodyCommand::Inside(_) => {}
    }
}

// A command that stands only inside a transaction.
#[tactic(auto, unfolding(crate::specs::Statements::inside_tick))]
fn inside(memory: &mut Memory, task: &mut Task, job: &mut Job, command: Inside)
    ensures { left job.new (shared memory.new) (own task.new) ≡ inside_tick (shared memory.old) (own task.old) job.old command }
{
    match command {
        Inside::Access(access) => accesses::access(memory, task, job, access),
        Inside::Commit => commits::commit(task, job),
    }
}

// Inside a transaction, between its inner steps; the sheet check lets none of outside stand there.
#[tactic(auto, unfolding(crate::specs::Statements::between_tick))]
fn between(memory: &mut Memory, task: &mut Task, job: &mut Job, command: BodyCommand)
    ensures { left job.new (shared memory.new) (own task.new) ≡ between_tick (shared memory.old) (own task.old) job.old command }
{
    match command {
        BodyCommand::Load { register, value } => {
            task.set_register(register, value);
            accesses::goes_on(job)
        }
        BodyCommand::Add { register, other } => {
            jobs::add(task, register, other);
            accesses::goes_on(job)
        }
        BodyCommand::Inside(c) => inside(memory, task, job, c),
        BodyCommand::Outside(_) => {}
    }
}

pub fn is_plain(phase: Phase) -> bool
    ensures { result ≡ plain? phase }
{
    matches!(phase, Phase::Plain)
}

#[tactic(auto, unfolding(crate::specs::Statements::begin_tick))]
pub fn begin(memory: &mut Memory, task: &mut Task, p: u8, job: &mut Job, command: BodyCommand)
    ensures { left job.new (shared memory.new) (own task.new) ≡ begin_tick (shared memory.old) (own task.old) p job.old command }
{
    if is_plain(job.phase) {
        plain_command(memory, task, p, job, command);
    } else {
        between(memory, task, job, command);
    }
}
