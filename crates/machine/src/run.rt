// The run: releases arrive, the highest task with an unfinished job does its statements, until the run stops.
ghost use Rattle.std.specs.Prelude.{◌≡◌, ◌&&◌, map, ◌<◌, ltb, length};
ghost use Rattle.state.specs.State.{shared, own};
ghost use Rattle.exchanges.specs.Places.{noted, left};
ghost use Rattle.statements.specs.Statements.{begin_tick, step_tick, starting?, line_of};
ghost use Rattle.arrivals.specs.Releases.{unfinished?};
ghost use Rattle.machine.specs.Flat.{top_of, closed, finished, tick_of, left_by, ready_by, Ends, flat_in, paused_at};

use arrivals::releases;
use arrivals::releases::Coming;
use commands::BodyCommand;
use commands::ceilings::SheetCeilings;
use jobs::{Counter, Inner, Job, Phase};
use state::{Memory, Task};
use statements::{begin, step};

const TASKS: usize = SheetCeilings::TASKS as usize;

const COMMANDS: usize = SheetCeilings::COMMANDS as usize;

// A run between two ticks: the jobs, the mask of unfinished ones, how many releases wait behind each, the task whose job has ended with one
// waiting, the place of the next release and the ticks done. Jobs and waiting are two lists, as in the flat machine of specs/: a statement
// changes a job alone.
#[derive(Clone, Copy)]
pub struct Paused {
    pub jobs: [Job; TASKS],
    pub mask: u32,
    pub waiting: [u8; TASKS],
    pub ready: Option<u8>,
    pub place: usize,
    pub ticks: u32,
}

impl Paused {
    // No job has run; the releases start at that place.
    pub fn start(place: usize) -> Paused
        ensures { result ≡ paused_at place }
    {
        Paused {
            jobs: [Job::new(Phase::Idle, 0, 0); TASKS],
            mask: 0,
            waiting: [0; TASKS],
            ready: None,
            place,
            ticks: 0,
        }
    }
}

// The next statement takes up the command at work.
fn starting(phase: Phase) -> bool
    ensures { result ≡ starting? phase }
{
    matches!(phase, Phase::Plain | Phase::Transaction(Inner::Between))
}

// The highest task of a mask, 0 if there is none: by leading zeros, as document 01 has it.
fn top(mask: u32) -> u8
    ensures highest { result ≡ top_of 8 mask }
    ensures in_range { result < 8 }
{
    if mask == 0 {
        0
    } else if 255 < mask {
        7
    } else {
        (31 - mask.leading_zeros()) as u8
    }
}

// A line of the program, the last one for a line that there is not.
fn line(n: usize) -> usize
    ensures value { result ≡ line_of n }
    ensures in_range { result < 512 }
{
    n.min(COMMANDS - 1)
}

// A job that stands where its body ends is finished.
fn close(task: &mut Task, job: &mut Job, end: usize)
    ensures { noted job.new (own task.new) ≡ closed end (own task.old) job.old }
{
    if begin::is_plain(job.phase) && job.at == end {
        jobs::count(task, Counter::Finished as u8);
        job.in_phase(Phase::Idle);
    }
}

// A statement is done: its tick is counted.
fn finish(task: &mut Task, job: &mut Job, end: usize)
    ensures { noted job.new (own task.new) ≡ finished end (own task.old) job.old }
{
    close(task, job, end);
    jobs::count(task, Counter::Ticks as u8);
}

// A tick that takes up a command, and one inside a command, which is handed none.
fn begin_tick(
    memory: &mut Memory,
    task: &mut Task,
    p: u8,
    job: &mut Job,
    command: BodyCommand,
    end: usize,
)
    ensures { left job.new (shared memory.new) (own task.new)
        ≡ tick_of end (begin_tick (shared memory.old) (own task.old) p job.old command) }
{
    begin::begin(memory, task, p, job, command);
    finish(task, job, end);
}

fn step_tick(memory: &mut Memory, task: &mut Task, p: u8, job: &mut Job, end: usize)
    ensures { left job.new (shared memory.new) (own task.new)
        ≡ tick_of end (step_tick (shared memory.old) (own task.old) p job.old job.old.phase) }
{
    step::step(memory, task, p, job);
    finish(task, job, end);
}

// The task that runs goes on: its job is unfinished, and until that tick no other can run.
fn goes_on(phase: Phase, tick: u32, until: u32) -> bool
    ensures { result ≡ (unfinished? phase && ltb tick until) }
{
    arrivals::unfinished(phase) && tick < until
}

// The mask without a task whose job is not unfinished any more.
fn leaving(mask: u32, i: usize, phase: Phase) -> u32
    requires { i < 8 }
    ensures { result ≡ left_by (unfinished? phase) mask i }
{
    if arrivals::unfinished(phase) {
        mask
    } else {
        mask.saturating_sub(arrivals::bit(i))
    }
}

// The task that runs, if its job has ended and a release waits behind it.
fn ready_by(ready: Option<u8>, p: u8, waiting: u8, phase: Phase) -> Option<u8>
    ensures { result ≡ ready_by (unfinished? phase) waiting p ready }
{
    if arrivals::unfinished(phase) || waiting == 0 {
        ready
    } else {
        Some(p)
    }
}

// The run of a program whose bodies lie within those bounds, on from where it was paused. The sheet is read for its releases.
// Seven parameters: what four crates make, and a struct of them would be made for this one call. The program goes by value: lent, the
// compiler copies it once more on its way here (docs/decisions/speed.md).
pub fn run(
    sheet: &[u8],
    program: [BodyCommand; COMMANDS],
    bounds: &[usize; 9],
    memory: &mut Memory,
    tasks: &mut [Task; TASKS],
    from: Paused,
    limit: u32,
) -> Paused
    requires jobs { length from.jobs ≡ 8 }
    requires waiting { length from.waiting ≡ 8 }
    requires program { length program ≡ 512 }
    ensures ends { Ends sheet.now program bounds.now limit
        (flat_in (shared memory.old) (map own tasks.old) from) (flat_in (shared memory.new) (map own tasks.new) result) }
    ensures jobs { length result.jobs ≡ 8 }
    ensures waiting { length result.waiting ≡ 8 }
{
    let mut jobs = from.jobs;
    let mut mask = from.mask;
    let mut waiting = from.waiting;
    let mut ready = from.ready;
    let mut place = from.place;
    let mut next = releases::pending_at(sheet, place);
    let mut tick = from.ticks;
    // No `for`: idle ticks pass in one go.
    while tick < limit {
        let release = releases::coming_at(next, tick, ready, place);
        if let Coming::Due(task, after) = release {
            let i = (task % SheetCeilings::TASKS) as usize;
            let phase = jobs[i].phase;
            let behind = waiting[i];
            arrivals::drop_by(&mut tasks[i], behind, phase);
            waiting[i] = arrivals::wait_by(behind, phase);
            mask = arrivals::begun(mask, i, phase);
            arrivals::zero_by(&mut tasks[i], phase);
            arrivals::start_by(&mut jobs[i], bounds[i]);
            ready = None;
            place = after;
            next = releases::pending_at(sheet, place);
            continue;
        }
        if releases::stops(release, mask) {
            break;
        }
        // Nobody has work: the ticks before the next release are idle.
        if mask == 0 {
            tick = releases::idled(next, tick, limit);
            continue;
        }
        // The highest task does one statement a tick; only a release or the end of its job can change who is highest.
        let p = top(mask);
        let i = p as usize;
        let until = releases::until(next, limit);
        let end = bounds[i + 1];
        let mut busy = true;
        // No `for`: the end of the job decides how many.
        while busy {
            if starting(jobs[i].phase) {
                let command = program[line(jobs[i].at)];
                begin_tick(memory, &mut tasks[i], p, &mut jobs[i], command, end);
            } else {
                step_tick(memory, &mut tasks[i], p, &mut jobs[i], end);
            }
            tick += 1;
            busy = goes_on(jobs[i].phase, tick, until);
        }
        let last = jobs[i].phase;
        mask = leaving(mask, i, last);
        let behind = waiting[i];
        ready = ready_by(ready, p, behind, last);
    }
    Paused {
        jobs,
        mask,
        waiting,
        ready,
        place,
        ticks: tick,
    }
}
