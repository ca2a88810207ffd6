#![tactic(auto)]

// The report of a finished run, in the caller's buffer. The same code first finds the report's length and then writes it.
mod text;

ghost use Rattle.std.specs.Prelude.{◌≡◌, [], map, ◌≤◌, ◌<◌, length};
ghost use Rattle.model.specs.Ceilings.{max_blocks, max_tasks};
ghost use Rattle.model.specs.Lists.{at};
ghost use Rattle.model.specs.Word.{current_of};
ghost use Rattle.model.specs.Report.{block_line};
ghost use Rattle.state.specs.State.{shared, own};
ghost use Rattle.state.specs.Held.{memory_of};
ghost use Rattle.report.specs.Writing.{Room, Written, Wrote};
ghost use Rattle.report.specs.Text.{lines_of_task, task_most, report_text, report_most, Reported};

use commands::ceilings::{SheetCeilings, TaskCeilings};
use exchanges::{places, read};
use state::{Memory, Task};
use text::Writer;

// The most words, blocks and tasks that a report tells of.
const WORDS: usize = SheetCeilings::WORDS as usize;

const BLOCKS: usize = SheetCeilings::BLOCKS as usize;

const TASKS: usize = SheetCeilings::TASKS as usize;

// How many values there are in a block store.
const VALUES: usize = SheetCeilings::BLOCK_VALUES;

// How many of a task's counts its T line shows.
const SHOWN: usize = 5;

// How many words, blocks and tasks the sheet declares, and the ticks done.
// Not start's Counts, which hold the sheet: report does not know start.
#[derive(Clone, Copy)]
pub struct Totals {
    pub words: usize,
    pub blocks: usize,
    pub tasks: usize,
    pub now: u32,
}

// The current value of a cell that there is.
fn contents(memory: &Memory, cell: usize) -> u32
    requires { cell < 48 }
    ensures { result ≡ current_of (memory_of (shared memory.now)) cell }
{
    // For the proof: a cell that there is, is in the array.
    memory.sized();
    read::current(memory, cell)
}

// The values of a block store; a store that there is not has none.
fn values(memory: &Memory, store: u32) -> &[u32]
    ensures values { result.now ≡ at [] (memory_of (shared memory.now)).stores store }
    ensures most { length result.now ≤ 8 }
{
    let start = places::slot(store, 0);
    memory
        .stores()
        .get(start..start + VALUES)
        .unwrap_or_default()
}

// Version and values by the bank word's current value.
fn block(out: &mut Writer, memory: &Memory, b: usize)
    requires { (b < max_blocks) × Room out.old 112 }
    ensures { Wrote 112 (block_line (memory_of (shared memory.now)) b) out.old out.new }
{
    let bank = contents(memory, WORDS + b);
    out.line(b'B', &[b as u32, bank / 256], values(memory, bank % 256));
}

// The T line and the R line of a task.
fn task(out: &mut Writer, task: &Task, p: usize)
    requires { (p < max_tasks) × Room out.old task_most }
    ensures { Wrote task_most (lines_of_task p (own task.now)) out.old out.new }
{
    let number = [p as u32];
    out.line(b'T', &number, &task.counts()[..SHOWN]);
    out.line(b'R', &number, task.registers());
}

// The whole report, as far as the buffer goes; returns its length.
fn write(buffer: &mut [u8], memory: &Memory, tasks: &[Task; 8], totals: Totals) -> usize
    ensures { Written report_most (report_text (shared memory.now) (map own tasks.now) totals) buffer.old buffer.new 0 result }
{
    let words = totals.words.min(WORDS);
    let mut out = Writer::new(buffer);
    // A loop each: one that takes the line as a closure needs clauses on what every call may need and write, longer than the three.
    for w in 0..words {
        out.line(b'W', &[w as u32, contents(memory, w)], &[]);
    }
    for b in 0..totals.blocks.min(BLOCKS) {
        block(&mut out, memory, b);
    }
    for p in 0..totals.tasks.min(TASKS) {
        task(&mut out, &tasks[p], p);
    }
    out.line(b'E', &[totals.now], &[]);
    out.place()
}

// The report's length. If the buffer is as long, the report stands at its start, and nothing else in it is changed; if not, nothing is.
pub fn report(memory: &Memory, tasks: &[Task; 8], totals: Totals, buffer: &mut [u8]) -> usize
    ensures { Reported (report_text (shared memory.now) (map own tasks.now) totals) buffer.old buffer.new result }
{
    let needed = write(&mut buffer[..0], memory, tasks, totals);
    let fits = needed <= buffer.len();
    if fits {
        write(buffer, memory, tasks, totals)
    } else {
        needed
    }
}
