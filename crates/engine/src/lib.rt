#![tactic(auto)]

// The two public entries: the sheet check, and the run of a sheet to its report in the caller's buffer. Neither has a precondition.
ghost use Rattle.std.specs.Prelude.{◌≡◌, ◌≤◌};
ghost use Rattle.engine.specs.Contract.{Checks, Runs};
ghost use Rattle.engine.specs.Flat.{Ran};

use commands::ceilings::RunCeilings;
use commands::{Fault, Refusal};
use machine::run::Paused;
use report::Totals;
use sheet::checked::Accepted;
use start::counts::Counts;

pub mod exports;

// Nothing, or the first fault of the sheet.
pub fn check(sheet: &[u8]) -> Result<(), Fault>
    ensures { Checks sheet.now result }
{
    sheet_check::check(sheet)
}

// The run of an accepted sheet; answers the report's length. All that a run keeps stands on the stack: 2,208 bytes that all tasks share,
// 3,520 for the tasks' records, 4,096 for the program, some 600 for the index and the jobs.
fn run_accepted(sheet: Accepted, limit: u32, buffer: &mut [u8]) -> usize
    ensures { Ran sheet.entry.bytes.now limit buffer.old buffer.new result }
{
    let x = sheet.index();
    let n = Counts::of(sheet, &x);
    let mut memory = start::memory(&n);
    let mut tasks = start::tasks();
    let mut bounds = [0usize; 9];
    let program = program::program(sheet, &mut bounds);
    let from = Paused::start(x.released);
    let ended = machine::run::run(
        sheet.bytes(),
        program,
        &bounds,
        &mut memory,
        &mut tasks,
        from,
        limit,
    );
    let totals = Totals {
        words: n.words,
        blocks: n.blocks,
        tasks: n.tasks,
        now: ended.ticks,
    };
    report::report(&memory, &tasks, totals, buffer)
}

// The report's length. Sheet faults go before 9, and 9 before 10. A refusal leaves the buffer unchanged.
pub fn run(sheet: &[u8], limit: u64, buffer: &mut [u8]) -> Result<usize, Fault>
    ensures { Runs sheet.now limit buffer.old buffer.new result }
{
    let accepted = sheet_check::accept(sheet)?;
    let too_high = RunCeilings::LIMIT < limit;
    if too_high {
        return Err(Fault {
            refusal: Refusal::LimitTooHigh,
            place: 0,
        });
    }
    let room = buffer.len();
    let needed = run_accepted(accepted, limit as u32, buffer);
    if room < needed {
        return Err(Fault {
            refusal: Refusal::BufferTooShort,
            place: needed,
        });
    }
    Ok(needed)
}
