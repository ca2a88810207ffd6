// What a C caller calls (include/hizgrael.h), by the exports of engine_c: a slice is a pointer and a length; `place` takes the answer's
// place.
ghost use Rattle.std.specs.Prelude.{◌≡◌};
ghost use Rattle.engine.specs.Contract.{ChecksFor, RunsFor, number_of, place_of};

use crate::{check, run};
use commands::Fault;

// Number and place, as C has them.
fn answer(outcome: Result<usize, Fault>, place: &mut u64) -> u8
    ensures number { result ≡ number_of outcome }
    ensures place { place.new ≡ place_of outcome }
{
    let (number, at) = match outcome {
        Ok(length) => (0, length),
        Err(fault) => (fault.refusal.into(), fault.place),
    };
    *place = at as u64;
    number
}

pub fn hizgrael_check(sheet: &[u8], place: &mut u64) -> u8
    ensures { ChecksFor sheet.now result place.new }
{
    answer(check(sheet).map(|()| 0), place)
}

pub fn hizgrael_run(sheet: &[u8], limit: u64, report: &mut [u8], place: &mut u64) -> u8
    ensures { RunsFor sheet.now limit report.old report.new result place.new }
{
    answer(run(sheet, limit, report), place)
}
