#![tactic(auto)]

// The C entries (include/hizgrael.h): engine's exports under C's names, with the same clauses.
ghost use Rattle.engine.specs.Contract.{ChecksFor, RunsFor};

use engine::exports;

#[unsafe(no_mangle)]
pub extern "C" fn hizgrael_check(sheet: &[u8], place: &mut u64) -> u8
    ensures { ChecksFor sheet.now result place.new }
{
    exports::hizgrael_check(sheet, place)
}

#[unsafe(no_mangle)]
pub extern "C" fn hizgrael_run(sheet: &[u8], limit: u64, report: &mut [u8], place: &mut u64) -> u8
    ensures { RunsFor sheet.now limit report.old report.new result place.new }
{
    exports::hizgrael_run(sheet, limit, report, place)
}
