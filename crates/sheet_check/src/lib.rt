#![tactic(auto)]

// The sheet check through the reader: commands are handed out one after another, and the first fault in byte order ends the reading.
ghost use Rattle.std.specs.Prelude.{◌≡◌, IfOk};
ghost use Rattle.model.specs.Sheet.{verdict};
ghost use Rattle.model.specs.Answer.{check_answer};
ghost use Rattle.sheet.specs.View.{view_verdict, checked_of};
ghost use Rattle.sheet_check.specs.Accepting.{outcome_of};

use commands::Fault;
use reader::Reader;
use rules::known::Known;
use sheet::check::judge;
use sheet::checked::Accepted;
use sheet::learned;

// The first fault in byte order of the commands that a reader over the sheet hands out.
pub fn first_fault(sheet: &[u8]) -> Result<(), Fault>
    ensures { view_verdict result ≡ verdict sheet.now }
{
    let mut reader = Reader::over(sheet);
    let mut known = Known::nothing();
    // No `for`: a command says where the next one stands.
    loop {
        let at = reader.at;
        let answer = reader.next();
        let Ok((c, next)) = answer else {
            // The fault passes on.
            return answer.map(|_| ());
        };
        if let Some(verdict) = judge(sheet, at, known, c, next) {
            return verdict;
        }
        learned::learn(&mut known, c);
    }
}

// Bytes that pass the check as an accepted sheet, or their first fault.
pub fn accept(bytes: &[u8]) -> Result<Accepted<'_>, Fault>
    ensures outcome { view_verdict (outcome_of result) ≡ verdict bytes.now }
    ensures same { IfOk result (λ a. a.bytes ≡ bytes.entry) }
{
    first_fault(bytes)?;
    Ok(Accepted::new(bytes))
}

// The public check of any bytes.
pub fn check(sheet: &[u8]) -> Result<(), Fault>
    ensures { checked_of result ≡ check_answer sheet.now }
{
    first_fault(sheet)
}
