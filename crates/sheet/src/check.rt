// The judgement of one command at its place: a fault, the end of the reading, or neither.
ghost use Rattle.std.specs.Prelude.{◌≡◌, [], ltb};
ghost use Rattle.model.specs.Sheet.{end?, at_end};
ghost use Rattle.commands.specs.View.{view_command};
ghost use Rattle.rules.specs.View.{view_known};
ghost use Rattle.sheet.specs.View.{view_verdict};
ghost use Rattle.sheet.specs.Judgement.{JudgedSays};

use commands::{Command, Fault, Refusal};
use rules::known::Known;

pub fn is_end(c: Command) -> bool
    ensures { result ≡ end? (view_command [] c) }
{
    matches!(c, Command::End)
}

// A byte may not follow END.
#[tactic(auto, unfolding(model::specs::Sheet::at_end))]
fn at_end(next: usize, size: usize) -> Result<(), Fault>
    ensures { view_verdict result ≡ at_end (ltb next size) next }
{
    if next < size {
        return Err(Fault {
            refusal: Refusal::ByteAfterEnd,
            place: next,
        });
    }
    Ok(())
}

// The verdict with which a command ends the reading, if it does: at its fault, or after END; `next` is the place after the command.
pub fn judge(
    sheet: &[u8],
    at: usize,
    k: Known,
    c: Command,
    next: usize,
) -> Option<Result<(), Fault>>
    ensures { JudgedSays sheet.now at (view_known k) (view_command [] c) next result }
{
    if let Some(refusal) = k.fault(c) {
        Some(Err(Fault { refusal, place: at }))
    } else if is_end(c) {
        Some(at_end(next, sheet.len()))
    } else {
        None
    }
}
