#![tactic(auto)]

// The commands of the bodies of an accepted sheet, decoded once, one behind the other, and the line where each body starts.
ghost use Rattle.std.specs.Prelude.{◌≡◌};
ghost use Rattle.program.specs.Program.{Programmed};

use commands::ceilings::SheetCeilings;
use commands::{BodyCommand, Command, Inside};
use sheet::checked::Accepted;

// The ceiling of body commands in all.
pub const MAX_COMMANDS: usize = SheetCeilings::COMMANDS as usize;

// bounds[p] is the first line of body p, bounds[p + 1] the line after its last. One pass over the sheet, up to the first release or
// END: a bound is set where its body opens, the last one where the bodies are over.
pub fn program(sheet: Accepted, bounds: &mut [usize; 9]) -> [BodyCommand; MAX_COMMANDS]
    ensures { Programmed sheet.entry.bytes.now result bounds.new }
{
    let sheet = sheet.bytes();
    *bounds = [0; 9];
    // Any command fills the lines behind the last body: COMMIT has no operands, so it costs least.
    let mut program = [BodyCommand::Inside(Inside::Commit); MAX_COMMANDS];
    let mut at = 0;
    let mut tasks: usize = 0;
    let mut lines: usize = 0;
    // No `for`: a command says where the next one stands, and counts as a task or as a line. Both arrays are fixed memory.
    loop {
        // Each command of an accepted sheet is found: the else is never taken.
        let Ok((command, next)) = commands::decode(sheet, at) else {
            return program;
        };
        at = next;
        match command {
            Command::Word(_) | Command::Block(_) => {}
            Command::Task => {
                bounds[tasks] = lines;
                tasks += 1;
            }
            Command::Release(_) | Command::End => {
                bounds[tasks] = lines;
                return program;
            }
            Command::Body(c) => {
                program[lines] = c;
                lines += 1;
            }
        }
    }
}
