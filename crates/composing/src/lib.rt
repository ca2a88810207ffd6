#![tactic(auto)]

// The sheet builder: a command is judged as the reader judges it, and its bytes are written behind the filled part of a lent buffer.
ghost use Rattle.std.specs.Prelude.{◌≡◌, ◌+◌, ltb};
ghost use Rattle.commands.specs.View.{view_command, view_refusal};
ghost use Rattle.model.specs.Builder as builder;
ghost use Rattle.composing.specs.View.{view_state};
ghost use Rattle.composing.specs.Composes.{Composes, Declined};

use commands::ceilings::SheetCeilings;
use commands::{Command, Fault, Refusal};
use rules::known::Known;
use sheet::check::is_end;
use sheet::learned;

// What the last call left beside the buffer: what the reader knows after the filled part, its length, and whether END is taken.
#[derive(Clone, Copy)]
pub struct BuilderState {
    pub known: Known,
    pub filled: usize,
    pub ended: bool,
}

impl BuilderState {
    pub fn nothing_filled() -> BuilderState
        ensures { view_state result ≡ builder.nothing_filled }
    {
        BuilderState {
            known: Known::nothing(),
            filled: 0,
            ended: false,
        }
    }

    // A refusal lies at the filled length.
    pub fn refused(self, refusal: Refusal) -> Fault
        ensures { Declined (view_refusal refusal) (view_state self) result }
    {
        Fault {
            refusal,
            place: self.filled,
        }
    }
}

// Whether fewer bytes are free than a command has.
fn is_full(length: usize, filled: usize, size: usize) -> bool
    ensures { result ≡ ltb length (filled + size) }
{
    length < filled || length - filled < size
}

// One more command: the state for the next call, or a refusal, after which state and buffer stay.
pub fn compose(
    state: BuilderState,
    buffer: &mut [u8],
    c: Command,
    values: [u32; SheetCeilings::BLOCK_VALUES],
) -> Result<BuilderState, Fault>
    ensures { Composes (view_state state) buffer.old (view_command values c) result buffer.new }
{
    if state.ended {
        return Err(state.refused(Refusal::ByteAfterEnd));
    }
    if let Some(refusal) = state.known.fault(c) {
        return Err(state.refused(refusal));
    }
    let size = encoder::size(c, values);
    if is_full(buffer.len(), state.filled, size) {
        return Err(state.refused(Refusal::BufferFull));
    }
    encoder::write(buffer, state.filled, c, values);
    Ok(BuilderState {
        known: learned::after(state.known, c),
        filled: state.filled + size,
        ended: is_end(c),
    })
}
