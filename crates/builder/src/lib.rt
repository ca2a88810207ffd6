#![tactic(auto)]

// The sheet builder's entry: one more command of a sheet, by value or as a C caller hands it over: by its byte and nine operands, with the
// state in 64 bytes. A library of its own: in one module with the check, LLVM would take the rules into neither, and the check would take
// twice its time.
ghost use Rattle.model.specs.Builder as builder;
ghost use Rattle.commands.specs.View.{view_command};
ghost use Rattle.composing.specs.View.{view_state};
ghost use Rattle.builder.specs.Handed.{ComposesHanded};
ghost use Rattle.builder.specs.Contract.{Composes};

use crate::handed::OPERANDS;
use commands::ceilings::SheetCeilings;
use commands::{Command, Fault, Refusal};
use composing::BuilderState;

pub mod exports;
pub mod handed;
pub mod packed;

// One more command: its bytes behind the filled part of the buffer, and the state for the next call; or a refusal that changes nothing.
// A BLOCK's values lie beside it.
pub fn compose(
    state: BuilderState,
    buffer: &mut [u8],
    c: Command,
    values: [u32; SheetCeilings::BLOCK_VALUES],
) -> Result<BuilderState, Fault>
    ensures { Composes (view_state state) buffer.old (view_command values c) result buffer.new }
{
    composing::compose(state, buffer, c, values)
}

// The same by byte and operands: 1 where the byte names no command.
pub fn compose_handed(
    state: BuilderState,
    buffer: &mut [u8],
    b: u8,
    operands: &[u32; OPERANDS],
) -> Result<BuilderState, Fault>
    ensures { ComposesHanded (view_state state) buffer.old (builder.handed b operands.now) result buffer.new }
{
    if let Some(c) = handed::named(b, operands) {
        return composing::compose(state, buffer, c, handed::values(operands));
    }
    if state.ended {
        return Err(state.refused(Refusal::ByteAfterEnd));
    }
    Err(state.refused(Refusal::NoCommand))
}
