#![tactic(auto)]

// The C entry (include/hizgrael.h): builder's export under C's name, with the same clauses.
ghost use Rattle.builder.specs.Contract.{ComposesBytes};

use builder::exports;
use builder::handed::OPERANDS;
use builder::packed::{ROW, ROWS};

#[unsafe(no_mangle)]
pub extern "C" fn hizgrael_compose(
    state: &mut [[u8; ROW]; ROWS],
    buffer: &mut [u8],
    command: u8,
    operands: &[u32; OPERANDS],
    place: &mut u64,
) -> u8
    ensures { ComposesBytes state.old buffer.old command operands.now result place.new state.new buffer.new }
{
    exports::hizgrael_compose(state, buffer, command, operands, place)
}
