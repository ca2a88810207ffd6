// What a C caller calls (include/hizgrael.h), by the export of builder_c: a slice is a pointer and a length; `place` takes the answer's
// place.
ghost use Rattle.builder.specs.Contract.{ComposesBytes};

use crate::compose_handed;
use crate::handed::OPERANDS;
use crate::packed::{ROW, ROWS, pack, unpack};

pub fn hizgrael_compose(
    state: &mut [[u8; ROW]; ROWS],
    buffer: &mut [u8],
    command: u8,
    operands: &[u32; OPERANDS],
    place: &mut u64,
) -> u8
    ensures { ComposesBytes state.old buffer.old command operands.now result place.new state.new buffer.new }
{
    match compose_handed(unpack(*state), buffer, command, operands) {
        Ok(next) => {
            *place = next.filled as u64;
            *state = pack(next);
            0
        }
        Err(f) => {
            *place = f.place as u64;
            f.refusal.into()
        }
    }
}
