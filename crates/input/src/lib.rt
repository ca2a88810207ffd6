#![tactic(auto)]

// Standard input, read into a fixed buffer of the caller: so the programs that use it need no heap, and assume nothing about one.
ghost use Rattle.std.specs.Prelude.{◌≤◌, IfOk, length};

use std::io::{self, Read};

// Fills the buffer as far as the input goes; answers how much of it.
pub fn read_full(rt: &HostRuntime, buffer: &mut [u8]) -> io::Result<usize>
    ensures { IfOk result (λ n. n ≤ length buffer.new) }
{
    let mut input = rt.stdin();
    let mut filled = 0;
    for _ in 0..buffer.len() {
        let more = input.read(&mut buffer[filled..])?;
        if more == 0 {
            break;
        }
        filled += more;
    }
    Ok(filled)
}
