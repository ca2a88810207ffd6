#![tactic(auto)]

// The bytes of a command, written at a place of a buffer that has room for them: its byte, and its operands as wide as the table says.
ghost use Rattle.std.specs.Prelude.{◌≡◌, [], ◌+◌, ◌*◌, ◌≤◌, length};
ghost use Rattle.model.specs.Command.{access, outside, inside, body};
ghost use Rattle.model.specs.Encoding.{byte_of, encode};
ghost use Rattle.model.specs.Builder.{overwrite};
ghost use Rattle.commands.specs.View.{view_access, view_outside, view_inside, view_body_command, view_command};
ghost use Rattle.encoder.specs.Operands.{started, fours};
ghost use Rattle.encoder.specs.Operands.{outside_operands, access_operands, inside_operands, body_operands, command_operands};

use commands::ceilings::SheetCeilings;
use commands::table::entry_of;
use commands::{Access, BodyCommand, Command, Inside, Outside};

// Free functions, not methods: the commands' types are of another crate.

fn byte_of_outside(c: Outside) -> u8
    ensures { result ≡ byte_of (body (outside (view_outside c))) }
{
    match c {
        Outside::Read { .. } => 0x12,
        Outside::Pair { .. } => 0x13,
        Outside::Swap(_) => 0x14,
        Outside::Begin => 0x20,
    }
}

fn byte_of_access(a: Access) -> u8
    ensures { result ≡ byte_of (body (inside (access (view_access a)))) }
{
    match a {
        Access::Get { .. } => 0x21,
        Access::Put { .. } => 0x22,
    }
}

fn byte_of_inside(c: Inside) -> u8
    ensures { result ≡ byte_of (body (inside (view_inside c))) }
{
    match c {
        Inside::Access(a) => byte_of_access(a),
        Inside::Commit => 0x23,
    }
}

fn byte_of_body(c: BodyCommand) -> u8
    ensures { result ≡ byte_of (body (view_body_command c)) }
{
    match c {
        BodyCommand::Load { .. } => 0x10,
        BodyCommand::Add { .. } => 0x11,
        BodyCommand::Outside(o) => byte_of_outside(o),
        BodyCommand::Inside(i) => byte_of_inside(i),
    }
}

fn byte_of(c: Command) -> u8
    ensures { result ≡ byte_of (view_command [] c) }
{
    match c {
        Command::Word(_) => 0x01,
        Command::Block(_) => 0x02,
        Command::Task => 0x03,
        Command::Release(_) => 0x04,
        Command::End => 0x05,
        Command::Body(b) => byte_of_body(b),
    }
}

// How many bytes the command has, by the table.
pub fn size(c: Command, values: [u32; SheetCeilings::BLOCK_VALUES]) -> usize
    ensures { result ≡ length (encode (view_command values c)) }
{
    let Some(e) = entry_of(byte_of(c)) else {
        return 1;
    };
    // The proof learns an array's length from its slice.
    let _eight: &[u32] = &values;
    1 + e.width as usize
}

// Writes the bytes at the start of the buffer.
fn put(buffer: &mut [u8], bytes: &[u8])
    requires { length bytes.now ≤ length buffer.old }
    ensures { buffer.new ≡ started bytes.now buffer.old }
{
    buffer[..bytes.len()].copy_from_slice(bytes);
}

fn put_values(buffer: &mut [u8], values: &[u32])
    requires { 4 * length values.now ≤ length buffer.old }
    ensures { buffer.new ≡ started (fours values.now) buffer.old }
{
    for (i, value) in values.iter().enumerate() {
        put(&mut buffer[4 * i..], &value.to_be_bytes());
    }
}

fn operands_outside(buffer: &mut [u8], c: Outside)
    requires { length (outside_operands (view_outside c)) ≤ length buffer.old }
    ensures { buffer.new ≡ started (outside_operands (view_outside c)) buffer.old }
{
    match c {
        Outside::Read { register, word } => put(buffer, &[register, word]),
        Outside::Pair { word, old, new } => put(buffer, &[word, old, new]),
        Outside::Swap(register) => put(buffer, &[register]),
        Outside::Begin => {}
    }
}

fn operands_access(buffer: &mut [u8], a: Access)
    requires { length (access_operands (view_access a)) ≤ length buffer.old }
    ensures { buffer.new ≡ started (access_operands (view_access a)) buffer.old }
{
    match a {
        Access::Get {
            register,
            block,
            offset,
        } => put(buffer, &[register, block, offset]),
        Access::Put {
            block,
            offset,
            register,
        } => put(buffer, &[block, offset, register]),
    }
}

fn operands_inside(buffer: &mut [u8], c: Inside)
    requires { length (inside_operands (view_inside c)) ≤ length buffer.old }
    ensures { buffer.new ≡ started (inside_operands (view_inside c)) buffer.old }
{
    match c {
        Inside::Access(a) => operands_access(buffer, a),
        Inside::Commit => {}
    }
}

fn operands_body(buffer: &mut [u8], c: BodyCommand)
    requires { length (body_operands (view_body_command c)) ≤ length buffer.old }
    ensures { buffer.new ≡ started (body_operands (view_body_command c)) buffer.old }
{
    match c {
        BodyCommand::Load { register, value } => {
            put(buffer, &[register]);
            put(&mut buffer[1..], &value.to_be_bytes());
        }
        BodyCommand::Add { register, other } => put(buffer, &[register, other]),
        BodyCommand::Outside(o) => operands_outside(buffer, o),
        BodyCommand::Inside(i) => operands_inside(buffer, i),
    }
}

// The operands of a command, a BLOCK's values after its version.
fn operands(buffer: &mut [u8], c: Command, values: &[u32])
    requires { length (command_operands (view_command values.now c)) ≤ length buffer.old }
    ensures { buffer.new ≡ started (command_operands (view_command values.now c)) buffer.old }
{
    match c {
        Command::Word(value) => put(buffer, &value.to_be_bytes()),
        Command::Block(version) => {
            put(buffer, &version.to_be_bytes());
            put_values(&mut buffer[4..], values);
        }
        Command::Task | Command::End => {}
        Command::Release(r) => {
            // Two bytes hold the tick.
            let [_, _, high, low] = r.tick.to_be_bytes();
            put(buffer, &[high, low, r.task]);
        }
        Command::Body(b) => operands_body(buffer, b),
    }
}

// The bytes of a command, where the buffer has room for them. Here the buffer and a place come together once: the rest is lent on.
pub fn write(buffer: &mut [u8], at: usize, c: Command, values: [u32; SheetCeilings::BLOCK_VALUES])
    requires { at + length (encode (view_command values c)) ≤ length buffer.old }
    ensures { buffer.new ≡ overwrite buffer.old at (encode (view_command values c)) }
{
    let rest = &mut buffer[at..];
    put(rest, &[byte_of(c)]);
    operands(&mut rest[1..], c, &values);
}
