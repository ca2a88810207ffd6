// A command handed over by its byte and nine operands, as a C caller has them.
ghost use Rattle.std.specs.Prelude.{◌≡◌, min};
ghost use Rattle.commands.specs.View.{view_command};
ghost use Rattle.model.specs.Builder.{handed};
ghost use Rattle.builder.specs.Handed.{values_of, command_or, view_handed};

use commands::ceilings::SheetCeilings;
use commands::{Access, BodyCommand, Command, Inside, Outside, Release};

// One more than BLOCK's values: its version stands before them.
pub const OPERANDS: usize = 9;

// An operand of one byte; a larger one counts as 255, which is out of every range.
fn narrowed(v: u32) -> u8
    ensures { result ≡ min v 255 }
{
    v.min(255) as u8
}

// BLOCK's values. One by one, as the check does not cover a pattern `[_, values @ ..]` on a lent array yet.
pub fn values(o: &[u32; OPERANDS]) -> [u32; SheetCeilings::BLOCK_VALUES]
    ensures { result ≡ values_of o.now }
{
    [o[1], o[2], o[3], o[4], o[5], o[6], o[7], o[8]]
}

// The command of a byte; END where the byte names none.
pub fn command(b: u8, o: &[u32; OPERANDS]) -> Command
    ensures { view_command (values_of o.now) result ≡ command_or (handed b o.now) }
{
    named(b, o).unwrap_or(Command::End)
}

// The command of a byte, if it names one: a match over the byte, as document 01 has it.
#[tactic(auto, unfolding(model::specs::Builder::handed, model::specs::Command::row_by, model::specs::Command::row_of, model::specs::Command::table))]
pub fn named(b: u8, o: &[u32; OPERANDS]) -> Option<Command>
    ensures { view_handed (values_of o.now) result ≡ handed b o.now }
{
    Some(match b {
        0x01 => Command::Word(o[0]),
        0x02 => Command::Block(o[0]),
        0x03 => Command::Task,
        0x04 => Command::Release(Release {
            tick: o[0],
            task: narrowed(o[1]),
        }),
        0x05 => Command::End,
        0x10 => Command::Body(BodyCommand::Load {
            register: narrowed(o[0]),
            value: o[1],
        }),
        0x11 => Command::Body(BodyCommand::Add {
            register: narrowed(o[0]),
            other: narrowed(o[1]),
        }),
        0x12 => Command::Body(BodyCommand::Outside(Outside::Read {
            register: narrowed(o[0]),
            word: narrowed(o[1]),
        })),
        0x13 => Command::Body(BodyCommand::Outside(Outside::Pair {
            word: narrowed(o[0]),
            old: narrowed(o[1]),
            new: narrowed(o[2]),
        })),
        0x14 => Command::Body(BodyCommand::Outside(Outside::Swap(narrowed(o[0])))),
        0x20 => Command::Body(BodyCommand::Outside(Outside::Begin)),
        0x21 => Command::Body(BodyCommand::Inside(Inside::Access(Access::Get {
            register: narrowed(o[0]),
            block: narrowed(o[1]),
            offset: narrowed(o[2]),
        }))),
        0x22 => Command::Body(BodyCommand::Inside(Inside::Access(Access::Put {
            block: narrowed(o[0]),
            offset: narrowed(o[1]),
            register: narrowed(o[2]),
        }))),
        0x23 => Command::Body(BodyCommand::Inside(Inside::Commit)),
        _ => return None,
    })
}
