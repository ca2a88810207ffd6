#![tactic(auto)]

// The commands of the run sheet, and the command at a place of a lent sheet.
ghost use Rattle.std.specs.Prelude.{◌≡◌, suc, ◌+◌, ◌≤◌, length, get_or};
ghost use Rattle.model.specs.Command.{big_endian, command_at};
ghost use Rattle.commands.specs.View.{view_command, view_decoded};
ghost use Rattle.commands.specs.Stages.{command_of, EntrySays, values_from};

use crate::ceilings::SheetCeilings;
use crate::table::{Entry, entry_of};
use std::fmt;

pub mod ceilings;
pub mod table;

// The tick has 32 bits, though two bytes hold it: so the operands of all commands lie at one place of the enum.
#[derive(Clone, Copy, Debug, PartialEq, Eq, PartialOrd, Ord)]
pub struct Release {
    pub tick: u32,
    pub task: u8,
}

#[derive(Clone, Copy, Debug, PartialEq, Eq)]
pub enum Access {
    Get { register: u8, block: u8, offset: u8 },
    Put { block: u8, offset: u8, register: u8 },
}

// What stands only outside a transaction.
#[derive(Clone, Copy, Debug, PartialEq, Eq)]
pub enum Outside {
    Read { register: u8, word: u8 },
    Pair { word: u8, old: u8, new: u8 },
    Swap(u8),
    Begin,
}

// What stands only inside one.
#[derive(Clone, Copy, Debug, PartialEq, Eq)]
pub enum Inside {
    Access(Access),
    Commit,
}

// What stands only in a body.
#[derive(Clone, Copy, Debug, PartialEq, Eq)]
pub enum BodyCommand {
    Load { register: u8, value: u32 },
    Add { register: u8, other: u8 },
    Outside(Outside),
    Inside(Inside),
}

// BLOCK carries its version; `values` gives its eight values in an array beside it.
#[derive(Clone, Copy, Debug, PartialEq, Eq)]
pub enum Command {
    Word(u32),
    Block(u32),
    Task,
    Release(Release),
    End,
    Body(BodyCommand),
}

// Each has its number in documents 01 and 02.
#[derive(Clone, Copy, Debug, PartialEq, Eq)]
pub enum Refusal {
    NoCommand = 1,
    CutShort,
    ByteAfterEnd,
    Misplaced,
    CeilingPassed,
    OutOfRange,
    WordRepeated,
    ReleasesNotRising,
    LimitTooHigh,
    BufferTooShort,
    BufferFull,
}

#[derive(Clone, Copy, Debug, PartialEq, Eq)]
pub struct Fault {
    pub refusal: Refusal,
    pub place: usize,
}

impl From<Refusal> for u8 {
    ghost use Rattle.std.specs.Prelude.{◌≡◌};
    ghost use Rattle.model.specs.Refusal.{number};
    ghost use Rattle.commands.specs.View.{view_refusal};

    ghost from_gives = { λ f n. n ≡ number (view_refusal f) };

    fn from(f: Refusal) -> u8 {
        f as u8
    }
}

impl fmt::Display for Fault {
    ghost use Rattle.std.specs.Prelude.{Some};
    ghost use Rattle.commands.specs.View.{fault_text};

    ghost output = { λ f. Some (fault_text f) };

    fn fmt<W: fmt::Write>(&self, f: &mut fmt::Formatter<W>) -> fmt::Result {
        write!(f, "{} {}", u8::from(self.refusal), self.place)
    }
}

// The byte at a place, 0 past the end: as state's `element`, but neither crate stands on the other.
pub fn byte(s: &[u8], at: usize) -> u8
    ensures { result ≡ get_or s.now at 0 }
{
    s.get(at).copied().unwrap_or(0)
}

// The big-endian number in N bytes.
pub fn value<const N: usize>(s: &[u8], at: usize) -> u32
    requires place { at ≤ length s.now + 36 }
    requires fits { N ≤ 4 }
    ensures { result ≡ big_endian s.now at N }
{
    let mut v = 0;
    for i in 0..N {
        v = v * 256 + byte(s, at + i) as u32;
    }
    v
}

// The eight values of a BLOCK whose operands start at p. Written out: a closure would hide the eight places in `p + 4 * i + 4`.
pub fn values(s: &[u8], p: usize) -> [u32; SheetCeilings::BLOCK_VALUES]
    requires { p ≤ length s.now }
    ensures { result ≡ values_from s.now p }
{
    [
        value::<4>(s, p + 4),
        value::<4>(s, p + 8),
        value::<4>(s, p + 12),
        value::<4>(s, p + 16),
        value::<4>(s, p + 20),
        value::<4>(s, p + 24),
        value::<4>(s, p + 28),
        value::<4>(s, p + 32),
    ]
}

// The entry of the command at a place: 1 for no command, 2 for an end before or inside the command.
fn entry_at(s: &[u8], at: usize) -> Result<Entry, Fault>
    ensures { EntrySays s.now at result }
{
    let Some(b) = s.get(at) else {
        return Err(Fault {
            refusal: Refusal::CutShort,
            place: s.len(),
        });
    };
    let Some(e) = entry_of(*b) else {
        return Err(Fault {
            refusal: Refusal::NoCommand,
            place: at,
        });
    };
    if s.len() - (at + 1) < e.width as usize {
        return Err(Fault {
            refusal: Refusal::CutShort,
            place: at,
        });
    }
    Ok(e)
}

// The command of a byte, its operands starting at p; END where the byte names none. A match over the byte, as document 01 has it.
fn command_of(s: &[u8], p: usize, b: u8) -> Command
    requires { p ≤ length s.now }
    ensures { view_command (values_from s.now p) result ≡ command_of s.now p b }
{
    match b {
        0x01 => Command::Word(value::<4>(s, p)),
        0x02 => Command::Block(value::<4>(s, p)),
        0x03 => Command::Task,
        0x04 => Command::Release(Release {
            tick: value::<2>(s, p),
            task: byte(s, p + 2),
        }),
        0x05 => Command::End,
        0x10 => Command::Body(BodyCommand::Load {
            register: byte(s, p),
            value: value::<4>(s, p + 1),
        }),
        0x11 => Command::Body(BodyCommand::Add {
            register: byte(s, p),
            other: byte(s, p + 1),
        }),
        0x12 => Command::Body(BodyCommand::Outside(Outside::Read {
            register: byte(s, p),
            word: byte(s, p + 1),
        })),
        0x13 => Command::Body(BodyCommand::Outside(Outside::Pair {
            word: byte(s, p),
            old: byte(s, p + 1),
            new: byte(s, p + 2),
        })),
        0x14 => Command::Body(BodyCommand::Outside(Outside::Swap(byte(s, p)))),
        0x20 => Command::Body(BodyCommand::Outside(Outside::Begin)),
        0x21 => Command::Body(BodyCommand::Inside(Inside::Access(Access::Get {
            register: byte(s, p),
            block: byte(s, p + 1),
            offset: byte(s, p + 2),
        }))),
        0x22 => Command::Body(BodyCommand::Inside(Inside::Access(Access::Put {
            block: byte(s, p),
            offset: byte(s, p + 1),
            register: byte(s, p + 2),
        }))),
        0x23 => Command::Body(BodyCommand::Inside(Inside::Commit)),
        _ => Command::End,
    }
}

// The command at a place of the sheet. It and the place after it are made apart: the one from the byte, the other from
// the table's width.
pub fn decode(s: &[u8], at: usize) -> Result<(Command, usize), Fault>
    ensures { view_decoded (values_from s.now (suc at)) result ≡ command_at s.now at }
{
    let entry = entry_at(s, at);
    let Ok(e) = entry else {
        // The fault passes on.
        return entry.map(|_| (Command::End, at));
    };
    let next = at + 1 + e.width as usize;
    Ok((command_of(s, at + 1, e.byte), next))
}
