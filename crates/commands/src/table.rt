// THE table of the command bytes, with how many operand bytes follow each, and the search for a byte in it.
ghost use Rattle.std.specs.Prelude.{◌≡◌};
ghost use Rattle.commands.specs.Table.{entry_in, entry_of};

// A command byte, and how many operand bytes follow it.
#[derive(Clone, Copy, Debug, PartialEq, Eq)]
pub struct Entry {
    pub byte: u8,
    pub width: u8,
}

pub const TABLE: [Entry; 14] = [
    Entry {
        byte: 0x01,
        width: 4,
    },
    Entry {
        byte: 0x02,
        width: 36,
    },
    Entry {
        byte: 0x03,
        width: 0,
    },
    Entry {
        byte: 0x04,
        width: 3,
    },
    Entry {
        byte: 0x05,
        width: 0,
    },
    Entry {
        byte: 0x10,
        width: 5,
    },
    Entry {
        byte: 0x11,
        width: 2,
    },
    Entry {
        byte: 0x12,
        width: 2,
    },
    Entry {
        byte: 0x13,
        width: 3,
    },
    Entry {
        byte: 0x14,
        width: 1,
    },
    Entry {
        byte: 0x20,
        width: 0,
    },
    Entry {
        byte: 0x21,
        width: 3,
    },
    Entry {
        byte: 0x22,
        width: 3,
    },
    Entry {
        byte: 0x23,
        width: 0,
    },
];

// Where the entries of body commands start.
const FIRST_BODY_ENTRY: usize = 5;

// The first of these entries that has the byte: a `for`, as its definition goes, where an iterator's `find` would be as long.
fn find(b: u8, entries: &[Entry]) -> Option<Entry>
    ensures { result ≡ entry_in b entries.now }
{
    for entry in entries {
        if entry.byte == b {
            return Some(*entry);
        }
    }
    None
}

// Sheet commands and body commands have a range of bytes each, in which the table names them; every other byte names no command.
pub fn entry_of(b: u8) -> Option<Entry>
    ensures { result ≡ entry_of b }
{
    match b {
        0x01..=0x0F => find(b, &TABLE),
        0x10..=0x2F => find(b, &TABLE[FIRST_BODY_ENTRY..]),
        _ => None,
    }
}
