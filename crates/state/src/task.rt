// One task's own record.
ghost use Rattle.std.specs.Prelude.{◌≡◌, ◌∷◌, [], length};
ghost use Rattle.model.specs.Lists.{at};
ghost use Rattle.state.specs.State.{own, own_zeros, no_entry, no_block, with_registers, with_kept, with_copies};
ghost use Rattle.state.specs.State.{set_register, set_kept, set_copy, set_target, set_old, set_new, set_init, set_overlapped};
ghost use Rattle.state.specs.State.{set_slot, set_remembered, set_touched, set_count};
ghost use Rattle.state.specs.Sized.{OwnSized};

// An entry of an exchange: its target cell, old and new value, the packed word loaded there, and whether that was overlapped. That mark
// and a block's slot stay numbers, no bool and no Option: `run` and `step` are promised for every record.
#[derive(Clone, Copy)]
struct Entry {
    target: u32,
    old: u32,
    new: u32,
    overlapped: u32,
    init: u64,
}

impl Entry {
    const EMPTY: Entry = Entry {
        target: 0,
        old: 0,
        new: 0,
        overlapped: 0,
        init: 0,
    };
}

// A block of a transaction: its copy slot and the bank word remembered.
#[derive(Clone, Copy)]
struct Block {
    slot: u32,
    remembered: u32,
}

impl Block {
    const EMPTY: Block = Block {
        slot: 0,
        remembered: 0,
    };
}

// 8 registers, 8 that BEGIN kept, 4 copy stores; the entries and the blocks; 8 counts; the mask of touched blocks. Registers, kept and
// counts are three things, no rows of one.
#[derive(Clone, Copy)]
pub struct Task {
    registers: [u32; 8],
    kept: [u32; 8],
    copies: [u32; 4],
    entries: [Entry; 8],
    blocks: [Block; 16],
    counts: [u32; 8],
    touched: u16,
}

// One accessor for each field, as of Memory; a setter of an entry or a block stores what was read there with one field new.
#[tactic(auto, unfolding(crate::specs::State::own))]
impl Task {
    // A task with those copy stores, and nothing else yet.
    pub fn with_copies(copies: [u32; 4]) -> Task
        ensures { own result ≡ with_copies own_zeros copies }
    {
        Task {
            registers: [0; 8],
            kept: [0; 8],
            copies,
            entries: [Entry::EMPTY; 8],
            blocks: [Block::EMPTY; 16],
            counts: [0; 8],
            touched: 0,
        }
    }

    // For proofs, as Memory's.
    pub fn sized(&self)
        ensures { OwnSized (own self.now) }
    {
        let _registers: &[u32] = &self.registers;
        let _kept: &[u32] = &self.kept;
        let _copies: &[u32] = &self.copies;
        let _entries: &[Entry] = &self.entries;
        let _blocks: &[Block] = &self.blocks;
        let _counts: &[u32] = &self.counts;
    }

    pub fn register(&self, i: u8) -> u32
        ensures { result ≡ at 0 (own self.now).registers i }
    {
        crate::element(&self.registers, i as usize, 0)
    }

    pub fn set_register(&mut self, i: u8, v: u32)
        ensures { own self.new ≡ set_register (own self.old) i v }
    {
        crate::store(&mut self.registers, i as usize, v);
    }

    pub fn registers(&self) -> &[u32]
        ensures { (result.now ≡ (own self.now).registers) × (length result.now ≡ 8) }
    {
        &self.registers
    }

    pub fn kept(&self, i: u8) -> u32
        ensures { result ≡ at 0 (own self.now).kept i }
    {
        crate::element(&self.kept, i as usize, 0)
    }

    pub fn set_kept(&mut self, i: u8, v: u32)
        ensures { own self.new ≡ set_kept (own self.old) i v }
    {
        crate::store(&mut self.kept, i as usize, v);
    }

    // keep and restore are each other's reverse.
    pub fn keep(&mut self)
        ensures kept { own self.new ≡ with_kept (own self.old) (own self.old).registers }
        ensures sized { (length (own self.old).kept ≡ 8) × (length (own self.old).registers ≡ 8) }
    {
        self.kept.copy_from_slice(&self.registers);
    }

    pub fn restore(&mut self)
        ensures registers { own self.new ≡ with_registers (own self.old) (own self.old).kept }
        ensures sized { (length (own self.old).kept ≡ 8) × (length (own self.old).registers ≡ 8) }
    {
        self.registers.copy_from_slice(&self.kept);
    }

    pub fn copy(&self, i: usize) -> u32
        ensures { result ≡ at 0 (own self.now).copies i }
    {
        crate::element(&self.copies, i, 0)
    }

    pub fn set_copy(&mut self, i: usize, v: u32)
        ensures { own self.new ≡ set_copy (own self.old) i v }
    {
        crate::store(&mut self.copies, i, v);
    }

    // entry and block differ in the type, which `element` takes.
    fn entry(&self, i: u8) -> Entry
        ensures { result ≡ at no_entry self.now.entries i }
    {
        crate::element(&self.entries, i as usize, Entry::EMPTY)
    }

    fn block(&self, i: u8) -> Block
        ensures { result ≡ at no_block self.now.blocks i }
    {
        crate::element(&self.blocks, i as usize, Block::EMPTY)
    }

    pub fn target(&self, i: u8) -> u32
        ensures { result ≡ at 0 (own self.now).entries.targets i }
    {
        self.entry(i).target
    }

    pub fn set_target(&mut self, i: u8, v: u32)
        ensures { own self.new ≡ set_target (own self.old) i v }
    {
        let entry = Entry {
            target: v,
            ..self.entry(i)
        };
        crate::store(&mut self.entries, i as usize, entry);
    }

    pub fn old(&self, i: u8) -> u32
        ensures { result ≡ at 0 (own self.now).entries.olds i }
    {
        self.entry(i).old
    }

    pub fn set_old(&mut self, i: u8, v: u32)
        ensures { own self.new ≡ set_old (own self.old) i v }
    {
        let entry = Entry {
            old: v,
            ..self.entry(i)
        };
        crate::store(&mut self.entries, i as usize, entry);
    }

    pub fn new(&self, i: u8) -> u32
        ensures { result ≡ at 0 (own self.now).entries.news i }
    {
        self.entry(i).new
    }

    pub fn set_new(&mut self, i: u8, v: u32)
        ensures { own self.new ≡ set_new (own self.old) i v }
    {
        let entry = Entry {
            new: v,
            ..self.entry(i)
        };
        crate::store(&mut self.entries, i as usize, entry);
    }

    pub fn init(&self, i: u8) -> u64
        ensures { result ≡ at 0 (own self.now).entries.inits i }
    {
        self.entry(i).init
    }

    pub fn set_init(&mut self, i: u8, v: u64)
        ensures { own self.new ≡ set_init (own self.old) i v }
    {
        let entry = Entry {
            init: v,
            ..self.entry(i)
        };
        crate::store(&mut self.entries, i as usize, entry);
    }

    pub fn overlapped(&self, i: u8) -> u32
        ensures { result ≡ at 0 (own self.now).entries.overlapped i }
    {
        self.entry(i).overlapped
    }

    pub fn set_overlapped(&mut self, i: u8, v: u32)
        ensures { own self.new ≡ set_overlapped (own self.old) i v }
    {
        let entry = Entry {
            overlapped: v,
            ..self.entry(i)
        };
        crate::store(&mut self.entries, i as usize, entry);
    }

    pub fn slot(&self, i: u8) -> u32
        ensures { result ≡ at 0 (own self.now).blocks.slots i }
    {
        self.block(i).slot
    }

    pub fn set_slot(&mut self, i: u8, v: u32)
        ensures { own self.new ≡ set_slot (own self.old) i v }
    {
        let block = Block {
            slot: v,
            ..self.block(i)
        };
        crate::store(&mut self.blocks, i as usize, block);
    }

    pub fn remembered(&self, i: u8) -> u32
        ensures { result ≡ at 0 (own self.now).blocks.remembered i }
    {
        self.block(i).remembered
    }

    pub fn set_remembered(&mut self, i: u8, v: u32)
        ensures { own self.new ≡ set_remembered (own self.old) i v }
    {
        let block = Block {
            remembered: v,
            ..self.block(i)
        };
        crate::store(&mut self.blocks, i as usize, block);
    }

    pub fn count(&self, i: u8) -> u32
        ensures { result ≡ at 0 (own self.now).counts i }
    {
        crate::element(&self.counts, i as usize, 0)
    }

    pub fn set_count(&mut self, i: u8, v: u32)
        ensures { own self.new ≡ set_count (own self.old) i v }
    {
        crate::store(&mut self.counts, i as usize, v);
    }

    pub fn counts(&self) -> &[u32]
        ensures { (result.now ≡ (own self.now).counts) × (length result.now ≡ 8) }
    {
        &self.counts
    }

    pub fn touched(&self) -> u16
        ensures { result ≡ (own self.now).blocks.touched }
    {
        self.touched
    }

    pub fn set_touched(&mut self, v: u16)
        ensures { own self.new ≡ set_touched (own self.old) v }
    {
        self.touched = v;
    }
}
