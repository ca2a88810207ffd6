// What all tasks share: 48 cells of a packed word each, 8 status, 64 save places, 48 stores of eight values, the last two flat, as `Shared`
// has them.
ghost use Rattle.std.specs.Prelude.{◌≡◌, length};
ghost use Rattle.model.specs.Lists.{at};
ghost use Rattle.state.specs.State.{shared, filled_with, set_cell, set_status, set_save, set_value};
ghost use Rattle.state.specs.Sized.{SharedSized};

const CELLS: usize = 48;

// A task's status by document 01's steps that set it. Memory has its number, for `run` and `step` are promised for every memory.
#[derive(Clone, Copy)]
pub enum Status {
    Started = 0,
    Failed = 1,
    Committed = 2,
}

#[derive(Clone, Copy)]
pub struct Memory {
    cells: [u64; CELLS],
    status: [u32; 8],
    saves: [u32; 64],
    stores: [u32; 384],
}

// One accessor for each field: what differs is the field that its clause names. `element` and `store` do it for all.
#[tactic(auto, unfolding(crate::specs::State::shared))]
impl Memory {
    // Every cell holds that word, all else is 0.
    pub fn filled(word: u64) -> Memory
        ensures { shared result ≡ filled_with word }
    {
        Memory {
            cells: [word; CELLS],
            status: [0; 8],
            saves: [0; 64],
            stores: [0; 384],
        }
    }

    // For proofs: an array's length is learnt from its slice.
    pub fn sized(&self)
        ensures { SharedSized (shared self.now) }
    {
        let _cells: &[u64] = &self.cells;
        let _status: &[u32] = &self.status;
        let _saves: &[u32] = &self.saves;
        let _stores: &[u32] = &self.stores;
    }

    pub fn cell(&self, i: usize) -> u64
        ensures { result ≡ at 0 (shared self.now).cells i }
    {
        crate::element(&self.cells, i, 0)
    }

    pub fn set_cell(&mut self, i: usize, v: u64)
        ensures { shared self.new ≡ set_cell (shared self.old) i v }
    {
        crate::store(&mut self.cells, i, v);
    }

    pub fn status(&self, i: usize) -> u32
        ensures { result ≡ at 0 (shared self.now).status i }
    {
        crate::element(&self.status, i, 0)
    }

    pub fn set_status(&mut self, i: usize, v: u32)
        ensures { shared self.new ≡ set_status (shared self.old) i v }
    {
        crate::store(&mut self.status, i, v);
    }

    pub fn save(&self, i: usize) -> u32
        ensures { result ≡ at 0 (shared self.now).saves i }
    {
        crate::element(&self.saves, i, 0)
    }

    pub fn set_save(&mut self, i: usize, v: u32)
        ensures { shared self.new ≡ set_save (shared self.old) i v }
    {
        crate::store(&mut self.saves, i, v);
    }

    pub fn value(&self, i: usize) -> u32
        ensures { result ≡ at 0 (shared self.now).stores i }
    {
        crate::element(&self.stores, i, 0)
    }

    pub fn set_value(&mut self, i: usize, v: u32)
        ensures { shared self.new ≡ set_value (shared self.old) i v }
    {
        crate::store(&mut self.stores, i, v);
    }

    pub fn stores(&self) -> &[u32]
        ensures { (result.now ≡ (shared self.now).stores) × (length result.now ≡ 384) }
    {
        &self.stores
    }
}
