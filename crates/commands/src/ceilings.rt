// Document 01's ceilings and operand ranges, once for all code: of what a sheet declares, of a task's commands, and of a run.
#[derive(Clone, Copy)]
pub struct SheetCeilings;

impl SheetCeilings {
    pub const WORDS: u8 = 32;

    pub const BLOCKS: u8 = 16;

    pub const TASKS: u8 = 8;

    pub const COMMANDS: u16 = 512;

    pub const RELEASES: u16 = 256;

    pub const LAST_VERSION: u32 = 16777215;

    // Two bytes hold a release's tick.
    pub const LAST_TICK: u32 = 65535;

    // Each block has exactly as many values.
    pub const BLOCK_VALUES: usize = 8;
}

#[derive(Clone, Copy)]
pub struct TaskCeilings;

impl TaskCeilings {
    // Each task has exactly as many registers.
    pub const REGISTERS: u8 = 8;

    // Releases that wait behind one job.
    pub const WAITING: u8 = 4;

    pub const PAIRS: usize = 8;

    pub const TOUCHED: usize = 8;

    pub const PUTS: usize = 4;

    pub const LAST_REGISTER: u8 = 7;

    pub const LAST_OFFSET: u8 = 7;
}

#[derive(Clone, Copy)]
pub struct RunCeilings;

impl RunCeilings {
    pub const LIMIT: u64 = 65535;
}
