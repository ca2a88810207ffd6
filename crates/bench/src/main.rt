#![tactic(auto)]

// Reads a sheet from standard input, runs it with limit 65,535 and prints the report, or `X` with number and place.
//
// The longest sheet has 4,857 bytes: 32 * 5 for words, 16 * 37 for blocks, 8 tasks, 512 * 6 for body commands, 256 * 4 for releases, END.
// So a faulty command starts at 4,856 at the latest; none has more than 37 bytes, and the first 4,893 bytes of any longer input decide
// its answer. No report has more than 3,925 bytes.
use std::io::{self, Write};

fn answer(rt: &HostRuntime, sheet: &[u8]) -> io::Result<()> {
    let mut report = [0u8; 3925];
    match engine::run(sheet, 65535, &mut report) {
        Ok(length) => rt
            .stdout()
            .write_all(report.get(..length).unwrap_or_default()),
        Err(fault) => println!(rt; "X {fault}"),
    }
}

fn main(rt: HostRuntime) -> io::Result<()> {
    let mut sheet = [0u8; 4893];
    let n = input::read_full(&rt, &mut sheet)?;
    answer(&rt, &sheet[..n])
}
