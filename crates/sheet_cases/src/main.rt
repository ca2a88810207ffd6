#![tactic(auto)]

// Answers sheets from standard input, one a line: its bytes in hexadecimal with single spaces between them. A line that starts with
// '#' is a title and is copied. A sheet's answer is a line with number and place. After '%' each shorter start of the sheet is
// answered, from no byte on.
ghost use Rattle.std.specs.Prelude.{◌≤◌, ◌<◌, length};

use std::io::{self, Write};

// `to_digit` would take small letters too; here they count as 0.
fn digit(c: u8) -> u8
    ensures { result < 16 }
{
    match c {
        b'0'..=b'9' => c - b'0',
        b'A'..=b'F' => c - b'A' + 10,
        _ => 0,
    }
}

// The byte that two digits stand for.
fn byte(digits: &[u8]) -> u8 {
    match digits {
        [high, low, ..] => digit(*high) * 16 + digit(*low),
        _ => 0,
    }
}

// The bytes of a line, two digits and a space each, as many as there is room for; answers how many.
fn parse(line: &[u8], bytes: &mut [u8]) -> usize
    ensures { result ≤ length bytes.new }
{
    // Counts what it fills, which is the answer.
    let mut n = 0;
    for digits in line.chunks(3) {
        if n == bytes.len() {
            break;
        }
        bytes[n] = byte(digits);
        n += 1;
    }
    n
}

// Number and place of a sheet's answer, in a line.
fn answer(rt: &HostRuntime, sheet: &[u8]) -> io::Result<()> {
    match sheet_check::check(sheet) {
        Ok(()) => println!(rt; "0 0"),
        Err(fault) => println!(rt; "{fault}"),
    }
}

// Each shorter start of a sheet.
fn answer_starts(rt: &HostRuntime, sheet: &[u8]) -> io::Result<()> {
    for k in 0..sheet.len() {
        answer(rt, &sheet[..k])?;
    }
    Ok(())
}

fn answer_line(rt: &HostRuntime, line: &[u8]) -> io::Result<()> {
    let mut bytes = [0u8; 8192];
    match line {
        [b'#', ..] => {
            rt.stdout().write_all(line)?;
            rt.stdout().write_all(b"\n")
        }
        [b'%', starts @ ..] => {
            let n = parse(starts, &mut bytes);
            answer_starts(rt, &bytes[..n])
        }
        _ => {
            let n = parse(line, &mut bytes);
            answer(rt, &bytes[..n])
        }
    }
}

fn main(rt: HostRuntime) -> io::Result<()> {
    let mut text = [0u8; 65536];
    let n = input::read_full(&rt, &mut text)?;
    for line in text[..n].split_inclusive(|b| *b == b'\n') {
        answer_line(&rt, line.strip_suffix(b"\n").unwrap_or(line))?;
    }
    Ok(())
}
