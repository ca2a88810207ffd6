// The builder's state in the 64 bytes that a C caller keeps between calls. All zero is nothing filled, and any bytes are some state.
ghost use Rattle.std.specs.Prelude.{◌≡◌, get_or, take};
ghost use Rattle.model.specs.Command.{big_endian};
ghost use Rattle.rules.specs.View.{view_section, view_counts, view_numbers, view_body};
ghost use Rattle.composing.specs.View.{view_state};
ghost use Rattle.builder.specs.Packed.{section_of, some?, counts_of, body_of, state_of};

use commands::Release;
use composing::BuilderState;
use rules::known::{Known, Numbers, Section, SheetCounts, Task};

pub const ROWS: usize = 8;

pub const ROW: usize = 8;

// No TryFrom, as any byte is some section: there is no error to give.
fn section_of(row: [u8; ROW]) -> Section
    ensures { view_section result ≡ section_of (get_or row 0 0) }
{
    match row[0] {
        0 => Section::Words,
        1 => Section::Blocks,
        2 => Section::Bodies,
        _ => Section::Releases,
    }
}

fn counts_of(row: [u8; ROW]) -> SheetCounts
    ensures { view_counts result ≡ counts_of row }
{
    let [_, words, blocks, tasks, c1, c0, r1, r0] = row;
    SheetCounts {
        words,
        blocks,
        tasks,
        commands: u16::from_be_bytes([c1, c0]),
        releases: u16::from_be_bytes([r1, r0]),
    }
}

// The first `count` of the values: a count above 8 is all of them.
fn numbers(values: [u8; ROW], count: u8) -> Numbers
    ensures { view_numbers result ≡ take count values }
{
    Numbers {
        values,
        count: count as usize,
    }
}

#[tactic(auto, unfolding(crate::specs::Packed::body_of))]
fn body_of(row: [u8; ROW], pairs: [u8; ROW], touched: [u8; ROW], puts: [u8; ROW]) -> Task
    ensures { view_body result ≡ body_of row pairs touched puts }
{
    let [some, pair_count, open, touched_count, put_count, ..] = row;
    Task {
        empty: some == 0,
        pairs: numbers(pairs, pair_count),
        inside: open != 0,
        touched: numbers(touched, touched_count),
        puts: numbers(puts, put_count),
    }
}

fn tick_of(row: [u8; ROW]) -> u32
    ensures { result ≡ big_endian row 0 4 }
{
    let [t3, t2, t1, t0, ..] = row;
    u32::from_be_bytes([t3, t2, t1, t0])
}

fn filled_of(row: [u8; ROW]) -> usize
    ensures { result ≡ big_endian row 0 8 }
{
    usize::from_be_bytes(row)
}

#[tactic(auto, unfolding(crate::specs::Packed::state_of))]
pub fn unpack(s: [[u8; ROW]; ROWS]) -> BuilderState
    ensures { view_state result ≡ state_of s }
{
    let [counts, body, tick, filled, pairs, touched, puts, _] = s;
    let [_, _, _, _, _, task, ended, _] = body;
    BuilderState {
        known: Known {
            section: section_of(counts),
            counts: counts_of(counts),
            body: body_of(body, pairs, touched, puts),
            last: Release {
                tick: tick_of(tick),
                task,
            },
        },
        filled: filled_of(filled),
        ended: ended != 0,
    }
}

// As many as there are places for.
fn count_byte(n: Numbers) -> u8
    ensures { take result n.values ≡ view_numbers n }
{
    n.count.min(n.values.len()) as u8
}

fn counts_row(section: Section, n: SheetCounts) -> [u8; ROW]
    ensures { (section_of (get_or result 0 0) ≡ view_section section) × (counts_of result ≡ view_counts n) }
{
    let [c1, c0] = n.commands.to_be_bytes();
    let [r1, r0] = n.releases.to_be_bytes();
    [section as u8, n.words, n.blocks, n.tasks, c1, c0, r1, r0]
}

fn body_row(b: Task, task: u8, ended: bool) -> [u8; ROW]
    ensures { (body_of result b.pairs.values b.touched.values b.puts.values ≡ view_body b)
        × (get_or result 5 0 ≡ task) × (some? (get_or result 6 0) ≡ ended) }
{
    [
        u8::from(!b.empty),
        count_byte(b.pairs),
        u8::from(b.inside),
        count_byte(b.touched),
        count_byte(b.puts),
        task,
        u8::from(ended),
        0,
    ]
}

fn tick_row(t: u32) -> [u8; ROW]
    ensures { big_endian result 0 4 ≡ t }
{
    let [t3, t2, t1, t0] = t.to_be_bytes();
    [t3, t2, t1, t0, 0, 0, 0, 0]
}

fn filled_row(f: usize) -> [u8; ROW]
    ensures { big_endian result 0 8 ≡ f }
{
    f.to_be_bytes()
}

#[tactic(auto, unfolding(crate::specs::Packed::state_of))]
pub fn pack(s: BuilderState) -> [[u8; ROW]; ROWS]
    ensures { state_of result ≡ view_state s }
{
    let k = s.known;
    let body = k.body;
    // Variables, as the check covers no field as an element that is an array.
    let pairs = body.pairs.values;
    let touched = body.touched.values;
    let puts = body.puts.values;
    [
        counts_row(k.section, k.counts),
        body_row(body, k.last.task, s.ended),
        tick_row(k.last.tick),
        filled_row(s.filled),
        pairs,
        touched,
        puts,
        [0; ROW],
    ]
}
