// What is known after a command.
ghost use Rattle.std.specs.Prelude.{◌≡◌, true, []};
ghost use Rattle.model.specs.Fault as rule;
ghost use Rattle.model.specs.Sheet as next;
ghost use Rattle.commands.specs.View.{view_access, view_outside, view_inside, view_body_command, view_command};
ghost use Rattle.rules.specs.View.{view_body, view_known};

use commands::{Access, BodyCommand, Command, Inside, Outside};
use rules::known::{Known, Numbers, Section, Task};

// The open body after a GET or PUT.
fn named(b: &mut Task, a: Access)
    requires { rule.room_for_block (view_body b.old) (view_access a) ≡ true }
    ensures { view_body b.new ≡ next.named (view_access a) (view_body b.old) }
{
    b.empty = false;
    b.inside = true;
    match a {
        Access::Get { block, .. } => b.touched = b.touched.include(block),
        Access::Put { block, .. } => {
            b.touched = b.touched.include(block);
            b.puts = b.puts.include(block);
        }
    }
}

#[tactic(auto, unfolding(model::specs::Fault::under_ceiling_outside, model::specs::Sheet::after_outside))]
fn after_outside(b: &mut Task, c: Outside)
    requires { rule.under_ceiling_outside (view_body b.old) (view_outside c) ≡ true }
    ensures { view_body b.new ≡ next.after_outside (view_body b.old) (view_outside c) }
{
    b.empty = false;
    match c {
        Outside::Read { .. } => {}
        Outside::Pair { word, .. } => b.pairs = b.pairs.with(word),
        Outside::Swap(_) => b.pairs = Numbers::none(),
        Outside::Begin => {
            b.inside = true;
            b.touched = Numbers::none();
            b.puts = Numbers::none();
        }
    }
}

#[tactic(auto, unfolding(model::specs::Fault::under_ceiling_inside, model::specs::Sheet::after_inside))]
fn after_inside(b: &mut Task, c: Inside)
    requires { rule.under_ceiling_inside (view_body b.old) (view_inside c) ≡ true }
    ensures { view_body b.new ≡ next.after_inside (view_body b.old) (view_inside c) }
{
    match c {
        Inside::Access(a) => named(b, a),
        Inside::Commit => {
            b.empty = false;
            b.inside = false;
            b.touched = Numbers::none();
            b.puts = Numbers::none();
        }
    }
}

// The open body after one of its commands.
#[tactic(auto, unfolding(model::specs::Fault::under_ceiling_body, model::specs::Sheet::after_body))]
fn after_body(b: &mut Task, c: BodyCommand)
    requires { rule.under_ceiling_body (view_body b.old) (view_body_command c) ≡ true }
    ensures { view_body b.new ≡ next.after_body (view_body b.old) (view_body_command c) }
{
    match c {
        BodyCommand::Outside(o) => after_outside(b, o),
        BodyCommand::Inside(i) => after_inside(b, i),
        _ => b.empty = false,
    }
}

// In place, for the check: what is known has padding, and a copy of it a command costs the check a fifth of its time.
#[tactic(auto, unfolding(model::specs::Fault::under_ceiling, model::specs::Sheet::after))]
pub fn learn(k: &mut Known, c: Command)
    requires { rule.under_ceiling (view_known k.old) (view_command [] c) ≡ true }
    ensures { view_known k.new ≡ next.after (view_known k.old) (view_command [] c) }
{
    match c {
        Command::Word(_) => {
            k.section = Section::Words;
            k.counts.words += 1;
        }
        Command::Block(_) => {
            k.section = Section::Blocks;
            k.counts.blocks += 1;
        }
        Command::Task => {
            k.section = Section::Bodies;
            k.counts.tasks += 1;
            k.body = Task::fresh();
        }
        Command::Release(r) => {
            k.section = Section::Releases;
            k.counts.releases += 1;
            k.last = r;
        }
        Command::End => {}
        Command::Body(b) => {
            k.counts.commands += 1;
            after_body(&mut k.body, b);
        }
    }
}

pub fn after(k: Known, c: Command) -> Known
    requires { rule.under_ceiling (view_known k) (view_command [] c) ≡ true }
    ensures { view_known result ≡ next.after (view_known k) (view_command [] c) }
{
    let mut known = k;
    learn(&mut known, c);
    known
}
