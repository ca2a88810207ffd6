// Rule 4: whether a command may come here, by the section, the waiting PAIRs and the open transaction.
ghost use Rattle.std.specs.Prelude.{◌≡◌, []};
ghost use Rattle.model.specs.Fault as rule;
ghost use Rattle.commands.specs.View.{view_outside, view_body_command, view_command};
ghost use Rattle.rules.specs.View.{view_body, view_known};

use crate::known::{Known, Section, Task};
use commands::{BodyCommand, Command, Outside};

impl Task {
    // The open body may end here.
    fn may_end(self) -> bool
        ensures { result ≡ rule.may_end (view_body self) }
    {
        !self.empty && self.pairs.is_none() && !self.inside
    }

    // The waiting PAIRs let it come: SWAP needs some, BEGIN none.
    #[tactic(auto, unfolding(model::specs::Fault::in_place_outside))]
    fn in_place_outside(self, c: Outside) -> bool
        ensures { result ≡ rule.in_place_outside (view_body self) (view_outside c) }
    {
        match c {
            Outside::Swap(_) => !self.pairs.is_none(),
            Outside::Begin => self.pairs.is_none(),
            _ => true,
        }
    }
}

impl Known {
    // A body is open here, and no transaction in it.
    fn outside_transaction(self) -> bool
        ensures { result ≡ rule.outside_transaction (view_known self) }
    {
        matches!(self.section, Section::Bodies) && !self.body.inside
    }

    // A transaction is open here.
    fn inside_transaction(self) -> bool
        ensures { result ≡ rule.inside_transaction (view_known self) }
    {
        matches!(self.section, Section::Bodies) && self.body.inside
    }

    // The bodies are over, or the last one may end here.
    fn bodies_over(self) -> bool
        ensures { result ≡ rule.bodies_over (view_known self) }
    {
        // A match: one arm asks the open body.
        match self.section {
            Section::Releases => true,
            Section::Bodies => self.body.may_end(),
            _ => false,
        }
    }

    #[tactic(auto, unfolding(model::specs::Fault::in_place_body))]
    fn in_place_body(self, c: BodyCommand) -> bool
        ensures { result ≡ rule.in_place_body (view_known self) (view_body_command c) }
    {
        match c {
            BodyCommand::Outside(o) => self.outside_transaction() && self.body.in_place_outside(o),
            BodyCommand::Inside(_) => self.inside_transaction(),
            _ => matches!(self.section, Section::Bodies),
        }
    }

    // 4
    #[tactic(auto, unfolding(model::specs::Fault::in_place))]
    pub fn in_place(self, c: Command) -> bool
        ensures { result ≡ rule.in_place (view_known self) (view_command [] c) }
    {
        match c {
            Command::Word(_) => matches!(self.section, Section::Words),
            Command::Block(_) => matches!(self.section, Section::Words | Section::Blocks),
            Command::Task => match self.section {
                Section::Words | Section::Blocks => true,
                Section::Bodies => self.body.may_end(),
                Section::Releases => false,
            },
            Command::Release(_) | Command::End => self.bodies_over(),
            Command::Body(b) => self.in_place_body(b),
        }
    }
}
