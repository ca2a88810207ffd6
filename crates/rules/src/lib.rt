#![tactic(auto)]

// The fault of a command, by what is known when it is read: one function for each rule, and the lowest number of those broken.
ghost use Rattle.std.specs.Prelude.{◌≡◌, [], ◌≤◌};
ghost use Rattle.model.specs.Ceilings.{max_touched};
ghost use Rattle.model.specs.Command.{access};
ghost use Rattle.model.specs.Fault as rule;
ghost use Rattle.commands.specs.View.{view_access, view_outside, view_inside, view_body_command, view_command};
ghost use Rattle.rules.specs.View.{view_counts, view_numbers, view_body, view_known, view_fault};

use crate::known::{Known, Numbers, SheetCounts, Task};
use commands::ceilings::{SheetCeilings, TaskCeilings};
use commands::{Access, BodyCommand, Command, Inside, Outside, Refusal};

pub mod known;
pub mod place;

impl Numbers {
    // Room for x among the different numbers.
    fn room(self, ceiling: usize, x: u8) -> bool
        requires { ceiling ≤ max_touched }
        ensures { result ≡ rule.room ceiling x (view_numbers self) }
    {
        self.has(x) || self.below(ceiling)
    }
}

impl Task {
    fn room_for_block(self, a: Access) -> bool
        ensures { result ≡ rule.room_for_block (view_body self) (view_access a) }
    {
        match a {
            Access::Get { block, .. } => self.touched.room(TaskCeilings::TOUCHED, block),
            Access::Put { block, .. } => {
                self.touched.room(TaskCeilings::TOUCHED, block)
                    && self.puts.room(TaskCeilings::PUTS, block)
            }
        }
    }

    // 5
    #[tactic(auto, unfolding(model::specs::Fault::under_ceiling_outside))]
    fn under_ceiling_outside(self, c: Outside) -> bool
        ensures { result ≡ rule.under_ceiling_outside (view_body self) (view_outside c) }
    {
        match c {
            Outside::Pair { .. } => self.pairs.below(TaskCeilings::PAIRS),
            _ => true,
        }
    }

    #[tactic(auto, unfolding(model::specs::Fault::under_ceiling_inside))]
    fn under_ceiling_inside(self, c: Inside) -> bool
        ensures { result ≡ rule.under_ceiling_inside (view_body self) (view_inside c) }
    {
        match c {
            Inside::Access(a) => self.room_for_block(a),
            Inside::Commit => true,
        }
    }

    #[tactic(auto, unfolding(model::specs::Fault::under_ceiling_body))]
    fn under_ceiling_body(self, c: BodyCommand) -> bool
        ensures { result ≡ rule.under_ceiling_body (view_body self) (view_body_command c) }
    {
        match c {
            BodyCommand::Outside(o) => self.under_ceiling_outside(o),
            BodyCommand::Inside(i) => self.under_ceiling_inside(i),
            _ => true,
        }
    }

    // 7
    #[tactic(auto, unfolding(model::specs::Fault::new_word_outside, model::specs::Fault::new_word_body, model::specs::Fault::new_word))]
    fn new_word(self, c: Command) -> bool
        ensures { result ≡ rule.new_word (view_body self) (view_command [] c) }
    {
        match c {
            Command::Body(BodyCommand::Outside(Outside::Pair { word, .. })) => !self
                .pairs
                .has(word),
            _ => true,
        }
    }
}

impl SheetCounts {
    #[tactic(auto, unfolding(model::specs::Fault::in_range_inside))]
    fn access_in_range(self, a: Access) -> bool
        ensures { result ≡ rule.in_range_inside (view_counts self) (access (view_access a)) }
    {
        match a {
            Access::Get {
                register,
                block,
                offset,
            }
            | Access::Put {
                block,
                offset,
                register,
            } => {
                register <= TaskCeilings::LAST_REGISTER
                    && block < self.blocks
                    && offset <= TaskCeilings::LAST_OFFSET
            }
        }
    }

    // 6
    #[tactic(auto, unfolding(model::specs::Fault::in_range_outside))]
    fn in_range_outside(self, c: Outside) -> bool
        ensures { result ≡ rule.in_range_outside (view_counts self) (view_outside c) }
    {
        match c {
            Outside::Read { register, word } => {
                register <= TaskCeilings::LAST_REGISTER && word < self.words
            }
            Outside::Pair { word, old, new } => {
                word < self.words
                    && old <= TaskCeilings::LAST_REGISTER
                    && new <= TaskCeilings::LAST_REGISTER
            }
            Outside::Swap(register) => register <= TaskCeilings::LAST_REGISTER,
            Outside::Begin => true,
        }
    }

    #[tactic(auto, unfolding(model::specs::Fault::in_range_inside))]
    fn in_range_inside(self, c: Inside) -> bool
        ensures { result ≡ rule.in_range_inside (view_counts self) (view_inside c) }
    {
        match c {
            Inside::Access(a) => self.access_in_range(a),
            Inside::Commit => true,
        }
    }

    #[tactic(auto, unfolding(model::specs::Fault::in_range_body))]
    fn in_range_body(self, c: BodyCommand) -> bool
        ensures { result ≡ rule.in_range_body (view_counts self) (view_body_command c) }
    {
        match c {
            BodyCommand::Load { register, .. } => register <= TaskCeilings::LAST_REGISTER,
            BodyCommand::Add { register, other } => {
                register <= TaskCeilings::LAST_REGISTER && other <= TaskCeilings::LAST_REGISTER
            }
            BodyCommand::Outside(o) => self.in_range_outside(o),
            BodyCommand::Inside(i) => self.in_range_inside(i),
        }
    }

    #[tactic(auto, unfolding(model::specs::Fault::in_range))]
    fn in_range(self, c: Command) -> bool
        ensures { result ≡ rule.in_range (view_counts self) (view_command [] c) }
    {
        match c {
            Command::Block(version) => version <= SheetCeilings::LAST_VERSION,
            Command::Release(r) => r.tick <= SheetCeilings::LAST_TICK && r.task < self.tasks,
            Command::Body(b) => self.in_range_body(b),
            _ => true,
        }
    }
}

impl Known {
    #[tactic(auto, unfolding(model::specs::Fault::under_ceiling))]
    fn under_ceiling(self, c: Command) -> bool
        ensures { result ≡ rule.under_ceiling (view_known self) (view_command [] c) }
    {
        match c {
            Command::Word(_) => self.counts.words < SheetCeilings::WORDS,
            Command::Block(_) => self.counts.blocks < SheetCeilings::BLOCKS,
            Command::Task => self.counts.tasks < SheetCeilings::TASKS,
            Command::Release(_) => self.counts.releases < SheetCeilings::RELEASES,
            Command::End => true,
            Command::Body(b) => {
                self.counts.commands < SheetCeilings::COMMANDS && self.body.under_ceiling_body(b)
            }
        }
    }

    // 8
    #[tactic(auto, unfolding(model::specs::Fault::rising))]
    fn rising(self, c: Command) -> bool
        ensures { result ≡ rule.rising (view_known self) (view_command [] c) }
    {
        match c {
            Command::Release(r) => self.counts.releases == 0 || self.last < r,
            _ => true,
        }
    }

    // The first rule that a command breaks: the lowest number wins.
    #[tactic(auto, unfolding(model::specs::Fault::fault_of, model::specs::Fault::lowest))]
    pub fn fault(self, c: Command) -> Option<Refusal>
        ensures { view_fault result ≡ rule.fault_of (view_known self) (view_command [] c) }
    {
        if !self.in_place(c) {
            Some(Refusal::Misplaced)
        } else if !self.under_ceiling(c) {
            Some(Refusal::CeilingPassed)
        } else if !self.counts.in_range(c) {
            Some(Refusal::OutOfRange)
        } else if !self.body.new_word(c) {
            Some(Refusal::WordRepeated)
        } else if !self.rising(c) {
            Some(Refusal::ReleasesNotRising)
        } else {
            None
        }
    }
}
