// What is known before a command is read.
ghost use Rattle.std.specs.Prelude.{◌≡◌, true, [], ◌∷◌, ◌++◌, ◌<◌, ◌≤◌, ltb, length};
ghost use Rattle.model.specs.Ceilings.{max_touched};
ghost use Rattle.model.specs.Fault as rule;
ghost use Rattle.rules.specs.View.{view_numbers, view_body, view_known};

use commands::Release;
use commands::ceilings::TaskCeilings;

#[derive(Clone, Copy)]
pub enum Section {
    Words,
    Blocks,
    Bodies,
    Releases,
}

#[derive(Clone, Copy)]
pub struct SheetCounts {
    pub words: u8,
    pub blocks: u8,
    pub tasks: u8,
    pub commands: u16,
    pub releases: u16,
}

// As many numbers as a task may name of one kind: the first `count` of the array, all of them where `count` is more.
// No Model: it is Copy, so its list would have to give back what lies past `count`, and any bytes of the builder's 64 are one.
#[derive(Clone, Copy)]
pub struct Numbers {
    pub values: [u8; TaskCeilings::TOUCHED],
    pub count: usize,
}

// The task whose body is open: whether the body is empty, the words of the waiting PAIRs, whether a transaction is open, the
// different blocks it names, and those it PUTs.
#[derive(Clone, Copy)]
pub struct Task {
    pub empty: bool,
    pub pairs: Numbers,
    pub inside: bool,
    pub touched: Numbers,
    pub puts: Numbers,
}

#[derive(Clone, Copy)]
pub struct Known {
    pub section: Section,
    pub counts: SheetCounts,
    pub body: Task,
    pub last: Release,
}

impl Task {
    // The body that a TASK opens.
    pub fn fresh() -> Task
        ensures { view_body result ≡ rule.empty_body }
    {
        Task {
            empty: true,
            pairs: Numbers::none(),
            inside: false,
            touched: Numbers::none(),
            puts: Numbers::none(),
        }
    }
}

impl Known {
    pub fn nothing() -> Known
        ensures { view_known result ≡ rule.nothing_known }
    {
        Known {
            section: Section::Words,
            counts: SheetCounts {
                words: 0,
                blocks: 0,
                tasks: 0,
                commands: 0,
                releases: 0,
            },
            body: Task::fresh(),
            last: Release { tick: 0, task: 0 },
        }
    }
}

impl Numbers {
    pub fn none() -> Numbers
        ensures { view_numbers result ≡ [] }
    {
        Numbers {
            values: [0; TaskCeilings::TOUCHED],
            count: 0,
        }
    }

    pub fn is_none(self) -> bool
        ensures { result ≡ rule.none? (view_numbers self) }
    {
        self.count == 0
    }

    // Fewer than the ceiling.
    pub fn below(self, ceiling: usize) -> bool
        requires { ceiling ≤ max_touched }
        ensures { result ≡ ltb (length (view_numbers self)) ceiling }
    {
        self.count < ceiling
    }

    // Its numbers.
    fn as_slice(&self) -> &[u8]
        ensures { result.now ≡ view_numbers self.now }
    {
        &self.values[..self.count.min(TaskCeilings::TOUCHED)]
    }

    pub fn has(self, x: u8) -> bool
        ensures { result ≡ rule.among x (view_numbers self) }
    {
        self.as_slice().contains(&x)
    }

    // One more.
    pub fn with(self, x: u8) -> Numbers
        requires { length (view_numbers self) < max_touched }
        ensures { view_numbers result ≡ view_numbers self ++ (x ∷ []) }
    {
        let mut values = self.values;
        values[self.count] = x;
        Numbers {
            values,
            count: self.count + 1,
        }
    }

    // One more, if it is not among them yet.
    #[tactic(auto, unfolding(model::specs::Fault::include_by))]
    pub fn include(self, x: u8) -> Numbers
        requires { rule.room max_touched x (view_numbers self) ≡ true }
        ensures { view_numbers result ≡ rule.include x (view_numbers self) }
    {
        if self.has(x) { self } else { self.with(x) }
    }
}
