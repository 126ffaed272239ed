//! A script of leases while its lines are read.
ghost use Rattle.std.specs.Prelude.{◌≡◌, ◌≤◌};

use crate::head::{number_after, version_after};
use crate::keywords::step_word_of;
use crate::step::LeaseStep;
use crate::steps::step_of;
use script_lang::{Failure, Parts};
use std::alloc::Global;
use zeus_model::Kind;

/// The most steps of a script.
const MOST_STEPS: usize = 50_000;

/// Which line may come next.
#[derive(Clone, Copy, Debug, PartialEq, Eq)]
pub(crate) enum Stage {
    /// The first line, with the version.
    Version,
    Nodes,
    Length,
    Percent,
    /// A step or `end`.
    Steps,
}

/// What the lines so far say.
#[derive(Drop)]
pub(crate) struct Draft {
    pub stage: Stage,
    pub nodes: u8,
    pub length: u64,
    pub percent: u64,
    pub steps: Vec<LeaseStep>,
    ghost few_nodes: { nodes ≤ 8 },
}

impl Draft {
    ghost use Rattle.zeus_lease.specs.Reading.{TakesLine, start, state_of, line_taken, step_line_taken, step_taken};

    /// Before the first line.
    #[tactic(auto, unfolding(crate::specs::Reading::start))]
    pub(crate) fn new(alloc: Global) -> Self
        ensures { state_of result ≡ start }
    {
        Draft {
            stage: Stage::Version,
            nodes: 0,
            length: 0,
            percent: 0,
            steps: Vec::new(alloc),
        }
    }

    /// The words behind the word of a step.
    #[tactic(auto, unfolding(crate::specs::Reading::step_taken, crate::specs::Reading::step_line_taken))]
    fn take_step_line(&mut self, word: &[u8], line: &mut Parts) -> Result<bool, Failure>
        ensures { TakesLine result self.new (step_line_taken (state_of self.old) word.now line.old) }
    {
        if word == b"end".as_slice() {
            line.end()?;
            return Ok(true);
        }
        let Some(step) = step_word_of(word) else {
            return Err(Failure::Kind(Kind::Word));
        };
        if self.steps.len() == MOST_STEPS {
            return Err(Failure::Kind(Kind::Long));
        }
        let alloc = *self.steps.allocator();
        self.steps.push(step_of(line, alloc, step, self.nodes)?)?;
        Ok(false)
    }

    /// The next line. Whether it was the last one.
    #[tactic(auto, unfolding(crate::specs::Reading::line_taken))]
    pub(crate) fn take_line(&mut self, line: &mut Parts) -> Result<bool, Failure>
        ensures { TakesLine result self.new (line_taken (state_of self.old) self.old.stage line.old) }
    {
        match self.stage {
            Stage::Version => {
                version_after(line)?;
                self.stage = Stage::Nodes;
            }
            Stage::Nodes => {
                self.nodes = number_after(line, b"nodes".as_slice(), 1, 9)? as u8;
                self.stage = Stage::Length;
            }
            Stage::Length => {
                self.length = number_after(line, b"length".as_slice(), 1, 1 << 32)?;
                self.stage = Stage::Percent;
            }
            Stage::Percent => {
                self.percent = number_after(line, b"percent".as_slice(), 0, 101)?;
                self.stage = Stage::Steps;
            }
            Stage::Steps => {
                let word = line.word()?;
                return self.take_step_line(word, line);
            }
        }
        Ok(false)
    }
}
