//! A script while its lines are read.
ghost use Rattle.std.specs.Prelude.{◌≡◌, ◌≤◌, length};

use crate::head::{Head, version_of};
use crate::keywords::{StepWord, step_word_of};
use crate::names::NameIndex;
use crate::objects::object_of;
use crate::parts::Parts;
use crate::stage::{Failure, Stage};
use crate::steps::step_of;
use crate::transactions::tx_of;
use crate::words::NodeRule;
use std::alloc::Global;
use zeus_base::{NodeSet, ObjectDecl, Step, Value};
use zeus_model::Kind;
use zeus_txn::TxDecl;

/// The most objects of a script.
const MOST_OBJECTS: usize = 256;

/// The most transactions of a script.
const MOST_TXS: usize = 10_000;

/// The most transactions of a script of a live run.
const MOST_LIVE_TXS: usize = 1_000;

/// The most steps of a script.
const MOST_STEPS: usize = 50_000;

/// What the lines so far say.
#[derive(Drop)]
pub(crate) struct Draft {
    pub stage: Stage,
    pub head: Head,
    pub names: NameIndex,
    pub objects: Vec<ObjectDecl>,
    pub txs: Vec<TxDecl>,
    pub steps: Vec<Step>,
    ghost few_nodes: { head.nodes ≤ 8 },
    ghost few_slots: { head.slots ≤ 8 },
    ghost few_txs: { length txs.items ≤ 10000 },
}

impl Draft {
    ghost use Rattle.script_lang.specs.Drafts.{state_of, Takes, TakesLine};
    ghost use Rattle.script_lang.specs.Drafts.{version_taken, nodes_taken, slots_taken, directory_taken, degree_taken, object_taken};
    ghost use Rattle.script_lang.specs.Drafts.{tx_taken, run_taken, step_taken, tx_line_taken, object_line_taken, degree_line_taken};
    ghost use Rattle.script_lang.specs.Drafts.{step_line_taken, body_taken, line_taken};
    ghost use Rattle.script_lang.specs.Reading.{start};

    /// Before the first line.
    #[tactic(auto, unfolding(crate::specs::Reading::start))]
    pub(crate) fn new(alloc: Global) -> Self
        ensures { state_of result ≡ start }
    {
        Draft {
            stage: Stage::Version,
            head: Head {
                version: 0,
                nodes: 0,
                slots: 0,
                directory: NodeSet::empty(),
                degree: None,
            },
            names: NameIndex::new(alloc),
            objects: Vec::new(alloc),
            txs: Vec::new(alloc),
            steps: Vec::new(alloc),
        }
    }

    /// The line of the version.
    #[tactic(auto, unfolding(crate::specs::Drafts::version_taken))]
    fn take_version(&mut self, line: &mut Parts) -> Result<(), Failure>
        ensures { Takes result self.new (version_taken (state_of self.old) line.old) }
    {
        line.keyword(b"zeus".as_slice())?;
        let version = version_of(line.word()?)?;
        line.end()?;
        self.head.version = version;
        self.stage = Stage::Nodes;
        Ok(())
    }

    /// The line of the nodes.
    #[tactic(auto, unfolding(crate::specs::Drafts::nodes_taken))]
    fn take_nodes(&mut self, line: &mut Parts) -> Result<(), Failure>
        ensures { Takes result self.new (nodes_taken (state_of self.old) line.old) }
    {
        line.keyword(b"nodes".as_slice())?;
        let nodes = line.number_in(1, 9)? as u8;
        line.end()?;
        self.head.nodes = nodes;
        self.stage = Stage::Slots;
        Ok(())
    }

    /// The line of the slots.
    #[tactic(auto, unfolding(crate::specs::Drafts::slots_taken))]
    fn take_slots(&mut self, line: &mut Parts) -> Result<(), Failure>
        ensures { Takes result self.new (slots_taken (state_of self.old) line.old) }
    {
        line.keyword(b"slots".as_slice())?;
        let slots = line.number_in(1, 9)? as u8;
        line.end()?;
        self.head.slots = slots;
        self.stage = Stage::Directory;
        Ok(())
    }

    /// The line of the directory.
    #[tactic(auto, unfolding(crate::specs::Drafts::directory_taken))]
    fn take_directory(&mut self, line: &mut Parts) -> Result<(), Failure>
        ensures { Takes result self.new (directory_taken (state_of self.old) line.old) }
    {
        line.keyword(b"directory".as_slice())?;
        let directory = line.nodes(&NodeRule {
            nodes: self.head.nodes,
            most: Some(self.head.nodes),
            owner: None,
        })?;
        if directory.is_empty() {
            return Err(Failure::Kind(Kind::Word));
        }
        self.head.directory = directory;
        self.stage = Stage::Degree;
        Ok(())
    }

    /// The words behind `degree`.
    #[tactic(auto, unfolding(crate::specs::Drafts::degree_taken))]
    fn take_degree(&mut self, line: &mut Parts) -> Result<(), Failure>
        ensures { Takes result self.new (degree_taken (state_of self.old) line.old) }
    {
        let degree = line.number_in(1, 9)? as u8;
        line.end()?;
        self.head.degree = Some(degree);
        self.stage = Stage::Objects;
        Ok(())
    }

    /// The words behind `object`.
    #[tactic(auto, unfolding(crate::specs::Drafts::object_taken))]
    fn take_object(&mut self, line: &mut Parts) -> Result<(), Failure>
        ensures { Takes result self.new (object_taken (state_of self.old) line.old) }
    {
        if self.names.len() == MOST_OBJECTS {
            return Err(Failure::Kind(Kind::Long));
        }
        let (name, declared) = object_of(line, &self.head, &self.names)?;
        // The check finds the type of the value only where it is named.
        let value: Value = declared.value;
        self.objects.push(ObjectDecl { value, ..declared })?;
        self.names.push(name)?;
        self.stage = Stage::Objects;
        Ok(())
    }

    /// The words behind `tx`.
    #[tactic(auto, unfolding(crate::specs::Drafts::tx_taken))]
    fn take_tx(&mut self, live: bool, line: &mut Parts) -> Result<(), Failure>
        ensures { Takes result self.new (tx_taken live (state_of self.old) line.old) }
    {
        if live && self.txs.len() == MOST_LIVE_TXS {
            return Err(Failure::Kind(Kind::Live));
        }
        if self.txs.len() == MOST_TXS {
            return Err(Failure::Kind(Kind::Long));
        }
        let alloc = *self.txs.allocator();
        let number = self.txs.len() as u32;
        let tx = tx_of(line, alloc, &self.head, &self.names, number)?;
        self.txs.push(tx)?;
        self.stage = Stage::Txs;
        Ok(())
    }

    /// The words behind `run`.
    #[tactic(auto, unfolding(crate::specs::Drafts::run_taken))]
    fn take_run(&mut self, line: &mut Parts) -> Result<(), Failure>
        ensures { Takes result self.new (run_taken (state_of self.old) line.old) }
    {
        line.end()?;
        self.stage = Stage::Steps;
        Ok(())
    }

    /// The words behind the word of a step.
    #[tactic(auto, unfolding(crate::specs::Drafts::step_taken))]
    fn take_step(&mut self, live: bool, word: StepWord, line: &mut Parts) -> Result<(), Failure>
        ensures { Takes result self.new (step_taken live (state_of self.old) word line.old) }
    {
        if live {
            return Err(Failure::Kind(Kind::Live));
        }
        if self.steps.len() == MOST_STEPS {
            return Err(Failure::Kind(Kind::Long));
        }
        let step = step_of(line, word, &self.head, self.txs.len() as u32)?;
        self.steps.push(step)?;
        Ok(())
    }

    /// A line behind the objects: a transaction or `run`.
    #[tactic(auto, unfolding(crate::specs::Drafts::tx_line_taken))]
    fn take_tx_line(&mut self, live: bool, word: &[u8], line: &mut Parts) -> Result<(), Failure>
        ensures { Takes result self.new (tx_line_taken live (state_of self.old) word.now line.old) }
    {
        if word == b"tx".as_slice() {
            self.take_tx(live, line)
        } else if word == b"run".as_slice() {
            self.take_run(line)
        } else {
            Err(Failure::Kind(Kind::Word))
        }
    }

    /// A line behind the directory and the degree: an object; and where there is one, also a transaction or `run`.
    #[tactic(auto, unfolding(crate::specs::Drafts::object_line_taken))]
    fn take_object_line(&mut self, live: bool, word: &[u8], line: &mut Parts) -> Result<(), Failure>
        ensures { Takes result self.new (object_line_taken live (state_of self.old) word.now line.old) }
    {
        if word == b"object".as_slice() {
            self.take_object(line)
        } else if self.objects.is_empty() {
            Err(Failure::Kind(Kind::Word))
        } else {
            self.take_tx_line(live, word, line)
        }
    }

    /// A line right behind the directory: the degree, or an object.
    #[tactic(auto, unfolding(crate::specs::Drafts::degree_line_taken))]
    fn take_degree_line(&mut self, live: bool, word: &[u8], line: &mut Parts) -> Result<(), Failure>
        ensures { Takes result self.new (degree_line_taken live (state_of self.old) word.now line.old) }
    {
        if word == b"degree".as_slice() {
            self.take_degree(line)
        } else {
            self.take_object_line(live, word, line)
        }
    }

    /// A line behind `run`: `end`, or a step. Whether it was the last line.
    #[tactic(auto, unfolding(crate::specs::Drafts::step_line_taken, crate::specs::Drafts::more))]
    fn take_step_line(&mut self, live: bool, word: &[u8], line: &mut Parts) -> Result<bool, Failure>
        ensures { TakesLine result self.new (step_line_taken live (state_of self.old) word.now line.old) }
    {
        if word == b"end".as_slice() {
            line.end()?;
            return Ok(true);
        }
        let Some(step) = step_word_of(word) else {
            return Err(Failure::Kind(Kind::Word));
        };
        self.take_step(live, step, line)?;
        Ok(false)
    }

    /// A line of the body, of its first word and the words behind it. Whether it was the last line.
    #[tactic(auto, unfolding(crate::specs::Drafts::body_taken, crate::specs::Drafts::more))]
    fn take_body(&mut self, live: bool, word: &[u8], line: &mut Parts) -> Result<bool, Failure>
        ensures { TakesLine result self.new (body_taken live (state_of self.old) self.old.stage word.now line.old) }
    {
        match self.stage {
            Stage::Degree => self.take_degree_line(live, word, line)?,
            Stage::Objects => self.take_object_line(live, word, line)?,
            Stage::Txs => self.take_tx_line(live, word, line)?,
            _ => return self.take_step_line(live, word, line),
        }
        Ok(false)
    }

    /// The next line. Whether it was the last one.
    #[tactic(auto, unfolding(crate::specs::Drafts::line_taken, crate::specs::Drafts::more))]
    pub(crate) fn take_line(&mut self, live: bool, line: &mut Parts) -> Result<bool, Failure>
        ensures { TakesLine result self.new (line_taken live (state_of self.old) self.old.stage line.old) }
    {
        match self.stage {
            Stage::Version => self.take_version(line)?,
            Stage::Nodes => self.take_nodes(line)?,
            Stage::Slots => self.take_slots(line)?,
            Stage::Directory => self.take_directory(line)?,
            _ => {
                let word = line.word()?;
                return self.take_body(live, word, line);
            }
        }
        Ok(false)
    }
}
