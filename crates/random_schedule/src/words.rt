//! The words that make a schedule random.
ghost use Rattle.std.specs.Prelude.{◌≡◌, ◌<◌};
ghost use Rattle.random_schedule.specs.Words.{next_word, pick, words_from};

use rand_core::utils::NextWord;
use rand_pcg::Pcg32;
use std::marker::Model;

/// The stream of the generator that the words are taken from.
const STREAM: u64 = 1;

/// Words of a generator, one after another, seen as its state.
#[derive(Drop)]
pub struct Words {
    generator: Pcg32,
}

impl Model for Words {
    ghost use Rattle.rand_pcg.specs.Lcg.{Lcg};

    ghost Value = { Lcg };

    ghost view = { λ w. w.generator };
}

impl Words {
    /// The words that begin at this number: those of `Pcg32::new(start, 1)`.
    #[tactic(auto, unfolding(crate::specs::Words::words_from))]
    pub fn new(start: u64) -> Words
        ensures { result ≡ words_from start }
    {
        Words {
            generator: Pcg32::new(start, STREAM),
        }
    }

    /// The next word.
    #[tactic(auto, unfolding(crate::specs::Words::next_word))]
    pub fn word(&mut self) -> u32
        ensures { (result, self.new) ≡ next_word self.old }
    {
        self.generator.next_word()
    }

    /// A number below `n`, which is above 0: the next word modulo `n`.
    pub fn pick(&mut self, n: u32) -> u32
        requires { 0 < n }
        ensures picked { (result, self.new) ≡ pick n self.old }
        ensures below { result < n }
    {
        self.word() % n
    }
}
