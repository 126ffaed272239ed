//! What the first lines of a script say.
ghost use Rattle.std.specs.Prelude.{◌≡◌};
ghost use Rattle.script_lang.specs.Drafts.{version_of};

use zeus_base::NodeSet;
use zeus_model::Kind;

/// The version, the ranges of nodes and slots, the directory, and the degree.
#[derive(Clone, Copy, Debug)]
pub(crate) struct Head {
    pub version: u8,
    pub nodes: u8,
    pub slots: u8,
    pub directory: NodeSet,
    pub degree: Option<u8>,
}

/// The version that a word is.
#[tactic(auto, unfolding(crate::specs::Drafts::version_of))]
pub(crate) fn version_of(word: &[u8]) -> Result<u8, Kind>
    ensures { result ≡ version_of word.now }
{
    if word == b"1".as_slice() {
        Ok(1)
    } else if word == b"2".as_slice() {
        Ok(2)
    } else {
        Err(Kind::Word)
    }
}
