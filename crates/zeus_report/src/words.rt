//! The words of a report alone: stamps, sets of nodes and states of copies.
ghost use Rattle.std.specs.Prelude.{◌≡◌, ◌++◌, OnOk};
ghost use Rattle.zeus_model.specs.ReportWords.{stream_text, stamp_text, nodes_text, optional_node, state_text};
ghost use Rattle.zeus_model.specs.Spelling.{word};

use zeus_base::{NoMemory, NodeId, NodeSet, Stamp, Stream};
use zeus_packet::State;
use zeus_text::{append, write_behind, write_number};

/// Writes a space and the stream as `node.slot`.
pub(crate) fn write_stream(out: &mut Vec<u8>, stream: &Stream) -> Result<(), NoMemory>
    ensures { OnOk result (out.new.items ≡ out.old.items ++ word (stream_text stream.now)) }
{
    write_number(out, u64::from(stream.node.0))?;
    write_behind(out, b'.', u64::from(stream.slot.0))
}

/// Writes a space and the stamp as `version.driver`.
#[inline(always)]
pub(crate) fn write_stamp(out: &mut Vec<u8>, stamp: &Stamp) -> Result<(), NoMemory>
    ensures { OnOk result (out.new.items ≡ out.old.items ++ word (stamp_text stamp.now)) }
{
    write_number(out, stamp.ver)?;
    write_behind(out, b'.', u64::from(stamp.driver.0))
}

/// Writes a text, and then a stamp behind a space.
pub(crate) fn write_stamped(out: &mut Vec<u8>, text: &[u8], stamp: &Stamp) -> Result<(), NoMemory>
    ensures { OnOk result (out.new.items ≡ out.old.items ++ text.now ++ word (stamp_text stamp.now)) }
{
    append(out, text)?;
    write_stamp(out, stamp)
}

/// Writes a space and the numbers of the nodes with commas between, or `-` where there is none.
#[tactic(auto, unfolding(zeus_model::specs::ReportWords::nodes_text, zeus_model::specs::ReportWords::more_nodes_text))]
#[inline(always)]
pub(crate) fn write_nodes(out: &mut Vec<u8>, set: NodeSet) -> Result<(), NoMemory>
    ensures { OnOk result (out.new.items ≡ out.old.items ++ word (nodes_text set)) }
{
    let mut nodes = set.nodes();
    match nodes.next() {
        None => append(out, b" -"),
        Some(first) => {
            write_number(out, u64::from(first.0))?;
            for node in nodes {
                write_behind(out, b',', u64::from(node.0))?;
            }
            Ok(())
        }
    }
}

/// Writes a space and the node, or `-` where there is none.
#[tactic(auto, unfolding(zeus_model::specs::ReportWords::optional_node))]
pub(crate) fn write_optional_node(out: &mut Vec<u8>, node: Option<NodeId>) -> Result<(), NoMemory>
    ensures { OnOk result (out.new.items ≡ out.old.items ++ optional_node node) }
{
    match node {
        Some(node) => write_number(out, u64::from(node.0)),
        None => append(out, b" -"),
    }
}

/// The word for the state of a copy.
#[tactic(auto, unfolding(zeus_model::specs::ReportWords::state_text))]
pub(crate) fn state_text(state: State) -> &'static [u8]
    ensures { result.now ≡ state_text state }
{
    match state {
        State::Valid => b"valid",
        State::Invalid => b"invalid",
        State::Write => b"write",
    }
}
