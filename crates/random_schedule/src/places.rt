//! The element that a word chooses.
ghost use Rattle.std.specs.Prelude.{◌≡◌};
ghost use Rattle.random_schedule.specs.Choices.{chosen};

use zeus_base::{NodeId, NodeSet};

/// The element at place `u` modulo the length, if there is one.
pub(crate) fn chosen<T: Copy>(u: u32, list: &[T]) -> Option<T>
    ensures { result ≡ chosen u list.now }
{
    if list.is_empty() {
        return None;
    }
    list.get(u as usize % list.len()).copied()
}

/// The node at place `u` modulo their number, if there is one.
pub(crate) fn chosen_node(u: u32, nodes: NodeSet) -> Option<NodeId>
    ensures { result ≡ chosen u nodes }
{
    if nodes.is_empty() {
        return None;
    }
    let mut left = u % u32::from(nodes.count());
    for node in nodes {
        if left == 0 {
            return Some(node);
        }
        left -= 1;
    }
    None
}
