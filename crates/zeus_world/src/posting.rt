//! What is written down when a node has acted: its passes in the book, and its letters on their links.
ghost use Rattle.std.specs.Prelude.{◌≡◌, ◌≤◌, ◌+◌, ◌++◌, length, vec_capacity, vec_len};
ghost use Rattle.zeus_model.specs.World.{all_posted};
ghost use Rattle.lossy_fabric.specs.Links.{letters};
ghost use Rattle.zeus_world.specs.Posting.{CanPost, link_numbers};
ghost use Rattle.zeus_world.specs.Settling.{CanSettle, IsSettled};

use crate::event::StepEvent;
use crate::order::Passes;
use history_book::Book;
use lossy_fabric::Links;
use zeus_base::NodeId;
use zeus_node::Effect;
use zeus_packet::Letter;

/// Puts each of the letters behind those of its link, and notes its number there.
pub(crate) fn post_all(links: &mut Links, batch: &[Letter], numbers: &mut Vec<u32>)
    requires links { CanPost links.old batch.now }
    requires room { vec_len numbers.old + length batch.now ≤ vec_capacity numbers.old }
    ensures links { letters links.new ≡ all_posted (letters links.old) batch.now }
    ensures numbers { numbers.new.items ≡ numbers.old.items ++ link_numbers (letters links.old) batch.now }
    ensures room { vec_capacity numbers.old ≤ vec_capacity numbers.new }
{
    for letter in batch {
        let number = links.send(letter);
        numbers.push_reserved(number);
    }
}

/// The node has acted with this effect: what has passed goes into the book in the order of streams, the letters go to
/// their links and into the event, and the step is over.
pub(crate) fn settle(
    at: NodeId,
    effect: &mut Effect,
    passes: &mut Passes,
    book: &mut Book,
    links: &mut Links,
    event: &mut StepEvent,
)
    requires { CanSettle book.old links.old effect.old.sent event.old }
    ensures { IsSettled at effect.old.sent effect.old.passed book.old book.new links.old links.new event.old event.new }
{
    passes.fill(&effect.passed);
    book.pass_each(at, passes.as_slice(), &mut event.points, &mut event.acked);
    event.sent.post(links, effect);
    book.count();
}
