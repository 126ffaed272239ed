//! A ring with both its ends.
ghost use Rattle.std.specs.Prelude.{◌≡◌, ◌<◌, [], IfOk};

use crate::item::Item;
use crate::ring_in::RingIn;
use crate::ring_out::RingOut;
use crate::rule::{Rule, Under};
use rtrb::RingBuffer;
use std::alloc::{AllocError, Global};

#[tactic(auto, using(crate::proofs::Heads::headed_first, crate::proofs::Heads::allowed_first, crate::proofs::Heads::carried_head))]
/// A ring with `room` places beside the head, which both ends know. All its memory is taken here.
///
/// # Errors
///
/// `AllocError` where that memory is not there, and where so many items are more than memory can hold.
pub fn ring<H: Copy + Drop, T: Drop, R: Rule<H, T>>(
    alloc: Global,
    room: usize,
    head: H,
) -> Result<(RingOut<H, T, R>, RingIn<H, T, R>), AllocError>
    requires room { 0 < room }
    ensures pair { IfOk result (λ ends. ends.0.ring ≡ ends.1.ring) }
    ensures heads { IfOk result (λ ends. (ends.0.head ≡ head) × (ends.1.head ≡ head)) }
    ensures rooms { IfOk result (λ ends. (ends.0.room ≡ room) × (ends.1.room ≡ room)) }
    ensures empty { IfOk result (λ ends. (ends.0.put ≡ []) × (ends.1.taken ≡ [])) }
    ensures free { IfOk result (λ ends. ends.0.free ≡ room) }
    ensures known { IfOk result (λ ends. ends.1.known ≡ []) }
{
    let (mut producer, mut consumer) = RingBuffer::with_protocol::<Global, Under<R>>(alloc, room)?;
    producer.push_reserved(Item::Head(head));
    consumer.slots_beside(&mut producer);
    consumer.pop_known();
    producer.slots_beside(&mut consumer);
    consumer.slots_beside(&mut producer);
    let out = RingOut {
        end: producer,
        head,
    };
    let taker = RingIn {
        end: consumer,
        head,
    };
    Ok((out, taker))
}
