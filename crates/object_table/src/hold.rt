//! Holds: a slot holds each object that one of its pending transactions names, once for each of these.
ghost use Rattle.std.specs.Prelude.{◌≡◌};
ghost use Rattle.object_table.specs.Table.{CanHold, held, hold_slot, unheld};

use zeus_base::SlotId;

/// That a slot holds an object, and how often: 1 to 16 times.
#[derive(Clone, Copy, Debug, PartialEq, Eq)]
pub struct Hold {
    pub slot: SlotId,
    pub count: u8,
}

/// The slot that holds the object.
#[tactic(auto, unfolding(crate::specs::Table::hold_slot))]
pub(crate) fn hold_slot(hold: &Option<Hold>) -> Option<SlotId>
    ensures { result ≡ hold_slot hold.now }
{
    match hold {
        None => None,
        Some(hold) => Some(hold.slot),
    }
}

/// The hold after the slot holds the object once more.
#[tactic(auto, unfolding(crate::specs::Table::held, crate::specs::Table::CanHold))]
pub(crate) fn held(slot: SlotId, hold: &Option<Hold>) -> Hold
    requires { CanHold slot hold.now }
    ensures { result ≡ held slot hold.now }
{
    match hold {
        None => Hold { slot, count: 1 },
        Some(hold) => Hold {
            slot,
            count: hold.count + 1,
        },
    }
}

/// The hold after its slot holds the object once less.
#[tactic(auto, unfolding(crate::specs::Table::unheld))]
pub(crate) fn unheld(hold: &Option<Hold>) -> Option<Hold>
    ensures { result ≡ unheld hold.now }
{
    match hold {
        None => None,
        Some(hold) => {
            if hold.count <= 1 {
                None
            } else {
                Some(Hold {
                    slot: hold.slot,
                    count: hold.count - 1,
                })
            }
        }
    }
}
