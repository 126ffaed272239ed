//! Lists that grow.
ghost use Rattle.std.specs.Prelude.{◌≡◌, ◌++◌, ◌∷◌, [], OnOk};
ghost use Rattle.random_schedule.specs.Lists.{if_passes, if_there};

use zeus_base::NoMemory;

/// Adds an item.
///
/// # Errors
/// `NoMemory` if the memory for it is not there.
pub(crate) fn push<T: Drop>(list: &mut Vec<T>, item: T) -> Result<(), NoMemory>
    ensures { OnOk result (list.new.items ≡ list.old.items ++ item ∷ []) }
{
    list.push(item).map_err(|_| NoMemory)
}

/// Adds the item if the test holds.
///
/// # Errors
/// `NoMemory` if the memory for it is not there.
pub(crate) fn push_if<T: Drop>(list: &mut Vec<T>, test: bool, item: T) -> Result<(), NoMemory>
    ensures { OnOk result (list.new.items ≡ list.old.items ++ if_passes test item) }
{
    if test { push(list, item) } else { Ok(()) }
}

/// Adds the item if there is one.
///
/// # Errors
/// `NoMemory` if the memory for it is not there.
#[tactic(auto, unfolding(crate::specs::Lists::if_there))]
pub(crate) fn push_some<T: Drop>(list: &mut Vec<T>, item: Option<T>) -> Result<(), NoMemory>
    ensures { OnOk result (list.new.items ≡ list.old.items ++ if_there item) }
{
    match item {
        None => Ok(()),
        Some(item) => push(list, item),
    }
}
