//! How the cells of a store are kept, and how they are added.
ghost use Rattle.std.specs.Prelude.{◌≡◌, ◌++◌, ◌∷◌, [], IfOk, OnOk, OnErr, length, replicate};
ghost use Rattle.pm_store.specs.declared.slots.Slot.TheVariants.{Unbound, Made};
ghost use Rattle.pm_store.specs.Inside.Slots.{start_in, start_at};

use crate::store::Addr;
use std::alloc::AllocError;

/// A cell. Each has the number of arguments before it: an application's own begin there.
#[derive(Clone, Copy, Debug)]
pub enum Slot {
    Unbound { start: u32 },
    Bound { start: u32, target: Addr },
    Made { start: u32, symbol: u32, count: u32 },
}

/// How many arguments there were before the cell.
pub fn start_of(slot: Slot) -> u32
    ensures { result ≡ start_in slot }
{
    match slot {
        Slot::Unbound { start } => start,
        Slot::Bound { start, .. } => start,
        Slot::Made { start, .. } => start,
    }
}

/// How many arguments there were before a cell, of so many in all.
pub fn start_before(slots: &Vec<Slot>, all: usize, cell: usize) -> usize
    ensures { result ≡ start_at slots.now.items all cell }
{
    match slots.get(cell) {
        Some(slot) => start_of(*slot) as usize,
        None => all,
    }
}

/// Adds a variable. After want of memory nothing has changed.
pub fn add_variable(slots: &mut Vec<Slot>, args: &Vec<Addr>) -> Result<usize, AllocError>
    ensures place { IfOk result (λ cell. cell ≡ length slots.old.items) }
    ensures ok { OnOk result (slots.new.items ≡ slots.old.items
        ++ Unbound (length args.now.items) ∷ []) }
    ensures err { OnErr result (slots.new.items ≡ slots.old.items) }
{
    let start = narrow(args.len())?;
    let place = slots.len();
    slots.push(Slot::Unbound { start })?;
    Ok(place)
}

/// Adds so many variables, and gives the first one's place. After want of memory nothing has
/// changed.
pub fn add_variables(
    slots: &mut Vec<Slot>,
    args: &Vec<Addr>,
    count: usize,
) -> Result<usize, AllocError>
    ensures place { IfOk result (λ first. first ≡ length slots.old.items) }
    ensures ok { OnOk result (slots.new.items ≡ slots.old.items
        ++ replicate count (Unbound (length args.now.items))) }
    ensures err { OnErr result (slots.new.items ≡ slots.old.items) }
{
    let start = narrow(args.len())?;
    let first = slots.len();
    match first.checked_add(count) {
        Some(total) => {
            slots.resize(total, Slot::Unbound { start })?;
            Ok(first)
        }
        None => Err(AllocError),
    }
}

/// Adds an application of a symbol to cells. After want of memory nothing has changed.
pub fn add_application(
    slots: &mut Vec<Slot>,
    args: &mut Vec<Addr>,
    symbol: u32,
    more: &[Addr],
) -> Result<usize, AllocError>
    ensures place { IfOk result (λ cell. cell ≡ length slots.old.items) }
    ensures ok { OnOk result (slots.new.items ≡ slots.old.items
        ++ Made (length args.old.items) symbol (length more.now) ∷ []) }
    ensures args { OnOk result (args.new.items ≡ args.old.items ++ more.now) }
    ensures err { OnErr result (slots.new.items ≡ slots.old.items) }
    ensures err_args { OnErr result (args.new.items ≡ args.old.items) }
{
    let start = narrow(args.len())?;
    let count = narrow(more.len())?;
    slots.reserve(1)?;
    args.extend_from_slice(more)?;
    let cell = slots.len();
    slots.push_reserved(Slot::Made {
        start,
        symbol,
        count,
    });
    Ok(cell)
}

// The number in fewer bits. A store with more arguments wants memory.
fn narrow(number: usize) -> Result<u32, AllocError>
    ensures { IfOk result (λ narrowed. narrowed ≡ number) }
{
    match u32::try_from(number) {
        Ok(narrowed) => Ok(narrowed),
        Err(_) => Err(AllocError),
    }
}
