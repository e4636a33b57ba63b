//! A valuer, which takes messages from the lane until it is done and returns their items.

ghost use Rattle.std.specs.Prelude.{◌≡◌, ◌≤◌, ◌++◌, true, [], ◌∷◌, length, OnOk, OnErr, IsFalse, IsTrue};
ghost use Rattle.lane.specs.MessageKinds.{is_done};
ghost use Rattle.plan_parts.specs.Destinations.{formulas_of};
ghost use Rattle.rows.specs.ItemsView.{IsFull, IsFullFor};
ghost use Rattle.valuers.specs.Valuing.{AreOneToEight, IsPrefixOf, TookMore, WereCalled, WerePassed, items_by, items_since};
ghost use Rattle.plan_parts.specs.declared.ranges.TheConstants.{MAX_DESTINATIONS};

use crate::gate::Gate;
use crate::valuing::worths_of;
use lane::{TakeEnd, Taken};
use plan_parts::block::Block;
use plan_parts::formulas::destination::{Destination, Valuer};
use rows::{Items, Keeps, PackedItems};
use std::alloc::{AllocError, Global};
use std::sync::Wait;

/// The result of a valuer. `K` stores its items: unchanged, or packed without the space that a row does not use.
#[derive(Drop)]
pub struct ValuerResult<K = Items> {
    /// Its take end, which is done.
    pub taker: TakeEnd,
    /// The rows and end marks that it took, in order. If memory was refused, only a prefix of them.
    pub items: K,
    /// Whether memory for an item was refused. From then on the valuer took messages and dropped them.
    pub memory: bool,
}

/// Takes messages until the take end is done, and values each row at each of the 1 to 8 destinations by the destinations' stored
/// closures. Calls `gate` before it values a row.
///
/// If memory for an item is refused, drops this item and all later ones, and continues to take messages, so that no reader
/// waits for ever. Memory is refused only if the list has no capacity left for an item.
pub fn value_all<R: Wait, G: Gate>(
    rt: &R,
    alloc: Global,
    take_end: TakeEnd,
    valuer: u8,
    destinations: &[Destination],
    gate: &G,
) -> ValuerResult
    requires some { 1 ≤ length destinations.now }
    requires few { length destinations.now ≤ MAX_DESTINATIONS }
    ensures taker { TookMore take_end result.taker }
    ensures done { is_done result.taker.took ≡ true }
    ensures items { IsFalse result.memory → result.items.items ≡ items_since (formulas_of destinations.now) take_end result.taker }
    ensures prefix { IsPrefixOf (items_since (formulas_of destinations.now) take_end result.taker) result.items.items }
    ensures full { IsTrue result.memory → IsFull result.items }
    ensures passed { WerePassed (G.passed_row gate.now valuer) result.items.items }
    ensures asked { WereCalled ⟦<Valuer as Fn(Block) -> i128>⟧.post destinations.now
        result.items.items }
{
    let items = Vec::new(alloc);
    let (taker, items, memory) = take_all(rt, take_end, valuer, destinations, gate, items);
    ValuerResult {
        taker,
        items: Items::new(items),
        memory,
    }
}

/// Does what `value_all` does, but stores each row packed, and contracts see the capacity left for rows with one worth for each
/// destination.
pub fn value_packed<R: Wait, G: Gate>(
    rt: &R,
    alloc: Global,
    take_end: TakeEnd,
    valuer: u8,
    destinations: &[Destination],
    gate: &G,
) -> ValuerResult<PackedItems>
    requires some { 1 ≤ length destinations.now }
    requires few { length destinations.now ≤ MAX_DESTINATIONS }
    ensures taker { TookMore take_end result.taker }
    ensures done { is_done result.taker.took ≡ true }
    ensures items { IsFalse result.memory → result.items.items ≡ items_since (formulas_of destinations.now) take_end result.taker }
    ensures prefix { IsPrefixOf (items_since (formulas_of destinations.now) take_end result.taker) result.items.items }
    ensures full { IsTrue result.memory → IsFullFor (length destinations.now) result.items }
    ensures passed { WerePassed (G.passed_row gate.now valuer) result.items.items }
    ensures asked { WereCalled ⟦<Valuer as Fn(Block) -> i128>⟧.post destinations.now
        result.items.items }
{
    let items = PackedItems::new(alloc, destinations.len());
    let (taker, items, memory) = take_all(rt, take_end, valuer, destinations, gate, items);
    ValuerResult {
        taker,
        items,
        memory,
    }
}

// Does the same into an empty list, for rows with one worth for each destination. Memory is refused only if the list has no capacity left
// for a row.
fn take_all<R: Wait, G: Gate, K: Keeps>(
    rt: &R,
    mut take_end: TakeEnd,
    valuer: u8,
    destinations: &[Destination],
    gate: &G,
    mut items: K,
) -> (TakeEnd, K, bool)
    requires few { AreOneToEight destinations.now }
    requires list { (K.held items ≡ []) × K.is_for items (length destinations.now) }
    ensures taker { TookMore take_end result.0 }
    ensures done { is_done result.0.took ≡ true }
    ensures items { IsFalse result.2 → K.held result.1 ≡ items_since (formulas_of destinations.now) take_end result.0 }
    ensures prefix { IsPrefixOf (items_since (formulas_of destinations.now) take_end result.0) (K.held result.1) }
    ensures width { K.is_for result.1 (length destinations.now) }
    ensures full { IsTrue result.2 → K.is_full result.1 (length destinations.now) }
    ensures passed { WerePassed (G.passed_row gate.now valuer) (K.held result.1) }
    ensures asked { WereCalled ⟦<Valuer as Fn(Block) -> i128>⟧.post destinations.now (K.held result.1) }
{
    let mut memory = false;
    for _ in rt.forever() {
        if take_end.is_done() {
            break;
        }
        let message = take_end.take(rt);
        if !memory {
            memory = push_item(rt, message, valuer, destinations, gate, &mut items).is_err();
        }
    }
    (take_end, items, memory)
}

// Appends the item of a message; a Stop or Quit has none. For a row, calls the gate and then the closures.
fn push_item<R: Wait, G: Gate, K: Keeps>(
    rt: &R,
    message: Taken,
    valuer: u8,
    destinations: &[Destination],
    gate: &G,
    items: &mut K,
) -> Result<(), AllocError>
    requires few { AreOneToEight destinations.now }
    requires width { K.is_for items.old (length destinations.now) }
    ensures pushed { OnOk result
        (K.held items.new ≡ K.held items.old ++ items_by (formulas_of destinations.now) (message ∷ [])) }
    ensures kept { OnErr result (K.held items.new ≡ K.held items.old) }
    ensures width { K.is_for items.new (length destinations.now) }
    ensures full { OnErr result (K.is_full items.new (length destinations.now)) }
    ensures passed { OnOk result (WerePassed (G.passed_row gate.now valuer) (items_by (formulas_of destinations.now) (message ∷ []))) }
    ensures asked { OnOk result (WereCalled ⟦<Valuer as Fn(Block) -> i128>⟧.post destinations.now
        (items_by (formulas_of destinations.now) (message ∷ []))) }
{
    match message {
        Taken::Row { file, place, block } => {
            gate.row(rt, valuer, file, place);
            let worths = worths_of(block, destinations);
            items.keep_row(file, place, block, worths)
        }
        Taken::End { file, rows } => items.keep_end(file, rows),
        Taken::Stop | Taken::Quit => Ok(()),
    }
}

#[cfg(test)]
mod tests;
