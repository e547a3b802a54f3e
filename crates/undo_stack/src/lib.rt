//! The closed layers of a loop, with undo and redo.
//!
//! - `LayerStack` keeps the pieces of all layers in one list, oldest first, and the undone ones
//!   behind. Each layer is a range of it. There is room for 65536 pieces and 256 layers, redo
//!   layers included, and only `new` takes memory.
//! - `undo` and `redo` move one number, and no piece. `add` puts a layer on top, and `drop_redo`
//!   drops what was undone.
//! - No call changes the pieces of a layer that stays.
//! - The current layer keeps a hint: where it was read last. What is read in order is found from
//!   there.
//!
//! Begin with `stack`. The rules are "Layers", "The stack" and "History: undo and redo" in
//! docs/rules.md.
#![tactic(auto)]

mod stack;
#[cfg(test)]
mod tests;

pub use stack::LayerStack;
