//! Layers as ranges of pieces, with undo and redo.

ghost use Rattle.std.specs.Prelude.{◌≡◌, ◌≤◌, ◌<◌, ◌+◌, [], ◌∷◌, length, IsTrue, ◌↔◌, IfOk, get_or};
ghost use Rattle.std.specs.List.{AllByRecursion};
ghost use Rattle.sl_base.specs.Limits.{max_layers, max_list_frames, max_seams};
ghost use Rattle.looper_rules.specs.Layers.{current_cycle, current_end, current_list, current_seams, total_seams};
ghost use Rattle.pieces.specs.Pieces.{Solid, addresses};
ghost use Rattle.pieces.specs.Splitting.{IsHint};
ghost use Rattle.undo_stack.specs.Layered.{IsPieced, current_pieces, layers_added, layers_kept, layers_redone, layers_undone};

use pieces::{Hint, Piece, find_from, nearest, push_all, total_in};
use sl_base::{MAX_LAYERS, MAX_SEAMS, Memory};
use std::alloc::Global;
use std::marker::Model;

/// Where a layer's pieces stand, how many addresses they have, and the layer's numbers.
#[derive(Clone, Copy)]
pub(crate) struct Mark {
    start: u32,
    count: u32,
    length: u32,
    cycle: u32,
    end: u32,
    seams: u32,
}

/// Closed layers, and those that were undone.
#[derive(Drop)]
pub struct LayerStack {
    pieces: Vec<Piece>,
    marks: Vec<Mark>,
    layers: usize,
    hint: Hint,
}

impl Model for LayerStack {
    ghost use Rattle.undo_stack.specs.Layered.{LayersOf};
    ghost use Rattle.undo_stack.specs.Ranges.{IsStack, layers_of};

    ghost Value = { LayersOf };

    ghost view = { layers_of };

    ghost invariant = { IsStack };
}

impl LayerStack {
    /// No layers, and room for all.
    pub fn new(alloc: Global) -> Result<LayerStack, Memory>
        ensures { IfOk result (λ s. s ≡ record { layers = []; redo = []; pieces = [] }) }
    {
        let pieces = Vec::with_capacity(alloc, MAX_SEAMS as usize)?;
        let marks = Vec::with_capacity(alloc, MAX_LAYERS as usize)?;
        Ok(LayerStack {
            pieces,
            marks,
            layers: 0,
            hint: Hint::front(),
        })
    }

    /// What always holds.
    #[tactic(auto, using(crate::proofs::StackLemmas::totals))]
    pub fn facts(&self)
        ensures seams { total_seams self.now.layers + total_seams self.now.redo ≤ max_seams }
        ensures count { length self.now.layers + length self.now.redo ≤ max_layers }
        ensures pieces { length self.now.pieces ≡ length self.now.layers + length self.now.redo }
        ensures pieced { AllByRecursion IsPieced self.now.layers }
        ensures redo_pieced { AllByRecursion IsPieced self.now.redo }
    {
        let _layers = self.layers;
    }

    /// How many layers and redo layers there are, together at most 256.
    pub fn counts(&self) -> (u32, u32)
        ensures layers { result.0 ≡ length self.now.layers }
        ensures redo { result.1 ≡ length self.now.redo }
    {
        (self.layers as u32, (self.marks.len() - self.layers) as u32)
    }

    /// The end of the current layer, 0 without one.
    pub fn end(&self) -> u32
        ensures { result ≡ current_end self.now.layers }
    {
        if self.layers == 0 {
            0
        } else {
            self.marks[self.layers - 1].end
        }
    }

    /// The seams of the current layer, 0 without one.
    pub fn seams(&self) -> u32
        ensures { result ≡ current_seams self.now.layers }
    {
        if self.layers == 0 {
            0
        } else {
            self.marks[self.layers - 1].seams
        }
    }

    /// The cycle of the current layer, 0 without one.
    pub fn cycle(&self) -> u32
        ensures { result ≡ current_cycle self.now.layers }
    {
        if self.layers == 0 {
            0
        } else {
            self.marks[self.layers - 1].cycle
        }
    }

    /// The seams of the next redo layer, 0 without one.
    pub fn redo_seams(&self) -> u32
        ensures { result ≡ current_seams self.now.redo }
    {
        if self.layers == self.marks.len() {
            0
        } else {
            self.marks[self.layers].seams
        }
    }

    /// The length of the current layer's list, 0 without one.
    #[tactic(auto, using(crate::proofs::StackLemmas::currents))]
    pub fn len(&self) -> u32
        ensures value { result ≡ length (current_list self.now.layers) }
        ensures within { result ≤ max_list_frames }
    {
        if self.layers == 0 {
            0
        } else {
            self.marks[self.layers - 1].length
        }
    }

    /// The pieces of a layer, counted from the oldest, the redo layers behind.
    #[tactic(auto, using(crate::proofs::StackLemmas::currents))]
    pub fn layer(&self, index: u32) -> &[Piece]
        requires { index < length self.now.pieces }
        ensures value { result.now ≡ get_or self.now.pieces index [] }
        ensures solid { Solid result.now }
    {
        let mark = self.marks[index as usize];
        &self.pieces[mark.start as usize..mark.start as usize + mark.count as usize]
    }

    /// The pieces of the current layer, none without one.
    #[tactic(auto, using(crate::proofs::StackLemmas::currents))]
    pub fn current(&self) -> &[Piece]
        ensures value { result.now ≡ current_pieces self.now }
        ensures addresses { addresses result.now ≡ current_list self.now.layers }
        ensures solid { Solid result.now }
        ensures few { length result.now ≤ current_seams self.now.layers }
        ensures short { length (addresses result.now) ≤ max_list_frames }
    {
        if self.layers == 0 {
            return &self.pieces[0..0];
        }
        let mark = self.marks[self.layers - 1];
        &self.pieces[mark.start as usize..mark.start as usize + mark.count as usize]
    }

    /// Where a search among the current layer's pieces for this place, or for the end, begins.
    #[tactic(auto, using(crate::proofs::StackLemmas::currents))]
    pub fn near(&self, place: u32) -> Hint
        requires { place ≤ length (current_list self.now.layers) }
        ensures { IsHint (current_pieces self.now) result.piece result.begin }
    {
        nearest(self.current(), self.hint, self.len(), place)
    }

    /// Has searches in the current layer begin at this place. It changes nothing that is seen.
    #[tactic(auto, using(crate::proofs::StackLemmas::currents))]
    pub fn seek(&mut self, place: u32)
        requires { place ≤ length (current_list self.old.layers) }
        ensures { self.new ≡ self.old }
    {
        self.hint = find_from(self.current(), self.near(place), place);
    }

    /// Drops the redo layers.
    #[tactic(auto, using(crate::proofs::StackLemmas::cuts))]
    pub fn drop_redo(&mut self)
        ensures { self.new ≡ layers_kept self.old }
    {
        self.hint = Hint::front();
        self.marks.truncate(self.layers);
        if self.layers == 0 {
            self.pieces.truncate(0);
        } else {
            let mark = self.marks[self.layers - 1];
            self.pieces
                .truncate(mark.start as usize + mark.count as usize);
        }
    }

    /// Adds a closed layer, a copy of these pieces.
    #[tactic(auto, using(crate::proofs::StackLemmas::adds))]
    pub fn add(&mut self, pieces: &[Piece], cycle: u32, end: u32, seams: u32)
        requires solid { Solid pieces.now }
        requires few { length pieces.now ≤ seams }
        requires short { length (addresses pieces.now) ≤ max_list_frames }
        requires redo { self.old.redo ≡ [] }
        requires count { length self.old.layers < max_layers }
        requires seams { total_seams self.old.layers + seams ≤ max_seams }
        ensures { self.new ≡ layers_added pieces.now cycle end seams self.old }
    {
        let length = total_in(pieces);
        let start = self.pieces.len();
        push_all(&mut self.pieces, pieces);
        self.marks.push_reserved(Mark {
            start: start as u32,
            count: pieces.len() as u32,
            length,
            cycle,
            end,
            seams,
        });
        self.layers += 1;
        self.hint = Hint::front();
    }

    /// Puts the current layer among the redo layers. False, and nothing changes, exactly where
    /// there is none.
    #[tactic(auto, using(crate::proofs::StackLemmas::moves))]
    pub fn undo(&mut self) -> bool
        ensures value { IsTrue result ↔ (0 < length self.old.layers) }
        ensures after { self.new ≡ layers_undone self.old }
    {
        if self.layers == 0 {
            return false;
        }
        self.layers -= 1;
        self.hint = Hint::front();
        true
    }

    /// Puts the next redo layer on top. False, and nothing changes, exactly where there is none.
    #[tactic(auto, using(crate::proofs::StackLemmas::moves))]
    pub fn redo(&mut self) -> bool
        ensures value { IsTrue result ↔ (0 < length self.old.redo) }
        ensures after { self.new ≡ layers_redone self.old }
    {
        if self.layers == self.marks.len() {
            return false;
        }
        self.layers += 1;
        self.hint = Hint::front();
        true
    }
}
