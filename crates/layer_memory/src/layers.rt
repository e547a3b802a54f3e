//! The layers of one loop, and what is asked of them.

ghost use Rattle.std.specs.Prelude.{◌≡◌, ◌≤◌, ◌<◌, ◌+◌, ◌*◌, [], length, false, IfOk, IsFalse, IsTrue};
ghost use Rattle.sl_base.specs.Limits.{max_chunks};
ghost use Rattle.looper_rules.specs.Layers.{current_end};
ghost use Rattle.looper_rules.specs.Stack.{empty_stack};
ghost use Rattle.looper_rules.specs.Opening.{opening_tape};
ghost use Rattle.looper_rules.specs.Room.{has_room, chunks_of};
ghost use Rattle.loop_tape.specs.Pools.{PoolOf};
ghost use Rattle.loop_tape.specs.Tapes.{IsWhole};
ghost use Rattle.layer_memory.specs.Seen.{seen, reach};
ghost use Rattle.layer_memory.specs.Kept.{StackBelow};
ghost use Rattle.layer_memory.specs.Sharing.{IsShared};
ghost use Rattle.layer_memory.specs.Measures.{AreSizes};

use crate::sizes::Sizes;
use lazy_fill::Fill;
use loop_tape::{Pool, Tape};
use pieces::PieceList;
use sl_base::{CHUNK_FRAMES, MAX_SEAMS, Memory};
use std::alloc::Global;
use std::marker::Model;
use undo_stack::LayerStack;

/// What an open layer has beside its list: whether it was opened over another, its cycle, and the
/// tape length of its opening.
#[derive(Clone, Copy)]
pub(crate) struct Top {
    pub(crate) over: bool,
    pub(crate) cycle: u32,
    pub(crate) end: u32,
}

/// The layers of one loop, its redo layers and its pin, on a tape. It owns the tape's chunks in the
/// pool.
#[derive(Drop)]
pub struct Layers {
    pub(crate) tape: Tape,
    pub(crate) closed: LayerStack,
    pub(crate) fill: Fill,
    pub(crate) top: Option<Top>,
    pub(crate) pin: Option<u32>,
    pub(crate) pinned: PieceList,
    pub(crate) seams: u32,
}

impl Model for Layers {
    ghost use Rattle.layer_memory.specs.Seen.{Held};

    ghost Value = { Held };

    ghost use Rattle.layer_memory.specs.Inside.{held_of, IsHeld};

    ghost view = { held_of };

    ghost invariant = { IsHeld };
}

impl Layers {
    /// No layers, with room for a tape of so many chunks, 32768 at most.
    pub fn new(alloc: Global, chunks: u32) -> Result<Layers, Memory>
        requires { chunks ≤ max_chunks }
        ensures { IfOk result
            (λ l. l ≡ record {
              stack = empty_stack;
              writing = false;
              tape =
                  record { chunks = []; len = 0; room = chunks };
            }) }
    {
        let tape = Tape::new(alloc, chunks)?;
        let closed = LayerStack::new(alloc)?;
        let fill = Fill::new(alloc)?;
        let pinned = PieceList::new(alloc, MAX_SEAMS)?;
        Ok(Layers {
            tape,
            closed,
            fill,
            top: None,
            pin: None,
            pinned,
            seams: 0,
        })
    }

    /// What always holds of layers that share a tape.
    pub fn facts(&self)
        ensures { IsShared self.now }
    {
        self.tape.facts();
        self.fill.facts();
        self.closed.facts();
    }

    /// The end of the current layer, 0 without one.
    #[tactic(auto, using(crate::proofs::KeptLemmas::steps))]
    fn end(&self) -> u32
        ensures value { result ≡ current_end self.now.stack.layers }
        ensures within { result ≤ self.now.stack.tape }
    {
        self.fill.facts();
        match self.top {
            None => self.closed.end(),
            Some(top) => top.end,
        }
    }

    /// The tape length at which a new layer would go on.
    #[tactic(auto, using(crate::proofs::KeptLemmas::steps))]
    pub(crate) fn opening_tape(&self) -> u32
        ensures value { result ≡ opening_tape self.now.stack }
        ensures within { result ≤ self.now.stack.tape }
    {
        let end = self.end();
        match self.pin {
            None => end,
            Some(pin) => end.max(pin),
        }
    }

    /// The tape length, and the tape length at which a new layer would go on.
    #[tactic(auto, using(crate::proofs::SeenLemmas::openings))]
    pub fn tops(&self) -> (u32, u32)
        ensures tape { result.0 ≡ self.now.stack.tape }
        ensures opening { result.1 ≡ opening_tape self.now.stack }
        ensures seen { (p : PoolOf) → result.1 ≡ opening_tape (seen self.now p) }
    {
        (self.tape.len(), self.opening_tape())
    }

    /// Whether there is room at this tape length.
    pub(crate) fn room_at(&self, pool: &Pool, length: u32) -> bool
        requires { length ≤ self.now.stack.tape }
        ensures { result ≡ has_room (reach self.now pool.now) length }
    {
        let tape = self.tape.len();
        let needed = (length + (CHUNK_FRAMES - 1)) / CHUNK_FRAMES;
        let used = (tape + (CHUNK_FRAMES - 1)) / CHUNK_FRAMES;
        length % CHUNK_FRAMES != 0 || (needed as u64) < used as u64 + pool.free_chunks() as u64
    }

    /// The lengths and numbers of these layers.
    #[tactic(auto, using(crate::proofs::SizeLemmas::sizes))]
    pub fn sizes(&self) -> Sizes
        ensures value { AreSizes self.now.stack result }
        ensures seen { (p : PoolOf) → AreSizes (seen self.now p) result }
    {
        let (layers, redo) = self.closed.counts();
        match self.top {
            None => Sizes {
                length: self.closed.len(),
                cycle: self.closed.cycle(),
                base: 0,
                layers,
                redo,
                seams: self.seams,
                streak: false,
            },
            Some(top) => Sizes {
                length: self.fill.len(),
                cycle: top.cycle,
                base: if top.over { self.closed.len() } else { 0 },
                layers: layers + 1,
                redo,
                seams: self.seams,
                streak: self.fill.has_streak(),
            },
        }
    }
}
