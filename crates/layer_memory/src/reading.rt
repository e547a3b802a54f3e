//! Reading the current list and the pinned one.

ghost use Rattle.std.specs.Prelude.{◌≡◌, ◌≤◌, ◌<◌, ◌+◌, length, get_or, take, drop};
ghost use Rattle.sl_base.specs.Sounds.{silence};
ghost use Rattle.looper_rules.specs.Layers.{current_list, current_length};
ghost use Rattle.looper_rules.specs.Stack.{pinned_list};
ghost use Rattle.loop_tape.specs.Tapes.{Owns};
ghost use Rattle.layer_memory.specs.Seen.{seen};

use crate::layers::Layers;
use crate::spans::read_pieces;
use loop_tape::Pool;
use pieces::address_from;
use sl_base::Frame;

impl Layers {
    /// The address at a place of the current list.
    #[tactic(auto, using(crate::proofs::ReadLemmas::reads))]
    fn address(&self, place: u32) -> u32
        requires { place < current_length self.now.stack.layers }
        ensures value { result ≡ get_or (current_list self.now.stack.layers) place 0 }
    {
        match self.top {
            None => address_from(self.closed.current(), self.closed.near(place), place),
            Some(_) => self.fill.address(place),
        }
    }

    /// The frame at a place of the current list.
    #[tactic(auto, using(crate::proofs::ReadLemmas::reads))]
    pub fn read(&self, pool: &Pool, place: u32) -> Frame
        requires owns { Owns self.now.tape pool.now }
        requires place { place < current_length self.now.stack.layers }
        ensures { result ≡ get_or (current_list (seen self.now pool.now).layers) place silence }
    {
        self.facts();
        let address = self.address(place);
        self.tape.get(pool, address)
    }

    /// Copies the frames of the current list from a place on, as many as `out` has, piece by piece.
    #[tactic(auto, using(crate::proofs::ReadLemmas::spans))]
    pub fn read_span(&self, pool: &Pool, place: u32, out: &mut [Frame])
        requires owns { Owns self.now.tape pool.now }
        requires place { place + length out.old ≤ current_length self.now.stack.layers }
        ensures { out.new ≡ take (length out.old)
            (drop place (current_list (seen self.now pool.now).layers)) }
    {
        self.facts();
        let _length = (self.closed.len(), self.fill.len());
        match self.top {
            None => read_pieces(
                &self.tape,
                pool,
                self.closed.current(),
                self.closed.near(place),
                place,
                out,
            ),
            Some(_) => read_pieces(
                &self.tape,
                pool,
                self.fill.pieces(),
                self.fill.near(place),
                place,
                out,
            ),
        }
    }

    /// Searches a place of the current list, so that reads from there on search nothing. Past the
    /// end it does nothing.
    pub fn seek(&mut self, place: u32)
        ensures { self.new ≡ self.old }
    {
        match self.top {
            None => {
                if place <= self.closed.len() {
                    self.closed.seek(place);
                }
            }
            Some(_) => {
                if place <= self.fill.len() {
                    self.fill.seek(place);
                }
            }
        }
    }

    /// The address at a place of the pinned list.
    #[tactic(auto, using(crate::proofs::PinLemmas::reads))]
    fn pinned_address(&self, place: u32) -> u32
        requires { place < length (pinned_list self.now.stack.pin) }
        ensures value { result ≡ get_or (pinned_list self.now.stack.pin) place 0 }
    {
        self.pinned.address(place)
    }

    /// The frame at a place of the pinned list.
    #[tactic(auto, using(crate::proofs::PinLemmas::reads))]
    pub fn saved(&self, pool: &Pool, place: u32) -> Frame
        requires owns { Owns self.now.tape pool.now }
        requires place { place < length (pinned_list self.now.stack.pin) }
        ensures { result ≡ get_or (pinned_list (seen self.now pool.now).pin) place silence }
    {
        self.facts();
        let address = self.pinned_address(place);
        self.tape.get(pool, address)
    }

    /// Copies frames of the pinned list, piece by piece.
    #[tactic(auto, using(crate::proofs::PinLemmas::spans))]
    fn read_saved(&self, pool: &Pool, place: u32, out: &mut [Frame])
        requires owns { Owns self.now.tape pool.now }
        requires some { 0 < length out.old }
        requires place { place + length out.old ≤ length (pinned_list self.now.stack.pin) }
        ensures { out.new ≡ take (length out.old)
            (drop place (pinned_list (seen self.now pool.now).pin)) }
    {
        self.facts();
        let _length = self.pinned.len();
        read_pieces(
            &self.tape,
            pool,
            self.pinned.pieces(),
            self.pinned.near(place),
            place,
            out,
        );
    }

    /// Copies the frames of the pinned list from a place on, as many as `out` has, piece by piece.
    #[tactic(auto, using(crate::proofs::PinLemmas::spans))]
    pub fn saved_span(&self, pool: &Pool, place: u32, out: &mut [Frame])
        requires owns { Owns self.now.tape pool.now }
        requires place { place + length out.old ≤ length (pinned_list self.now.stack.pin) }
        ensures { out.new ≡ take (length out.old)
            (drop place (pinned_list (seen self.now pool.now).pin)) }
    {
        if out.is_empty() {
            return;
        }
        self.read_saved(pool, place, out);
    }

    /// The length of the pinned list in frames, 0 where no pin stands.
    pub fn pinned_length(&self) -> u32
        ensures { result ≡ length (pinned_list self.now.stack.pin) }
    {
        match self.pin {
            None => 0,
            Some(_) => self.pinned.len(),
        }
    }

    /// Searches a place of the pinned list, so that reads from there on search nothing. Past the
    /// end it does nothing.
    pub fn seek_saved(&mut self, place: u32)
        ensures { self.new ≡ self.old }
    {
        if place <= self.pinned.len() {
            self.pinned.seek(place);
        }
    }
}
