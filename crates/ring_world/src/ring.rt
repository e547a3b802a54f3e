//! A ring as two lists.

ghost use Rattle.std.specs.Prelude.{◌≡◌, length, IfOk, OnOk, OnErr, IsTrue, IsFalse, option_copied};
ghost use Rattle.ring_world.specs.Rings.{empty_ring, has_room, put_on, next_of, passed_on, sent};

use circular_buffer::HeapCircularBuffer;
use sl_base::Memory;
use std::alloc::Global;
use std::marker::Model;

/// What was taken, and what waits, oldest first. Room for all that may wait is taken by `new`.
#[derive(Drop)]
pub struct Ring<T: Drop> {
    taken: Vec<T>,
    waiting: HeapCircularBuffer<T>,
}

impl<T: Drop> Model for Ring<T> {
    ghost use Rattle.ring_world.specs.Rings.{RingOf};

    ghost Value = { RingOf T };

    ghost view = { λ r.
        record {
          taken = r.taken.items;
          waiting = r.waiting.items;
          capacity = r.waiting.capacity;
        } };
}

impl<T: Drop> Ring<T> {
    /// Nothing was put yet. It holds at most `capacity` items.
    pub fn new(alloc: Global, capacity: usize) -> Result<Ring<T>, Memory>
        ensures { IfOk result (λ ring. ring ≡ empty_ring capacity) }
    {
        Ok(Ring {
            taken: Vec::new(alloc),
            waiting: HeapCircularBuffer::with_capacity(alloc, capacity)?,
        })
    }

    /// Puts an item behind those that wait, where there is room, and tells whether it did. No
    /// memory is taken.
    pub fn put(&mut self, item: T) -> bool
        ensures room { result ≡ has_room self.old }
        ensures done { IsTrue result → self.new ≡ put_on item self.old }
        ensures unchanged { IsFalse result → self.new ≡ self.old }
    {
        self.waiting.try_push_back(item).is_ok()
    }

    /// What is taken next.
    pub fn first(&self) -> Option<&T>
        ensures { option_copied result ≡ next_of self.now }
    {
        self.waiting.front()
    }

    /// Takes the next item, where there is one.
    pub fn pass(&mut self) -> Result<(), Memory>
        ensures ok { OnOk result (self.new ≡ passed_on self.old) }
        ensures unchanged { OnErr result (self.new ≡ self.old) }
    {
        self.taken.reserve(1)?;
        if let Some(item) = self.waiting.pop_front() {
            self.taken.push_reserved(item);
        }
        Ok(())
    }

    /// All that was taken, in order.
    pub fn taken(&self) -> &[T]
        ensures { result.now ≡ self.now.taken }
    {
        &self.taken
    }

    /// How many items were put.
    pub fn sent(&self) -> usize
        ensures { result ≡ length (sent self.now) }
    {
        self.taken.len() + self.waiting.len()
    }
}
