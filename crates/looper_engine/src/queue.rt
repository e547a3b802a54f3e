//! The saves that no release has answered.

ghost use Rattle.std.specs.Prelude.{◌≡◌, ◌<◌, ◌+◌, Some, IfOk};
ghost use Rattle.looper_rules.specs.Unanswered.{answers};
ghost use Rattle.looper_engine.specs.Queues.{QueueOf, empty_queue, HasPlace, settled, joined, block_sent};

use sl_base::{MAX_LOOPS, Memory, Name};
use sl_commands::{Settings, Target};
use std::alloc::Global;
use std::marker::Model;

/// A save without its lists.
#[derive(Drop)]
pub(crate) struct Pending {
    pub number: u32,
    pub target: Target,
    pub name: Name,
    pub settings: Settings,
}

/// Saves that wait for their blocks to be sent, and then for their release. At most as many as
/// there may be loops.
#[derive(Drop)]
pub(crate) struct Queue {
    due: Vec<Pending>,
    sending: Vec<Pending>,
    part: u32,
}

impl Model for Queue {
    ghost use Rattle.std.specs.Vec.{vec_capacity};
    ghost use Rattle.looper_engine.specs.Queues.{QueueOf, IsQueue};

    ghost Value = { QueueOf };

    ghost view = { λ q. record { due = q.due.items; sending = q.sending.items; part = q.part } };

    ghost invariant = { λ q. IsQueue (vec_capacity q.due) (vec_capacity q.sending)
        (record { due = q.due.items; sending = q.sending.items; part = q.part }) };
}

/// Whether a release with the first target answers a save with the second.
fn answers(released: Target, saved: Target) -> bool
    ensures { result ≡ answers released saved }
{
    match (released, saved) {
        (Target::One(released), Target::One(saved)) => released == saved,
        (Target::All, Target::All) => true,
        _ => false,
    }
}

impl Queue {
    /// The most saves that wait at a time.
    pub const CAPACITY: usize = MAX_LOOPS as usize;

    /// No saves, and room for all that may wait.
    pub fn new(alloc: Global) -> Result<Queue, Memory>
        ensures { IfOk result (λ q. q ≡ empty_queue) }
    {
        Ok(Queue {
            due: Vec::with_capacity(alloc, Queue::CAPACITY)?,
            sending: Vec::with_capacity(alloc, Queue::CAPACITY)?,
            part: 0,
        })
    }

    /// The save that was made, where there is one, stands behind the others.
    pub fn join(&mut self, made: Option<Pending>)
        requires { HasPlace made self.old }
        ensures { self.new ≡ joined made self.old }
    {
        match made {
            Some(pending) => self.sending.push_reserved(pending),
            None => {}
        }
    }

    /// A release of this target, where there is one, takes the save that it answers away.
    pub fn settle(&mut self, released: Option<Target>)
        ensures { self.new ≡ settled released self.old }
    {
        match released {
            Some(target) => self.release(target),
            None => {}
        }
    }

    /// A release of this target takes the save that it answers away, where its blocks were all
    /// sent.
    fn release(&mut self, target: Target)
        ensures { self.new ≡ settled (Some target) self.old }
    {
        let mut index = 0;
        while index < self.due.len() {
            if answers(target, self.due[index].target) {
                self.due.remove(index);
            } else {
                index += 1;
            }
        }
    }

    /// One more block was sent of the first save, which has so many.
    pub fn block_sent(&mut self, count: u32)
        requires within { self.old.part < count }
        ensures { self.new ≡ block_sent count self.old }
    {
        if self.sending.is_empty() {
            return;
        }
        if self.part + 1 < count {
            self.part += 1;
            return;
        }
        let sent = self.sending.remove(0);
        self.due.push_reserved(sent);
        self.part = 0;
    }

    /// The saves whose blocks weren't all sent, oldest first.
    pub fn sending(&self) -> &[Pending]
        ensures { result.now ≡ self.now.sending }
    {
        &self.sending
    }

    /// The saves whose blocks were all sent, oldest first.
    pub fn due(&self) -> &[Pending]
        ensures { result.now ≡ self.now.due }
    {
        &self.due
    }

    /// How many blocks of the first save were sent, of those whose blocks weren't all sent.
    pub fn part(&self) -> u32
        ensures { result ≡ self.now.part }
    {
        self.part
    }
}
