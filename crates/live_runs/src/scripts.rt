//! What a device does before it goes on as one in memory.

use crate::flags::{Flag, Flags};
use std::thread;

/// How often a device that has nothing for now lets others run before it says so.
const PAUSE: u32 = 1000;

/// How often a device answers nothing for now before it answers the end.
const MOST_IDLES: u32 = 40000;

/// A step of a device. Steps that answer no call are done on the way to the next that does.
#[derive(Clone, Copy)]
pub enum Step {
    /// Answers so many calls as the device in memory does.
    Pass(u32),
    /// The same of a link, each call once all packets that it gave were answered.
    Answered(u32),
    /// Answers once that there is nothing for now.
    Idle,
    /// Answers that there is nothing for now until a flag is raised.
    Until(Flag),
    /// Waits within a call until a flag is raised, and answers the end where it never is.
    Wait(Flag),
    Raise(Flag),
    /// Raises this flag, and waits until those of all four devices are raised. The call fails where
    /// they never are.
    Meet(Flag),
}

/// What a call comes to.
#[derive(Clone, Copy)]
pub enum Turn {
    /// The device in memory answers.
    Pass,
    Idle,
    End,
    Failed,
}

/// The steps of a device, and how far it has come. Behind the last step each call passes.
#[derive(Drop)]
pub struct Script<'a> {
    flags: &'a Flags,
    steps: &'static [Step],
    place: usize,
    /// How many calls the step at this place has answered.
    times: u32,
    idles: u32,
}

impl<'a> Script<'a> {
    pub fn new(flags: &'a Flags, steps: &'static [Step]) -> Script<'a> {
        Script {
            flags,
            steps,
            place: 0,
            times: 0,
            idles: 0,
        }
    }

    /// What the next call comes to, where the device sent so many packets.
    pub fn turn(&mut self, sent: usize) -> Turn {
        for _ in 0..self.steps.len() {
            let Some(step) = self.steps.get(self.place) else {
                return Turn::Pass;
            };
            if let Some(turn) = self.done(*step, sent) {
                return turn;
            }
            self.place = self.place.saturating_add(1);
            self.times = 0;
        }
        Turn::Pass
    }

    /// Does a step. Some where it answers the call.
    fn done(&mut self, step: Step, sent: usize) -> Option<Turn> {
        match step {
            Step::Pass(times) => self.repeated(times, Turn::Pass),
            Step::Answered(times) => self.answered(times, sent),
            Step::Idle => self.repeated(1, Turn::Idle),
            Step::Until(flag) => self.until(flag),
            Step::Wait(flag) => {
                if self.flags.wait(flag) {
                    return None;
                }
                Some(Turn::End)
            }
            Step::Raise(flag) => {
                self.flags.raise(flag);
                None
            }
            Step::Meet(flag) => self.met(flag),
        }
    }

    /// The same answer so many times.
    fn repeated(&mut self, times: u32, turn: Turn) -> Option<Turn> {
        if self.times >= times {
            return None;
        }
        self.times = self.times.saturating_add(1);
        Some(turn)
    }

    fn answered(&mut self, times: u32, sent: usize) -> Option<Turn> {
        if sent < self.times as usize {
            return Some(self.idle());
        }
        self.repeated(times, Turn::Pass)
    }

    fn until(&mut self, flag: Flag) -> Option<Turn> {
        if self.flags.is_raised(flag) {
            return None;
        }
        Some(self.idle())
    }

    fn met(&mut self, flag: Flag) -> Option<Turn> {
        self.flags.raise(flag);
        if self.flags.have_met() {
            return None;
        }
        Some(Turn::Failed)
    }

    /// Nothing for now, or the end where that was said too often.
    fn idle(&mut self) -> Turn {
        for _ in 0..PAUSE {
            thread::yield_now();
        }
        self.idles = self.idles.saturating_add(1);
        if self.idles > MOST_IDLES {
            return Turn::End;
        }
        Turn::Idle
    }
}
