//! Flags between devices on several threads.

use std::sync::atomic::{AtomicBool, Ordering};
use std::thread;

/// How often a flag is looked at within a call before it is given up.
const MOST_LOOKS: u32 = 40000000;

/// What one device tells the others, once.
#[derive(Clone, Copy)]
pub enum Flag {
    /// The audio, the link, the source of MIDI or the keeper has come to the point where it waits.
    Audio,
    Link,
    Midi,
    Keeper,
    /// The first packets were heard.
    Heard,
    /// The keeper may write its first file.
    MayWrite,
    /// It is about to write its second file, so the outcome of the first save is on its ring.
    Written,
    /// Further packets may come.
    MayCome,
    /// All packets came.
    AllCame,
    /// The audio has ended.
    Ended,
}

/// Which flags are raised.
#[derive(Drop)]
pub struct Flags {
    audio: AtomicBool,
    link: AtomicBool,
    midi: AtomicBool,
    keeper: AtomicBool,
    heard: AtomicBool,
    may_write: AtomicBool,
    written: AtomicBool,
    may_come: AtomicBool,
    all_came: AtomicBool,
    ended: AtomicBool,
}

impl Flags {
    pub fn new() -> Flags {
        Flags {
            audio: AtomicBool::new(false),
            link: AtomicBool::new(false),
            midi: AtomicBool::new(false),
            keeper: AtomicBool::new(false),
            heard: AtomicBool::new(false),
            may_write: AtomicBool::new(false),
            written: AtomicBool::new(false),
            may_come: AtomicBool::new(false),
            all_came: AtomicBool::new(false),
            ended: AtomicBool::new(false),
        }
    }

    fn of(&self, flag: Flag) -> &AtomicBool {
        match flag {
            Flag::Audio => &self.audio,
            Flag::Link => &self.link,
            Flag::Midi => &self.midi,
            Flag::Keeper => &self.keeper,
            Flag::Heard => &self.heard,
            Flag::MayWrite => &self.may_write,
            Flag::Written => &self.written,
            Flag::MayCome => &self.may_come,
            Flag::AllCame => &self.all_came,
            Flag::Ended => &self.ended,
        }
    }

    pub fn raise(&self, flag: Flag) {
        self.of(flag).store(true, Ordering::SeqCst);
    }

    pub fn is_raised(&self, flag: Flag) -> bool {
        self.of(flag).load(Ordering::SeqCst)
    }

    /// Waits until a flag is raised. False where that took too long.
    pub fn wait(&self, flag: Flag) -> bool {
        for _ in 0..MOST_LOOKS {
            if self.is_raised(flag) {
                return true;
            }
            thread::yield_now();
        }
        false
    }

    /// Waits until the flags of all four devices are raised.
    pub fn have_met(&self) -> bool {
        for flag in [Flag::Audio, Flag::Link, Flag::Midi, Flag::Keeper] {
            if !self.wait(flag) {
                return false;
            }
        }
        true
    }
}
