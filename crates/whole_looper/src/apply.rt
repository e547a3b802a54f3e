//! What an entry does, and what it gives.

ghost use Rattle.std.specs.Prelude.{◌≡◌, ◌≤◌, ◌<◌, false, is_some, length, IsTrue};
ghost use Rattle.sl_base.specs.Limits.{max_value};
ghost use Rattle.sl_commands.specs.Commands.{is_allowed};
ghost use Rattle.sl_commands.specs.Controls.{is_in_range};
ghost use Rattle.sl_commands.specs.declared.Command.TheVariants.{Get, SaveLoop, SaveSession, Release};
ghost use Rattle.looper_rules.specs.Values.{global_value, reply_value, with_global};
ghost use Rattle.looper_rules.specs.Looper.{on_target, index_of};
ghost use Rattle.looper_rules.specs.Entries.{applied, reply, save, performed, reply_of, save_of, sets};
ghost use Rattle.loop_strip.specs.Strips.{gives};
ghost use Rattle.whole_looper.specs.Loopers.{entry_at};

use crate::applied::Applied;
use crate::looper::Looper;
use loop_strip::{Given, Press};
use sl_commands::{Command, Control, Entry, Reply, Target, Verb, What};

impl Applied {
    /// A reply or none, and no save.
    fn answered(answer: Option<Reply>) -> Applied
        ensures answer { result.answer ≡ answer }
        ensures save { result.made_save ≡ false }
    {
        Applied {
            answer,
            made_save: false,
        }
    }
}

impl Looper {
    /// How many loops there are.
    pub fn loops(&self) -> u8
        ensures value { result ≡ length self.now.tracks }
        ensures some { 1 ≤ result }
        ensures within { result ≤ 16 }
    {
        self.tracks.len() as u8
    }

    /// The index that a target of one loop names.
    pub(crate) fn index_of(&self, target: Target) -> usize
        ensures { result ≡ index_of target self.now.globals.selected_loop_num }
    {
        match target {
            Target::One(index) => index as usize,
            _ => self.globals.selected_loop_num as usize,
        }
    }

    /// A verb given to the loops of a target.
    fn give(&mut self, target: Target, given: Given)
        ensures { self.new ≡ on_target target (gives given) self.old }
    {
        self.tracks
            .give(target, self.globals.selected_loop_num, given);
    }

    /// A verb given at a frame, with the looper's long press.
    fn given(&self, press: Press, verb: Verb, frame: u64) -> Given
        ensures { result ≡ record {
          press = press;
          verb = verb;
          frame = frame;
          long_press = self.now.globals.long_press;
        } }
    {
        Given {
            press,
            verb,
            frame,
            long_press: self.globals.long_press,
        }
    }

    /// A control set of the loops of a target.
    fn set(&mut self, target: Target, control: Control, value: i32)
        requires range { IsTrue (is_in_range control value 0) }
        ensures { self.new ≡ on_target target (sets control value) self.old }
    {
        self.tracks
            .set(target, self.globals.selected_loop_num, control, value);
    }

    /// One of the looper's controls set.
    fn set_global(&mut self, control: Control, value: i32)
        requires { IsTrue (is_in_range control value (length self.old.tracks)) }
        ensures { self.new
            ≡ record self.old { globals = with_global control value self.old.globals } }
    {
        match control {
            Control::Dry => self.globals.dry = value as u16,
            Control::SyncSource => self.globals.sync_source = value,
            Control::SelectedLoopNum => self.globals.selected_loop_num = value as u8,
            Control::FadeStep => self.globals.fade_step = value as u16,
            Control::LongPress => self.globals.long_press = value as u32,
            Control::Pulse => self.globals.pulse = value as u32,
            _ => {}
        }
    }

    /// The reply to a get of a loop's control.
    fn get(&self, entry: &Entry, target: Target, control: Control) -> Option<Reply>
        ensures { result ≡ reply_of (Get target control) entry.now self.now }
    {
        let index = self.index_of(target);
        match self.tracks.value(index, control) {
            None => None,
            Some(value) => Some(Reply {
                sender: entry.sender,
                seq: entry.seq,
                index: index as i32,
                what: What::Value(control),
                value,
            }),
        }
    }

    /// The value of one of the looper's controls.
    fn global_value(&self, control: Control) -> i32
        ensures { result ≡ reply_value (global_value control self.now.globals) }
    {
        match control {
            Control::Dry => self.globals.dry as i32,
            Control::SyncSource => self.globals.sync_source,
            Control::SelectedLoopNum => self.globals.selected_loop_num as i32,
            Control::FadeStep => self.globals.fade_step as i32,
            Control::LongPress => self.globals.long_press.min(2147483647) as i32,
            Control::Pulse => self.globals.pulse.min(2147483647) as i32,
            _ => 0,
        }
    }

    /// What the command of a valid entry does.
    fn perform(&mut self, entry: &Entry) -> Applied
        requires saves { self.old.saves < max_value }
        requires valid { IsTrue (is_allowed (length self.old.tracks) entry.now.command) }
        ensures looper { self.new ≡ performed entry.now.command entry.now.frame entry.now self.old }
        ensures answer { result.answer ≡ reply_of entry.now.command entry.now self.old }
        ensures save { result.made_save ≡ is_some (save_of entry.now.command self.old) }
    {
        match &entry.command {
            Command::Down(target, verb) => {
                let given = self.given(Press::Down, *verb, entry.frame);
                self.give(*target, given);
                Applied::answered(None)
            }
            Command::Up(target, verb) => {
                let given = self.given(Press::Up, *verb, entry.frame);
                self.give(*target, given);
                Applied::answered(None)
            }
            Command::Hit(target, verb) => {
                let given = self.given(Press::Hit, *verb, entry.frame);
                self.give(*target, given);
                Applied::answered(None)
            }
            Command::Set(target, control, value) => {
                self.set(*target, *control, *value);
                Applied::answered(None)
            }
            Command::SetGlobal(control, value) => {
                self.set_global(*control, *value);
                Applied::answered(None)
            }
            Command::Get(target, control) => Applied::answered(self.get(entry, *target, *control)),
            Command::GetGlobal(control) => Applied::answered(Some(Reply {
                sender: entry.sender,
                seq: entry.seq,
                index: -2,
                what: What::Value(*control),
                value: self.global_value(*control),
            })),
            Command::SaveLoop(target, _) => self.save_loop(entry, *target),
            Command::SaveSession(_) => self.save_session(entry),
            Command::Release(target, outcome) => Applied::answered(self.release(*target, *outcome)),
            Command::Quit => Applied::answered(None),
        }
    }

    /// What an entry does, valid or not.
    fn enter(&mut self, entry: &Entry) -> Applied
        requires saves { self.old.saves < max_value }
        ensures looper { self.new ≡ applied entry.now.frame entry.now self.old }
        ensures answer { result.answer ≡ reply entry.now self.old }
        ensures save { result.made_save ≡ is_some (save entry.now self.old) }
    {
        if !entry.is_valid(self.loops()) {
            return Applied::answered(None);
        }
        self.perform(entry)
    }

    /// Applies a command of this sender with this number, at the frame that comes next. What isn't
    /// valid changes nothing.
    pub fn apply(&mut self, frame: u64, sender: u8, seq: u32, command: &Command) -> Applied
        requires saves { self.old.saves < max_value }
        ensures looper { self.new ≡ applied frame (entry_at frame sender seq command.now) self.old }
        ensures answer { result.answer ≡ reply (entry_at frame sender seq command.now) self.old }
        ensures save { result.made_save
            ≡ is_some (save (entry_at frame sender seq command.now) self.old) }
    {
        let entry = Entry {
            frame,
            sender,
            seq,
            command: command.duplicate(),
        };
        self.enter(&entry)
    }
}
