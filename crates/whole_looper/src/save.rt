//! Saves and releases.

ghost use Rattle.std.specs.Prelude.{◌≡◌, ◌<◌, true, false, not, pos, negsuc, is_some, length, IsTrue, option_map};
ghost use Rattle.sl_base.specs.Limits.{max_value};
ghost use Rattle.sl_commands.specs.Commands.{is_single_target};
ghost use Rattle.sl_commands.specs.declared.Target.TheVariants.{One, All};
ghost use Rattle.sl_commands.specs.declared.What.TheVariants.{Save as OfLoop, Session as OfSession};
ghost use Rattle.looper_rules.specs.Looper.{index_of};
ghost use Rattle.looper_rules.specs.Entries.{reply_to, reply_index, track_of, refusal_at, asker_of, saves_loop, saves_session, releases, release_reply, outcome_for};
ghost use Rattle.looper_rules.specs.Saves.{session_refusal};

use crate::applied::Applied;
use crate::looper::Looper;
use looper_tracks::Asker;
use sl_commands::{Entry, Reply, Target, What};

/// The answer that ends a save.
fn outcome_for(index: i32, what: What, outcome: u8, asker: Option<Asker>) -> Option<Reply>
    ensures { result ≡ option_map (outcome_for index what outcome) asker }
{
    match asker {
        None => None,
        Some(asker) => Some(Reply {
            sender: asker.sender,
            seq: asker.seq,
            index,
            what,
            value: outcome as i32,
        }),
    }
}

impl Looper {
    /// A save of the loop that a target names.
    pub(crate) fn save_loop(&mut self, entry: &Entry, target: Target) -> Applied
        requires saves { self.old.saves < max_value }
        requires target { IsTrue (is_single_target (length self.old.tracks) target) }
        ensures looper { self.new ≡ saves_loop (refusal_at target self.old)
            (index_of target self.old.globals.selected_loop_num)
            (asker_of entry.now false) self.old }
        ensures answer { result.answer ≡
            option_map (λ refusal.
            reply_to entry.now (reply_index target self.old) OfLoop (pos refusal))
            (refusal_at target self.old) }
        ensures save { result.made_save ≡ not (is_some (refusal_at target self.old)) }
        ensures there { is_some (track_of target self.old) ≡ true }
    {
        let index = self.index_of(target);
        match self.tracks.save_refusal(index) {
            Some(refusal) => Applied {
                answer: Some(Reply {
                    sender: entry.sender,
                    seq: entry.seq,
                    index: index as i32,
                    what: What::Save,
                    value: refusal as i32,
                }),
                made_save: false,
            },
            None => {
                self.tracks.pin(
                    index,
                    Asker {
                        sender: entry.sender,
                        seq: entry.seq,
                        of_session: false,
                    },
                );
                self.saves += 1;
                Applied {
                    answer: None,
                    made_save: true,
                }
            }
        }
    }

    /// A save of all loops.
    pub(crate) fn save_session(&mut self, entry: &Entry) -> Applied
        requires saves { self.old.saves < max_value }
        ensures looper { self.new ≡
            saves_session (session_refusal self.old.tracks) (asker_of entry.now true) self.old }
        ensures answer { result.answer ≡
            option_map (λ refusal. reply_to entry.now (negsuc 1) OfSession (pos refusal))
            (session_refusal self.old.tracks) }
        ensures save { result.made_save ≡ not (is_some (session_refusal self.old.tracks)) }
    {
        if self.tracks.any_pinned() {
            return Applied {
                answer: Some(Reply {
                    sender: entry.sender,
                    seq: entry.seq,
                    index: -2,
                    what: What::Session,
                    value: 2,
                }),
                made_save: false,
            };
        }
        self.tracks.pin_all(Asker {
            sender: entry.sender,
            seq: entry.seq,
            of_session: true,
        });
        self.saves += 1;
        Applied {
            answer: None,
            made_save: true,
        }
    }

    /// A release of the loop of this index.
    fn release_loop(&mut self, index: u8, outcome: u8) -> Option<Reply>
        ensures looper { self.new ≡ releases (One index) self.old }
        ensures answer { result ≡ release_reply (One index) outcome self.old }
    {
        let asker = self.tracks.loop_asker(index as usize);
        self.tracks.release(index as usize);
        outcome_for(index as i32, What::Save, outcome, asker)
    }

    /// A release of all loops.
    fn release_session(&mut self, outcome: u8) -> Option<Reply>
        ensures looper { self.new ≡ releases All self.old }
        ensures answer { result ≡ release_reply All outcome self.old }
    {
        let asker = self.tracks.running_session();
        self.tracks.release_all();
        outcome_for(-2, What::Session, outcome, asker)
    }

    /// A release of a target.
    pub(crate) fn release(&mut self, target: Target, outcome: u8) -> Option<Reply>
        ensures looper { self.new ≡ releases target self.old }
        ensures answer { result ≡ release_reply target outcome self.old }
    {
        match target {
            Target::One(index) => self.release_loop(index, outcome),
            Target::All => self.release_session(outcome),
            Target::Selected => None,
        }
    }
}
