//! Devices in memory that follow scripts. What they hold and count isn't told: each count stands at
//! its last value, so that a call may fail or give nothing for a reason of the script's.

use crate::scripts::{Script, Turn};
use live_ports::{Link, LinkAnswer, MemLink, MemSource, Source, SourceAnswer};
use sl_base::{Addr, Name};
use sl_ports::{FileAnswer, KeepAnswer, Keeper, MemKeeper, SinkAnswer};
use std::alloc::Global;

/// A source of audio or of MIDI.
#[derive(Drop)]
pub struct ScriptedSource<'a> {
    source: MemSource,
    script: Script<'a>,
    ended: bool,
}

impl<'a> ScriptedSource<'a> {
    pub fn new(source: MemSource, script: Script<'a>) -> ScriptedSource<'a> {
        ScriptedSource {
            source,
            script,
            ended: false,
        }
    }
}

impl<'a> Source for ScriptedSource<'a> {
    ghost use Rattle.std.specs.Prelude.{None};
    ghost use Rattle.sl_base.specs.Counting.{last_count};

    ghost seen = { λ s. record {
      left = None;
      faults = last_count;
      idles = last_count;
      ended = s.ended;
    } };

    fn read(&mut self, buf: &mut [u8]) -> SourceAnswer {
        if self.ended {
            return SourceAnswer::End;
        }
        let answer = match self.script.turn(0) {
            Turn::Pass => self.source.read(buf),
            Turn::Idle => SourceAnswer::Idle,
            Turn::End => SourceAnswer::End,
            Turn::Failed => SourceAnswer::Failed,
        };
        self.ended = answer == SourceAnswer::End;
        answer
    }
}

#[derive(Drop)]
pub struct ScriptedLink<'a> {
    pub link: MemLink,
    script: Script<'a>,
    ended: bool,
}

impl<'a> ScriptedLink<'a> {
    pub fn new(link: MemLink, script: Script<'a>) -> ScriptedLink<'a> {
        ScriptedLink {
            link,
            script,
            ended: false,
        }
    }
}

impl<'a> Link for ScriptedLink<'a> {
    ghost use Rattle.std.specs.Prelude.{None};
    ghost use Rattle.sl_base.specs.Counting.{last_count};

    ghost seen = { λ l. record {
      left = None;
      out = None;
      receives = last_count;
      sends = last_count;
      idles = last_count;
      ended = l.ended;
    } };

    fn recv(&mut self, buf: &mut [u8; 8192]) -> LinkAnswer {
        if self.ended {
            return LinkAnswer::End;
        }
        let sent = self.link.out().len();
        let answer = match self.script.turn(sent) {
            Turn::Pass => self.link.recv(buf),
            Turn::Idle => LinkAnswer::Idle,
            Turn::End => LinkAnswer::End,
            Turn::Failed => LinkAnswer::Failed,
        };
        self.ended = answer == LinkAnswer::End;
        answer
    }

    fn send(&mut self, to: Addr, bytes: &[u8]) -> SinkAnswer {
        self.link.send(to, bytes)
    }
}

/// A keeper whose script is one of its writes. What answers no write as the keeper in memory does
/// fails.
#[derive(Drop)]
pub struct ScriptedKeeper<'a> {
    pub keeper: MemKeeper,
    script: Script<'a>,
}

impl<'a> ScriptedKeeper<'a> {
    pub fn new(keeper: MemKeeper, script: Script<'a>) -> ScriptedKeeper<'a> {
        ScriptedKeeper { keeper, script }
    }
}

impl<'a> Keeper for ScriptedKeeper<'a> {
    ghost use Rattle.std.specs.Prelude.{None};
    ghost use Rattle.sl_base.specs.Counting.{last_count};

    ghost read_faults = { λ _. last_count };

    ghost write_faults = { λ _. last_count };

    ghost files = { λ _. None };

    fn read_file(&mut self, alloc: Global, name: &Name) -> FileAnswer {
        self.keeper.read_file(alloc, name)
    }

    fn write_file(&mut self, alloc: Global, name: &Name, bytes: &[u8]) -> KeepAnswer {
        match self.script.turn(0) {
            Turn::Pass => self.keeper.write_file(alloc, name, bytes),
            _ => KeepAnswer::Failed,
        }
    }
}
