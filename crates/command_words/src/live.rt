//! The words of a live session.

ghost use Rattle.std.specs.Prelude.{◌≡◌, map, IfOk};
ghost use Rattle.std.specs.Option.{option_map};
ghost use Rattle.std.specs.String.{string_bytes};
ghost use Rattle.command_words.specs.LiveWords.{is_excluded, live_of, live_with, live_in};
ghost use Rattle.command_words.specs.Answering.{GivesLive};

use crate::fault::WordsFault;
use crate::live_options::LiveOptions;
use crate::options::{RenderOptions, options_of};
use live_ports::Listen;
use sl_base::Name;
use std::alloc::{AllocError, Global};
use std::marker::Model;

/// What `live` is asked for.
#[derive(Drop)]
pub struct Live {
    /// The port on which OSC packets are heard, 1 to 65535.
    pub port: u16,
    /// The device that MIDI bytes are read from, a path of 1 to 4096 bytes.
    pub midi: Option<String>,
    /// The file of the bindings.
    pub bind: Option<Name>,
    /// The most frames that are processed at once, 1 to 8192.
    pub period: u32,
    /// Frames a second, 1 to 768000, where no session is named. Else it isn't used.
    pub rate: u32,
    /// 1 or 2.
    pub channels: u8,
    /// The chunks of 4096 frames that all loops share, 1 to 32768.
    pub chunks: u32,
    /// How many empty loops there are where no session is named, 1 to 16. Else it isn't used.
    pub loops: u8,
    /// The most commands that are accepted over OSC, and over MIDI, 1 to 1048576.
    pub quota: u32,
    /// The file that the journal is written to.
    pub journal: Option<Name>,
    /// The session that the loops begin with, at most 48 bytes.
    pub session: Option<Name>,
    /// Whose packets are heard.
    pub listen: Listen,
}

impl Model for Live {
    ghost use Rattle.std.specs.Option.{option_map};
    ghost use Rattle.std.specs.String.{string_bytes};
    ghost use Rattle.command_words.specs.LiveWords.{LiveAsked};
    ghost use Rattle.command_words.specs.Asking.{IsLiveAsked};

    ghost Value = { LiveAsked };

    ghost view = { λ l. record {
      port = l.port;
      midi = option_map string_bytes l.midi;
      bind = l.bind;
      period = l.period;
      rate = l.rate;
      channels = l.channels;
      chunks = l.chunks;
      loops = l.loops;
      quota = l.quota;
      journal = l.journal;
      session = l.session;
      listen = l.listen;
    } };

    ghost invariant = { λ l. IsLiveAsked (record {
      port = l.port;
      midi = option_map string_bytes l.midi;
      bind = l.bind;
      period = l.period;
      rate = l.rate;
      channels = l.channels;
      chunks = l.chunks;
      loops = l.loops;
      quota = l.quota;
      journal = l.journal;
      session = l.session;
      listen = l.listen;
    }) };
}

/// A copy of the path.
fn copy(alloc: Global, path: Option<&str>) -> Result<Option<String>, AllocError>
    ensures { IfOk result (λ copied.
        option_map string_bytes copied ≡ option_map (λ text. text.now) path.entry) }
{
    match path {
        Some(path) => Ok(Some(String::from_str(alloc, path)?)),
        None => Ok(None),
    }
}

/// The options exclude one another.
fn is_excluded(options: &LiveOptions<'_>) -> bool
    ensures { result ≡ is_excluded options.now }
{
    options.shared.session.is_some() && (options.shared.loops.is_some() || options.rate.is_some())
}

/// The session that options ask for, with the path that was copied.
fn live_of(options: LiveOptions<'_>, midi: Option<String>) -> Live
    requires { option_map string_bytes midi ≡ options.midi }
    ensures { result ≡ live_of options.entry }
{
    let LiveOptions {
        shared,
        port,
        midi: _,
        bind,
        rate,
        channels,
        quota,
        journal,
        listen,
    } = options;
    let RenderOptions {
        period,
        chunks,
        loops,
        session,
    } = shared;
    Live {
        port: port.unwrap_or(9951) as u16,
        midi,
        bind,
        period: period.unwrap_or(1024),
        rate: rate.unwrap_or(48000),
        channels: channels.unwrap_or(2) as u8,
        chunks: chunks.unwrap_or(4096),
        loops: loops.unwrap_or(1) as u8,
        quota: quota.unwrap_or(262144),
        journal,
        session,
        listen: listen.unwrap_or(Listen::Local),
    }
}

/// The session with these options, where they go together.
fn live_with(alloc: Global, options: LiveOptions<'_>) -> Result<Live, WordsFault>
    ensures { GivesLive (live_with options.entry) result }
{
    if is_excluded(&options) {
        return Err(WordsFault::Words);
    }
    match copy(alloc, options.midi) {
        Ok(midi) => Ok(live_of(options, midi)),
        Err(_) => Err(WordsFault::Memory),
    }
}

/// What the words ask for, where they are `live` with options behind it in any order, each at most
/// once. The fault is `Memory` only where they are.
pub fn live_words(alloc: Global, words: &[String]) -> Result<Live, WordsFault>
    ensures { GivesLive (live_in (map string_bytes words.now)) result }
{
    let Some((first, rest)) = words.split_first() else {
        return Err(WordsFault::Words);
    };
    if first.as_bytes() != b"live".as_slice() {
        return Err(WordsFault::Words);
    }
    match options_of(LiveOptions::none(), rest) {
        Some(options) => live_with(alloc, options),
        None => Err(WordsFault::Words),
    }
}
