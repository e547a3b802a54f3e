//! The options of `live`.

ghost use Rattle.std.specs.Prelude.{◌≡◌, Some};
ghost use Rattle.std.specs.Option.{option_map};
ghost use Rattle.sl_base.specs.Limits.{max_rate, max_quota};
ghost use Rattle.command_words.specs.Words.{number_in, first_given, with_option};
ghost use Rattle.command_words.specs.LiveWords.{max_port, max_channels, name_in, path_in, listen_in, none_live, with_other_option, with_live_option};

use crate::listen::listen_once;
use crate::options::{Options, RenderOptions};
use crate::values::{name_once, number_once, path_of};
use live_ports::Listen;
use sl_base::{MAX_QUOTA, MAX_RATE, Name};
use std::marker::Model;

/// The greatest port.
const MAX_PORT: u32 = 65535;

/// The most channels.
const MAX_CHANNELS: u32 = 2;

/// The options that were given, each at most once, in their ranges.
#[derive(Drop)]
pub struct LiveOptions<'a> {
    /// Those that `render` has too.
    pub shared: RenderOptions,
    pub port: Option<u32>,
    /// The device, 1 to 4096 bytes.
    pub midi: Option<&'a str>,
    pub bind: Option<Name>,
    pub rate: Option<u32>,
    pub channels: Option<u32>,
    pub quota: Option<u32>,
    pub journal: Option<Name>,
    pub listen: Option<Listen>,
}

impl<'a> Model for LiveOptions<'a> {
    ghost use Rattle.std.specs.Option.{option_map};
    ghost use Rattle.command_words.specs.LiveWords.{LiveGiven};
    ghost use Rattle.command_words.specs.Asking.{AreLiveOptions};

    ghost Value = { LiveGiven };

    ghost view = { λ o. record {
      shared = o.shared;
      port = o.port;
      midi = option_map (λ path. path.now) o.midi;
      bind = o.bind;
      rate = o.rate;
      channels = o.channels;
      quota = o.quota;
      journal = o.journal;
      listen = o.listen;
    } };

    ghost invariant = { λ o. AreLiveOptions (record {
      shared = o.shared;
      port = o.port;
      midi = option_map (λ path. path.now) o.midi;
      bind = o.bind;
      rate = o.rate;
      channels = o.channels;
      quota = o.quota;
      journal = o.journal;
      listen = o.listen;
    }) };
}

impl<'a> LiveOptions<'a> {
    /// No options.
    pub fn none() -> LiveOptions<'a>
        ensures { result ≡ none_live }
    {
        LiveOptions {
            shared: RenderOptions::none(),
            port: None,
            midi: None,
            bind: None,
            rate: None,
            channels: None,
            quota: None,
            journal: None,
            listen: None,
        }
    }

    fn with_port(self, value: &str) -> Option<LiveOptions<'a>>
        ensures { result ≡ option_map (λ n. record self.entry { port = Some n })
            (first_given self.entry.port (number_in max_port value.now)) }
    {
        let port = number_once(self.port, MAX_PORT, value.as_bytes())?;
        Some(LiveOptions {
            port: Some(port),
            ..self
        })
    }

    fn with_midi(self, value: &'a str) -> Option<LiveOptions<'a>>
        ensures { result ≡ option_map (λ path. record self.entry { midi = Some path })
            (first_given self.entry.midi (path_in value.now)) }
    {
        if self.midi.is_some() {
            return None;
        }
        let path = path_of(value)?;
        Some(LiveOptions {
            midi: Some(path),
            ..self
        })
    }

    fn with_bind(self, value: &str) -> Option<LiveOptions<'a>>
        ensures { result ≡ option_map (λ name. record self.entry { bind = Some name })
            (first_given self.entry.bind (name_in value.now)) }
    {
        let bind = name_once(&self.bind, value.as_bytes())?;
        Some(LiveOptions {
            bind: Some(bind),
            ..self
        })
    }

    fn with_rate(self, value: &str) -> Option<LiveOptions<'a>>
        ensures { result ≡ option_map (λ n. record self.entry { rate = Some n })
            (first_given self.entry.rate (number_in max_rate value.now)) }
    {
        let rate = number_once(self.rate, MAX_RATE, value.as_bytes())?;
        Some(LiveOptions {
            rate: Some(rate),
            ..self
        })
    }

    fn with_channels(self, value: &str) -> Option<LiveOptions<'a>>
        ensures { result ≡ option_map (λ n. record self.entry { channels = Some n })
            (first_given self.entry.channels (number_in max_channels value.now)) }
    {
        let channels = number_once(self.channels, MAX_CHANNELS, value.as_bytes())?;
        Some(LiveOptions {
            channels: Some(channels),
            ..self
        })
    }

    fn with_quota(self, value: &str) -> Option<LiveOptions<'a>>
        ensures { result ≡ option_map (λ n. record self.entry { quota = Some n })
            (first_given self.entry.quota (number_in max_quota value.now)) }
    {
        let quota = number_once(self.quota, MAX_QUOTA, value.as_bytes())?;
        Some(LiveOptions {
            quota: Some(quota),
            ..self
        })
    }

    fn with_journal(self, value: &str) -> Option<LiveOptions<'a>>
        ensures { result ≡ option_map (λ name. record self.entry { journal = Some name })
            (first_given self.entry.journal (name_in value.now)) }
    {
        let journal = name_once(&self.journal, value.as_bytes())?;
        Some(LiveOptions {
            journal: Some(journal),
            ..self
        })
    }

    fn with_listen(self, value: &str) -> Option<LiveOptions<'a>>
        ensures { result ≡ option_map (λ who. record self.entry { listen = Some who })
            (first_given self.entry.listen (listen_in value.now)) }
    {
        let listen = listen_once(self.listen, value.as_bytes())?;
        Some(LiveOptions {
            listen: Some(listen),
            ..self
        })
    }

    /// With an option that `render` has too.
    fn with_shared(self, word: &[u8], value: &str) -> Option<LiveOptions<'a>>
        ensures { result ≡ option_map (λ given. record self.entry { shared = given })
            (with_option word.now value.now self.entry.shared) }
    {
        let LiveOptions {
            shared,
            port,
            midi,
            bind,
            rate,
            channels,
            quota,
            journal,
            listen,
        } = self;
        let shared = shared.with_word(word, value.as_bytes())?;
        Some(LiveOptions {
            shared,
            port,
            midi,
            bind,
            rate,
            channels,
            quota,
            journal,
            listen,
        })
    }

    /// With an option of two words that is no number.
    fn with_other(self, word: &[u8], value: &'a str) -> Option<LiveOptions<'a>>
        ensures { result ≡ with_other_option word.now value.now self.entry }
    {
        if word == b"--midi".as_slice() {
            self.with_midi(value)
        } else if word == b"--bind".as_slice() {
            self.with_bind(value)
        } else if word == b"--journal".as_slice() {
            self.with_journal(value)
        } else if word == b"--listen".as_slice() {
            self.with_listen(value)
        } else {
            self.with_shared(word, value)
        }
    }

    /// With the option of two words, or None where they are none, or it was given before.
    fn with_word(self, word: &[u8], value: &'a str) -> Option<LiveOptions<'a>>
        ensures { result ≡ with_live_option word.now value.now self.entry }
    {
        if word == b"--port".as_slice() {
            self.with_port(value)
        } else if word == b"--rate".as_slice() {
            self.with_rate(value)
        } else if word == b"--channels".as_slice() {
            self.with_channels(value)
        } else if word == b"--quota".as_slice() {
            self.with_quota(value)
        } else {
            self.with_other(word, value)
        }
    }
}

impl<'a> Options<'a> for LiveOptions<'a> {
    ghost use Rattle.command_words.specs.LiveWords.{with_live_option};

    ghost with_option = { with_live_option };

    fn with(self, word: &str, value: &'a str) -> Option<LiveOptions<'a>> {
        self.with_word(word.as_bytes(), value)
    }
}
