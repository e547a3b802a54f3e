//! How all loops begin.

ghost use Rattle.std.specs.Prelude.{◌≡◌, ◌≤◌, ◌<◌, length, map, IfOk, IsErrOf, ◌↔◌};
ghost use Rattle.sl_base.specs.Limits.{max_chunks};
ghost use Rattle.looper_rules.specs.Room.{used};
ghost use Rattle.looper_rules.specs.Run.{start};
ghost use Rattle.looper_rules.specs.Reached.{AreLists};
ghost use Rattle.whole_looper.specs.declared.fault.BeginFault.TheVariants as BeginFault;

use crate::fault::BeginFault;
use crate::looper::{Buffers, Looper};
use looper_tracks::{Tracks, chunks_needed};
use mixer_fades::Gain;
use sl_base::{Frames, Memory};
use sl_commands::Settings;
use std::alloc::Global;

impl Looper {
    /// The looper that begins with these lists, for which there are chunks.
    fn of(
        alloc: Global,
        settings: &Settings,
        chunks: u32,
        initial: &[Frames],
    ) -> Result<Looper, Memory>
        requires chunks { chunks ≤ max_chunks }
        requires lists { AreLists settings.now.strips initial.now }
        requires room { used (map length initial.now) ≤ chunks }
        ensures { IfOk result (λ l. l ≡ start settings.now chunks initial.now) }
    {
        let strips = settings.strips.as_slice();
        let tracks = Tracks::new(alloc, strips, chunks, initial)?;
        let Ok(faces) = Vec::with_capacity(alloc, strips.len()) else {
            return Err(Memory);
        };
        Ok(Looper {
            tracks,
            globals: settings.globals,
            dry: Gain::new(settings.globals.dry),
            rate: settings.rate,
            saves: 0,
            faces,
            buffers: Buffers::new(),
        })
    }

    /// All loops of a new looper with these settings, over a pool of so many chunks, each of 4096
    /// frames and 32 KiB, 32768 at most. `initial` has the list of each loop by index, as long as
    /// its settings say. Only this call takes memory.
    pub fn new(
        alloc: Global,
        settings: &Settings,
        chunks: u32,
        initial: &[Frames],
    ) -> Result<Looper, BeginFault>
        requires chunks { chunks ≤ max_chunks }
        requires lists { AreLists settings.now.strips initial.now }
        ensures value { IfOk result (λ l. l ≡ start settings.now chunks initial.now) }
        ensures limit { IsErrOf result BeginFault.Limit ↔ (chunks < used (map length initial.now)) }
    {
        if chunks < chunks_needed(settings.strips.as_slice(), initial) {
            return Err(BeginFault::Limit);
        }
        Ok(Looper::of(alloc, settings, chunks, initial)?)
    }
}
