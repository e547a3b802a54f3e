//! How all tracks begin.

ghost use Rattle.std.specs.Prelude.{◌≡◌, ◌≤◌, length, map, IsTrue, IfOk};
ghost use Rattle.sl_base.specs.Limits.{max_chunks, max_list_frames};
ghost use Rattle.sl_commands.specs.Settings.{are_strips};
ghost use Rattle.looper_rules.specs.Room.{chunks_of, used};
ghost use Rattle.looper_rules.specs.Run.{first_tracks};
ghost use Rattle.looper_rules.specs.Reached.{AreLists};
ghost use Rattle.looper_tracks.specs.Beginnings.{new_track, HaveLoaded};

use crate::track::Track;
use crate::tracks::Tracks;
use loop_strip::Pool;
use sl_base::{CHUNK_FRAMES, Frames, Memory};
use sl_commands::StripSettings;
use std::alloc::Global;

/// The chunks that a list of at most 16777216 frames needs.
fn chunks_of(length: usize) -> u32
    requires { length ≤ max_list_frames }
    ensures value { result ≡ chunks_of length }
    ensures within { result ≤ 4096 }
{
    (length as u32 + 4095) / CHUNK_FRAMES
}

/// The chunks that these lists need, as long as the strips say.
pub fn chunks_needed(strips: &[StripSettings], lists: &[Frames]) -> u32
    requires strips { IsTrue (are_strips strips.now) }
    requires few { length strips.now ≤ 16 }
    requires lists { AreLists strips.now lists.now }
    ensures { result ≡ used (map length lists.now) }
{
    let mut chunks = 0;
    for k in 0..lists.len() {
        chunks += chunks_of(lists[k].len());
    }
    chunks
}

/// A track for each of these settings, all empty, each with room for a tape of so many chunks.
fn new_tracks(alloc: Global, strips: &[StripSettings], chunks: u32) -> Result<Vec<Track>, Memory>
    requires strips { IsTrue (are_strips strips.now) }
    requires chunks { chunks ≤ max_chunks }
    ensures { IfOk result (λ ls. ls.items ≡ map (new_track chunks) strips.now) }
{
    let Ok(mut tracks) = Vec::with_capacity(alloc, strips.len()) else {
        return Err(Memory);
    };
    for k in 0..strips.len() {
        let track = Track::new(alloc, strips[k], chunks)?;
        tracks.push_reserved(track);
    }
    Ok(tracks)
}

/// The lists laid on the tapes of new tracks.
fn load_all(
    tracks: &mut [Track],
    pool: &mut Pool,
    strips: &[StripSettings],
    lists: &[Frames],
    chunks: u32,
)
    requires new { tracks.old ≡ map (new_track chunks) strips.now }
    requires few { length strips.now ≤ 16 }
    requires all { pool.old.all ≤ chunks }
    requires strips { IsTrue (are_strips strips.now) }
    requires lists { AreLists strips.now lists.now }
    requires room { used (map length lists.now) ≤ length pool.old.free }
    ensures { HaveLoaded strips.now lists.now (length pool.old.free) tracks.new pool.new }
{
    for k in 0..lists.len() {
        let list = lists[k].as_slice();
        tracks[k].begin(pool, strips[k], list, chunks);
    }
}

impl Tracks {
    /// The tracks that begin with these lists, each as long as its strip says, over a pool of so
    /// many chunks, which are enough for all lists. Only this call takes memory.
    pub fn new(
        alloc: Global,
        strips: &[StripSettings],
        chunks: u32,
        lists: &[Frames],
    ) -> Result<Tracks, Memory>
        requires few { length strips.now ≤ 16 }
        requires strips { IsTrue (are_strips strips.now) }
        requires chunks { chunks ≤ max_chunks }
        requires lists { AreLists strips.now lists.now }
        requires room { used (map length lists.now) ≤ chunks }
        ensures { IfOk result (λ t. t ≡
            record { chunks = chunks; tracks = first_tracks strips.now lists.now }) }
    {
        let mut pool = Pool::new(alloc, chunks)?;
        let mut tracks = new_tracks(alloc, strips, chunks)?;
        load_all(&mut tracks, &mut pool, strips, lists, chunks);
        Ok(Tracks { pool, tracks })
    }
}
