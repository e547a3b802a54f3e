//! What is seen of all tracks at one moment.

ghost use Rattle.std.specs.Prelude.{◌≡◌, ◌≤◌, ◌<◌, length, map};
ghost use Rattle.std.specs.Vec.{vec_capacity};
ghost use Rattle.looper_rules.specs.Looper.{face_on};
ghost use Rattle.loop_tape.specs.Pools.{PoolOf};
ghost use Rattle.looper_tracks.specs.Track.{tracks_in};

use crate::track::Track;
use sl_commands::Face;

/// All faces, in the room of a list.
pub(crate) fn take_faces(tracks: &[Track], faces: &mut Vec<Face>)
    requires room { length tracks.now ≤ vec_capacity faces.old }
    ensures faces { (p : PoolOf) → faces.new.items ≡ map face_on (tracks_in p tracks.now) }
    ensures room { vec_capacity faces.new ≡ vec_capacity faces.old }
{
    faces.clear();
    for k in 0..tracks.len() {
        faces.push_reserved(tracks[k].face());
    }
}
