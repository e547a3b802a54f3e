//! What there may be at most, each limit once by its name.

ghost use Rattle.std.specs.Prelude.{◌≡◌};
ghost use Rattle.sl_base.specs.Limits.{max_loops, max_session_name, max_session_frames, max_list_frames, max_file_frames, max_period, max_rate, chunk_frames, max_chunks, max_layers, max_seams, max_quota, max_saver_quota, max_binding_lines, max_value};

/// The most loops of a looper.
pub const MAX_LOOPS: u8 = 16;
/// The most bytes of a session's name, so that the names of its files are names too.
pub const MAX_SESSION_NAME: usize = 48;
/// The most frames that one session goes over.
pub const MAX_SESSION_FRAMES: u64 = 1099511627776;
/// The most frames of a loop's list.
pub const MAX_LIST_FRAMES: u32 = 16777216;
/// The most frames of an audio file that is played or written.
pub const MAX_FILE_FRAMES: usize = 134217728;
/// The most frames that are processed at once.
pub const MAX_PERIOD: u32 = 8192;
/// The greatest rate, in frames a second.
pub const MAX_RATE: u32 = 768000;
/// The frames of a chunk of tape.
pub const CHUNK_FRAMES: u32 = 4096;
/// The most chunks of tape, over all loops.
pub const MAX_CHUNKS: u32 = 32768;
/// The most layers of a loop.
pub const MAX_LAYERS: u32 = 256;
/// The most seams of a loop, over all its layers.
pub const MAX_SEAMS: u32 = 65536;
/// The most entries of one sender.
pub const MAX_QUOTA: u32 = 1048576;
/// The most entries of the saver, which may answer each entry of the two others.
pub const MAX_SAVER_QUOTA: u32 = 2097152;
/// The most lines of a binding text.
pub const MAX_BINDING_LINES: usize = 1024;
/// The greatest value of a reply, and the last count of refusals.
pub const MAX_VALUE: u32 = 2147483647;

/// The code has the limits that contracts name.
pub fn limits_are_those_of_contracts()
    ensures loops { MAX_LOOPS ≡ max_loops }
    ensures session_name { MAX_SESSION_NAME ≡ max_session_name }
    ensures session_frames { MAX_SESSION_FRAMES ≡ max_session_frames }
    ensures list_frames { MAX_LIST_FRAMES ≡ max_list_frames }
    ensures file_frames { MAX_FILE_FRAMES ≡ max_file_frames }
    ensures period { MAX_PERIOD ≡ max_period }
    ensures rate { MAX_RATE ≡ max_rate }
    ensures chunk { CHUNK_FRAMES ≡ chunk_frames }
    ensures chunks { MAX_CHUNKS ≡ max_chunks }
    ensures layers { MAX_LAYERS ≡ max_layers }
    ensures seams { MAX_SEAMS ≡ max_seams }
    ensures quota { MAX_QUOTA ≡ max_quota }
    ensures saver_quota { MAX_SAVER_QUOTA ≡ max_saver_quota }
    ensures binding_lines { MAX_BINDING_LINES ≡ max_binding_lines }
    ensures value { MAX_VALUE ≡ max_value }
{}
