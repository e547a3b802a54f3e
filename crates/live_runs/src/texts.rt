//! Packets and files of the sessions, as they are spelled.

/// Asks for the length of the first loop. The answer goes to 127.0.0.1, port 9000.
pub const GET: &[u8] =
    b"/sl/0/get\0\0\0,sss\0\0\0\0loop_len\0\0\0\0osc.udp://127.0.0.1:9000/\0\0\0/r\0\0";

/// The answers 0 and 4.
pub const TOLD_NONE: &[u8] = b"/r\0\0,isi\0\0\0\0\0\0\0\0loop_len\0\0\0\0\0\0\0\0";

pub const TOLD_FOUR: &[u8] = b"/r\0\0,isi\0\0\0\0\0\0\0\0loop_len\0\0\0\0\0\0\0\x04";

/// Ask for a file of each loop. The answers go to where the packets come from.
pub const SAVE: &[u8] = b"/sl/0/save_loop\0,sssss\0\0a.wav\0\0\0\0\0\0\0\0\0\0\0\0\0\0\0/r\0\0";

pub const SAVE_SECOND: &[u8] =
    b"/sl/1/save_loop\0,sssss\0\0b.wav\0\0\0\0\0\0\0\0\0\0\0\0\0\0\0/r\0\0";

/// The answers 0 and 1 to the first, and 0 to the second.
pub const SAVED: &[u8] = b"/r\0\0,isi\0\0\0\0\0\0\0\0save_loop\0\0\0\0\0\0\0";

pub const NOT_SAVED: &[u8] = b"/r\0\0,isi\0\0\0\0\0\0\0\0save_loop\0\0\0\0\0\0\x01";

pub const SAVED_SECOND: &[u8] = b"/r\0\0,isi\0\0\0\0\0\0\0\x01save_loop\0\0\0\0\0\0\0";

/// A session of one loop of four frames, and its list, which is 1 2 3 4 in 16 bits.
pub const SET: &[u8] = b"looper session 1
rate 48000
loops 1
dry 0
sync_source 0
selected_loop_num 0
fade_step 20
long_press 24000
pulse 24000
loop 0 4 4 1000 1000 0 0 0
end
";

pub const LIST: &[u8] =
    b"RIFF\x3c\0\0\0WAVEfmt \x10\0\0\0\x01\0\x02\0\x80\xbb\0\0\0\x65\x04\0\x06\0\x18\0data\
      \x18\0\0\0\0\x01\0\0\x01\0\0\x02\0\0\x02\0\0\x03\0\0\x03\0\0\x04\0\0\x04\0";

/// The files of that session, and of one of two such loops.
pub const ONE: &[(&str, &[u8])] = &[("s", SET), ("s-0.wav", LIST)];

pub const TWO: &[(&str, &[u8])] = &[("s", SET_OF_TWO), ("s-0.wav", LIST), ("s-1.wav", LIST)];

const SET_OF_TWO: &[u8] = b"looper session 1
rate 48000
loops 2
dry 0
sync_source 0
selected_loop_num 0
fade_step 20
long_press 24000
pulse 24000
loop 0 4 4 1000 1000 0 0 0
loop 1 4 4 1000 1000 0 0 0
end
";

/// Eight frames of one channel: of numbers, and of silence.
pub const EIGHT: &[u8] = b"\x01\0\x02\0\x03\0\x04\0\x05\0\x06\0\x07\0\x08\0";

pub const SILENCE: &[u8] = b"\0\0\0\0\0\0\0\0\0\0\0\0\0\0\0\0";
