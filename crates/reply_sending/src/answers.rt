//! Replies and answers to pings as messages.

ghost use Rattle.std.specs.Prelude.{◌≡◌, ◌≤◌, [], length};
ghost use Rattle.reply_sending.specs.Answers.{IsTextArg, reply_bytes, pong_bytes};

use arrayvec::{ArrayString, ArrayVec};
use osc_paths::ReturnPath;
use osc_reader::{MAX_MESSAGE, OutArg, write_message};
use sl_commands::Reply;

/// A text of at most 64 bytes as an argument.
fn text_arg(text: &str) -> OutArg
    requires { length text.now ≤ 64 }
    ensures { IsTextArg text.now result }
{
    match ArrayString::from(text) {
        Ok(text) => OutArg::Text(text),
        Err(_) => unreachable!(),
    }
}

/// Writes a reply, on a return path, over an empty buffer.
pub fn write_reply(out: &mut ArrayVec<u8, MAX_MESSAGE>, path: &ReturnPath, reply: Reply)
    requires { out.old.items ≡ [] }
    ensures { out.new.items ≡ reply_bytes path.now reply }
{
    let args = [
        OutArg::Int(reply.index),
        text_arg(reply.what.name()),
        OutArg::Int(reply.value),
    ];
    let _written = write_message(out, path.as_bytes(), &args);
}

/// Writes the answer to a ping, where there are so many loops, over an empty buffer.
pub(crate) fn write_pong(out: &mut ArrayVec<u8, MAX_MESSAGE>, path: &ReturnPath, loops: u8)
    requires { out.old.items ≡ [] }
    ensures { out.new.items ≡ pong_bytes path.now loops }
{
    let args = [
        text_arg("looper"),
        text_arg("1.0.0"),
        OutArg::Int(loops as i32),
    ];
    let _written = write_message(out, path.as_bytes(), &args);
}
