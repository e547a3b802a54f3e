//! What a run tells: a line for each reply, and the numbers at the end.

ghost use Rattle.std.specs.Prelude.{◌≡◌, ◌++◌, OnOk};
ghost use Rattle.std.specs.Option.{option_map};
ghost use Rattle.std.specs.Prelude.{option_to_list};
ghost use Rattle.std.specs.String.{string_bytes};
ghost use Rattle.journal_run.specs.RunTexts.{reply_line, reply_lines, numbers_line};

use sl_commands::Reply;
use std::alloc::AllocError;

/// Writes the line of a reply.
fn write_reply(text: &mut String, reply: &Reply) -> Result<(), AllocError>
    ensures { OnOk result (string_bytes text.new ≡ string_bytes text.old ++ reply_line reply.now) }
{
    let sender = reply.sender;
    let seq = reply.seq;
    let index = reply.index;
    let what = reply.what.name();
    let value = reply.value;
    write!(text, "reply {sender} {seq} ")?;
    write!(text, "{index} {what} {value}\n")
}

/// Writes the line of a reply where there is one.
pub fn write_answer(text: &mut String, answer: Option<Reply>) -> Result<(), AllocError>
    ensures { OnOk result
        (string_bytes text.new ≡ string_bytes text.old ++ reply_lines (option_to_list answer)) }
{
    match answer {
        Some(reply) => write_reply(text, &reply),
        None => Ok(()),
    }
}

/// Writes the line of the numbers at the end.
pub fn write_numbers(
    text: &mut String,
    frames: usize,
    entries: usize,
    replies: usize,
    saves: u32,
    refused: u64,
) -> Result<(), AllocError>
    ensures { OnOk result (string_bytes text.new ≡ string_bytes text.old
        ++ numbers_line frames entries replies saves refused) }
{
    write!(text, "frames {frames} entries {entries} ")?;
    write!(text, "replies {replies} saves {saves} refused {refused}\n")
}
