//! How many entries of each sender a run has to have room for.

ghost use Rattle.std.specs.Prelude.{◌≡◌, ◌≤◌, ◌<◌, ◌^◌, length};
ghost use Rattle.sl_base.specs.Limits.{max_quota};
ghost use Rattle.sl_commands.specs.Entries.{entries_of};
ghost use Rattle.journal_run.specs.Performing.{HasRoomFor};
ghost use Rattle.journal_run.specs.Quotas.{IsQuotaOf};

use sl_commands::Entry;

/// How many entries a sender has.
fn count(entries: &[Entry], sender: u8) -> usize
    ensures { result ≡ length (entries_of sender entries.now) }
{
    let mut count = 0;
    'entries: for index in 0..entries.len() {
        if entries[index].sender == sender {
            count += 1;
        }
    }
    count
}

/// The least quota, 1 or more, with which a journal has room for these entries.
pub fn quota_of(entries: &[Entry]) -> u32
    requires { HasRoomFor max_quota entries.now }
    ensures value { IsQuotaOf entries.now result }
    ensures within { result ≤ max_quota }
{
    let osc = count(entries, 0);
    let midi = count(entries, 1);
    let saver = count(entries, 2);
    osc.max(midi).max((saver + 1) / 2).max(1) as u32
}
