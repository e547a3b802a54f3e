//! Journals that are read and written again, and journals with a fault.

use super::*;
use sl_commands::{Command, ReadText, TextFault, TextKind};
use std::alloc::Global;
use std::test::Fail;

/// Each command once.
const ALL: &[u8] = b"looper journal 1\n\
0 0 0 down 0 record\n\
0 1 0 up -1 oneshot\n\
4 0 1 hit -3 undo_all\n\
4 0 2 set 1 rec_thresh 8388607\n\
4 0 3 gset sync_source -3\n\
5 1 1 get -3 free_time\n\
5 0 4 gget pulse\n\
5 0 5 save 1 take-1.wav\n\
6 0 6 session my_set\n\
6 2 0 release -1 4\n\
1099511627776 1 2 quit\n\
end\n";

fn again(alloc: Global, bytes: &[u8]) -> Result<Vec<u8>, ReadText> {
    let entries = read_journal(alloc, bytes, 2)?;
    match journal_text(alloc, entries.as_slice()) {
        Ok(text) => Ok(text),
        Err(_) => Err(ReadText::Memory),
    }
}

#[test]
fn a_journal_of_all_commands_is_written_as_it_was_read(rt: HostRuntime) -> Result<(), Fail> {
    let text = again(rt.alloc(), ALL).ok().ok_or("not read")?;
    assert!(rt; text.as_slice() == ALL);
    Ok(())
}

#[test]
fn entries_have_the_values_of_their_lines(rt: HostRuntime) -> Result<(), Fail> {
    let entries = read_journal(rt.alloc(), ALL, 2).ok().ok_or("not read")?;
    let last = entries.as_slice().last().ok_or("no entries")?;
    assert!(rt; last.frame == 1099511627776 && last.sender == 1 && last.seq == 2);
    assert!(rt; matches!(last.command, Command::Quit));
    Ok(())
}

fn fault_of(alloc: Global, bytes: &[u8]) -> Option<(u32, TextKind)> {
    match read_journal(alloc, bytes, 2) {
        Err(ReadText::Fault(TextFault { line, kind })) => Some((line, kind)),
        _ => None,
    }
}

#[test]
fn faults_have_their_line_and_kind(rt: HostRuntime) {
    let rows: [(&[u8], u32, TextKind); 9] = [
        (b"looper journal 1", 1, TextKind::Ending),
        (b"looper journal 2\nend\n", 1, TextKind::Header),
        (b"looper journal 1\nend", 2, TextKind::Ending),
        (b"looper journal 1\nend\n\n", 3, TextKind::Ending),
        (b"looper journal 1\n00 0 0 quit\nend\n", 2, TextKind::Form),
        (b"looper journal 1\n0 0 0  quit\nend\n", 2, TextKind::Form),
        (b"looper journal 1\n1 3 9 quit\nend\n", 2, TextKind::Value),
        (b"looper journal 1\n0 0 1 quit\nend\n", 2, TextKind::Order),
        (
            b"looper journal 1\n0 0 0 quit\n0 0 0 quit\n",
            3,
            TextKind::Order,
        ),
    ];
    for (bytes, line, kind) in rows {
        let fault = fault_of(rt.alloc(), bytes);
        assert!(rt; fault == Some((line, kind)));
    }
}
