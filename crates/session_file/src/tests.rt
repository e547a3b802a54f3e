//! Sessions that are read and written again, and sessions with a fault.

use super::*;
use sl_commands::{ReadText, TextFault, TextKind};
use std::alloc::Global;
use std::test::Fail;

const HEAD: &str = "looper session 1\nrate 48000\nloops 2\ndry 0\nsync_source -3\n\
selected_loop_num 1\nfade_step 20\nlong_press 24000\npulse 24000\n";

fn session(alloc: Global, rest: &str) -> Result<String, Fail> {
    let mut text = String::from_str(alloc, HEAD)?;
    text.push_str(rest)?;
    Ok(text)
}

#[test]
fn a_session_is_written_as_it_was_read(rt: HostRuntime) -> Result<(), Fail> {
    let text = session(
        rt.alloc(),
        "loop 0 4 4 1000 1000 0 0 0\nloop 1 0 0 0 1 1 3 8388607\nend\n",
    )?;
    let settings = read_session(text.as_bytes()).ok().ok_or("not read")?;
    let again = session_text(rt.alloc(), &settings).ok().ok_or("no memory")?;
    assert!(rt; again.as_slice() == text.as_bytes());
    Ok(())
}

#[test]
fn faults_have_their_line_and_kind(rt: HostRuntime) -> Result<(), Fail> {
    let rows: [(&str, u32, TextKind); 7] = [
        ("end\n", 10, TextKind::Form),
        ("loop 0 4 5 1000 1000 0 0 0\n", 10, TextKind::Value),
        ("loop 0 4 -4 1000 1000 0 0 0\n", 10, TextKind::Form),
        ("loop 1 4 4 1000 1000 0 0 0\n", 10, TextKind::Order),
        ("loop 1 4 4 1001 1000 0 0 0\n", 10, TextKind::Value),
        (
            "loop 0 0 0 0 0 0 0 0\nloop 1 0 0 0 0 0 0 0\nloop 2 0 0 0 0 0 0 0\n",
            12,
            TextKind::TooMany,
        ),
        (
            "loop 0 0 0 0 0 0 0 0\nloop 1 0 0 0 0 0 0 0\nend",
            12,
            TextKind::Ending,
        ),
    ];
    for (rest, line, kind) in rows {
        let text = session(rt.alloc(), rest)?;
        let fault = match read_session(text.as_bytes()) {
            Err(ReadText::Fault(TextFault { line, kind })) => Some((line, kind)),
            _ => None,
        };
        assert!(rt; fault == Some((line, kind)));
    }
    Ok(())
}
