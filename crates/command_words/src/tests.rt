//! The words of a live session, read once.

use super::*;
use std::test::Fail;

/// The live session that words ask for.
fn live_of(words: Words) -> Option<Live> {
    match words {
        Words::Render(_) => None,
        Words::Drill(_) => None,
        Words::Show(_) => None,
        Words::Live(live) => Some(live),
    }
}

fn is_path(path: &Option<String>, text: &str) -> bool {
    match path {
        Some(path) => path.as_str() == text,
        None => false,
    }
}

#[test]
fn words_ask_for_a_live_session(rt: HostRuntime) -> Result<(), Fail> {
    let mut words = Vec::new(rt.alloc());
    for word in [
        "live",
        "--listen",
        "all",
        "--midi",
        "/dev/midi1",
        "--port",
        "9000",
    ] {
        words.push(String::from_str(rt.alloc(), word)?)?;
    }
    let asked = words_of(rt.alloc(), &words)
        .ok()
        .ok_or("not in the grammar")?;
    let live = live_of(asked).ok_or("another command")?;
    assert!(rt; is_path(&live.midi, "/dev/midi1"));
    assert!(rt; live.listen == Listen::All && live.port == 9000);
    assert_eq!(rt; (live.period, live.rate, live.channels), (1024, 48000, 2));
    assert_eq!(rt; (live.chunks, live.loops, live.quota), (4096, 1, 262144));
    Ok(())
}
