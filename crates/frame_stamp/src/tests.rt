//! Entries of three senders, stamped and handed out.

use super::*;
use sl_commands::{Command, Target, Verb};
use std::alloc::Global;
use std::test::Fail;

#[test]
fn entries_are_stamped_in_order_and_handed_out(rt: HostRuntime) -> Result<(), Fail> {
    let alloc = rt.alloc();
    let mut journal = Journal::with_quota(alloc, 1).ok().ok_or("no memory")?;
    assert!(rt; journal.has_room(0) && journal.has_room(2) && !journal.has_room(3));
    assert!(rt; journal.stamp(0, 0, Command::Hit(Target::One(0), Verb::Rec)) == 0);
    assert!(rt; journal.stamp(4, 2, Command::Release(Target::One(0), 0)) == 0);
    assert!(rt; journal.stamp(4, 2, Command::Release(Target::All, 1)) == 1);
    assert!(rt; journal.stamp(9, 1, Command::Quit) == 0);
    assert!(rt; !journal.has_room(0) && !journal.has_room(1) && !journal.has_room(2));
    assert!(rt; journal.count(0) == 1 && journal.count(2) == 2 && journal.count(7) == 0);
    assert!(rt; journal.entries().len() == 4);
    let entries = journal.into_entries();
    let last = &entries.as_slice()[3];
    assert!(rt; last.frame == 9 && last.sender == 1 && last.seq == 0);
    Ok(())
}
