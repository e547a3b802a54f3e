//! What no clause says: the names and ranges as the tables give them, and that each call succeeds
//! with ample memory.

use crate::{
    Command, Control, Entries, Entry, Globals, Initial, OSC, PartFrames, Settings, StripSettings,
    Strips, Verb, control_of, in_range, verb_of,
};
use sl_base::{Frame, Frames, Memory};
use std::alloc::Global;

fn is_verb(name: &str, number: u8) -> bool {
    match verb_of(name.as_bytes()) {
        Some(verb) => verb.number() == number
            && verb.name() == name
            && Verb::numbered(number) == Some(verb),
        None => false,
    }
}

#[test]
fn verbs_have_their_names_and_numbers(rt: HostRuntime) {
    let rows = [
        ("record", 0),
        ("mute_on", 7),
        ("oneshot", 9),
        ("pause", 12),
        ("undo_all", 15),
        ("redo_all", 16),
    ];
    for (name, number) in rows {
        let found = is_verb(name, number);
        assert!(rt; found, "{name}");
    }
    let unknown = is_verb("rec", 0);
    assert!(rt; !unknown);
}

fn has_range(name: &str, least: i32, greatest: i32, first: u32) -> bool {
    match control_of(name.as_bytes()) {
        Some(control) => ends_at(control, least, greatest) && control.default_value() == first,
        None => false,
    }
}

fn ends_at(control: Control, least: i32, greatest: i32) -> bool {
    in_range(control, least, 4)
        && in_range(control, greatest, 4)
        && !in_range(control, least.wrapping_sub(1), 4)
        && !in_range(control, greatest.wrapping_add(1), 4)
}

#[test]
fn controls_have_their_names_ranges_and_defaults(rt: HostRuntime) {
    let rows = [
        ("feedback", 0, 1000, 1000),
        ("round", 0, 1, 0),
        ("quantize", 0, 3, 0),
        ("rec_thresh", 0, 8388607, 0),
        ("sync_source", 0, 4, 0),
        ("selected_loop_num", 0, 3, 0),
        ("fade_step", 1, 1000, 20),
        ("long_press", 0, 16777216, 24000),
        ("pulse", 1, 16777216, 24000),
    ];
    for (name, least, greatest, first) in rows {
        let found = has_range(name, least, greatest, first);
        assert!(rt; found, "{name}");
    }
    let pulse = in_range(Control::SyncSource, -3, 0);
    assert!(rt; pulse);
}

fn one_entry(alloc: Global) -> Result<usize, Memory> {
    let mut entries = Entries::new(alloc);
    let quit = Entry {
        frame: 0,
        sender: OSC,
        seq: 0,
        command: Command::Quit,
    };
    entries.push(quit.duplicate())?;
    let entries = Entries::of(entries.into_vec());
    Ok(entries.len())
}

fn one_loop(alloc: Global) -> Result<usize, Memory> {
    let mut initial = Initial::new(alloc);
    initial.push(Frames::new(alloc))?;
    Ok(initial.len())
}

#[test]
fn lists_grow_with_ample_memory(rt: HostRuntime) {
    let entries = one_entry(rt.alloc());
    assert!(rt; matches!(entries, Ok(1)));
    let loops = one_loop(rt.alloc());
    assert!(rt; matches!(loops, Ok(1)));
    let mut part = PartFrames::new();
    part.push(Frame::silence());
    assert!(rt; part.len() == 1);
}

fn strips_of(length: u32, cycle: u32) -> Strips {
    let mut strips = Strips::new();
    strips.push(StripSettings {
        length,
        cycle,
        ..StripSettings::default()
    });
    strips
}

#[test]
fn settings_are_made_of_values_in_range(rt: HostRuntime) {
    let settings = Settings::of(768000, Globals::default(), strips_of(4, 4));
    assert!(rt; settings.is_some());
    let settings = Settings::of(768000, Globals::default(), strips_of(0, 4));
    assert!(rt; settings.is_none());
}
