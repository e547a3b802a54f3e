//! The paths that a message may have.

ghost use Rattle.std.specs.Prelude.{◌≡◌};
ghost use Rattle.osc_paths.specs.Texts.{cut_at, number_up_to};
ghost use Rattle.osc_paths.specs.Paths.{target_in, loop_path, looper_path, path_behind, any_path, path_in, is_open};

use crate::text::{cut_at, number_up_to};
use sl_commands::Target;

/// A path of the table: of a loop, of all, or of the selected one; or of the looper.
#[derive(Clone, Copy, PartialEq, Eq)]
pub enum Path {
    Down(Target),
    Up(Target),
    Hit(Target),
    Set(Target),
    Get(Target),
    SaveLoop(Target),
    SetGlobal,
    GetGlobal,
    SaveSession,
    Ping,
    Quit,
}

impl Path {
    /// It names no loop that isn't there, and reads and saves no loops at once.
    fn is_open(self, loops: u8) -> bool
        ensures { result ≡ is_open loops self }
    {
        match self {
            Path::Down(target) | Path::Up(target) | Path::Hit(target) | Path::Set(target) =>
                target.is_allowed(loops),
            Path::Get(target) | Path::SaveLoop(target) => target.is_single(loops),
            Path::SetGlobal | Path::GetGlobal | Path::SaveSession | Path::Ping | Path::Quit => true,
        }
    }
}

/// The target that these bytes name.
fn target_in(bytes: &[u8]) -> Option<Target>
    ensures { result ≡ target_in bytes.now }
{
    if bytes == b"-1".as_slice() {
        return Some(Target::All);
    }
    if bytes == b"-3".as_slice() {
        return Some(Target::Selected);
    }
    let number = number_up_to(255, bytes)?;
    Some(Target::One(number as u8))
}

/// The path of a loop with this word.
fn loop_path(target: Target, word: &[u8]) -> Option<Path>
    ensures { result ≡ loop_path target word.now }
{
    if word == b"down".as_slice() {
        Some(Path::Down(target))
    } else if word == b"up".as_slice() {
        Some(Path::Up(target))
    } else if word == b"hit".as_slice() {
        Some(Path::Hit(target))
    } else if word == b"set".as_slice() {
        Some(Path::Set(target))
    } else if word == b"get".as_slice() {
        Some(Path::Get(target))
    } else if word == b"save_loop".as_slice() {
        Some(Path::SaveLoop(target))
    } else {
        None
    }
}

/// The path of the looper with this address.
fn looper_path(address: &[u8]) -> Option<Path>
    ensures { result ≡ looper_path address.now }
{
    if address == b"/set".as_slice() {
        Some(Path::SetGlobal)
    } else if address == b"/get".as_slice() {
        Some(Path::GetGlobal)
    } else if address == b"/save_session".as_slice() {
        Some(Path::SaveSession)
    } else if address == b"/ping".as_slice() {
        Some(Path::Ping)
    } else if address == b"/quit".as_slice() {
        Some(Path::Quit)
    } else {
        None
    }
}

/// The path of a loop, behind `/sl/`.
#[tactic(auto, unfolding(crate::specs::Paths::path_behind))]
fn path_behind(bytes: &[u8]) -> Option<Path>
    ensures { result ≡ path_behind bytes.now }
{
    let (number, word) = cut_at(bytes, b'/')?;
    let target = target_in(number)?;
    loop_path(target, word)
}

/// The path with this address, whatever loops there are.
fn any_path(address: &[u8]) -> Option<Path>
    ensures { result ≡ any_path address.now }
{
    if address.starts_with(b"/sl/") {
        path_behind(&address[4..])
    } else {
        looper_path(address)
    }
}

/// The path that an address names, where there are so many loops.
pub(crate) fn path_in(address: &[u8], loops: u8) -> Option<Path>
    ensures { result ≡ path_in loops address.now }
{
    let path = any_path(address)?;
    if path.is_open(loops) {
        Some(path)
    } else {
        None
    }
}
