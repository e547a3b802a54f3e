//! Messages as requests.

ghost use Rattle.std.specs.Prelude.{◌≡◌, IfOk, IsTrue, is_some, SomeIff, Ok, Err};
ghost use Rattle.sl_commands.specs.declared.command.Command.TheVariants as commands;
ghost use Rattle.sl_commands.specs.Commands.{is_session_name};
ghost use Rattle.osc_reader.specs.Strings.{has_no_zero};
ghost use Rattle.osc_paths.specs.Making.{press_command, set_command, get_command};
ghost use Rattle.osc_paths.specs.ReturnPaths.{is_return_path};
ghost use Rattle.osc_paths.specs.Paths.{IsPath};
ghost use Rattle.osc_paths.specs.Requests.{IsRequest};
ghost use Rattle.osc_paths.specs.Returns.{return_in};
ghost use Rattle.osc_paths.specs.declared.path.Path.{Path};
ghost use Rattle.osc_paths.specs.declared.request.Request.{Request};
ghost use Rattle.osc_paths.specs.Answers.{verb_in, control_in, fits_path, control_on, verb_answer, set_to, set_answer, get_answer, save_answer, session_answer, ping_answer, quit_answer, answer_on, answered};

use crate::path::{Path, path_in};
use crate::request::{PathFault, Request, ReturnPath, ReturnTo};
use crate::url::url_in;
use osc_reader::{Arg, Message, Text};
use sl_base::{Addr, Name};
use sl_commands::{Command, Control, Target, Verb, control_of, in_range, is_session_name, verb_of};

/// The verb with a name.
fn verb_in(name: &[u8]) -> Option<Verb>
    ensures { result ≡ verb_in name.now }
{
    verb_of(name)
}

/// The control with a name.
fn control_in(name: &[u8]) -> Option<Control>
    ensures { result ≡ control_in name.now }
{
    control_of(name)
}

/// The control is of this kind, and can be set where that is wanted.
fn fits_path(of_loop: bool, to_set: bool, control: Control) -> bool
    ensures { result ≡ fits_path of_loop to_set control }
{
    if of_loop {
        control.is_of_loop() && (!to_set || control.can_be_set())
    } else {
        !control.is_of_loop() && (!to_set || control.can_be_set())
    }
}

/// The control with a name, where it is one that the path takes.
fn control_on(of_loop: bool, to_set: bool, name: &[u8]) -> Option<Control>
    ensures { result ≡ control_on of_loop to_set name.now }
{
    let control = control_in(name)?;
    if fits_path(of_loop, to_set, control) {
        Some(control)
    } else {
        None
    }
}

/// The session's name that these bytes are.
fn session_name(bytes: &[u8]) -> Option<Name>
    ensures { SomeIff result (IsTrue (is_session_name bytes.now)) bytes.now }
{
    let name = Name::read(bytes)?;
    if is_session_name(&name) {
        Some(name)
    } else {
        None
    }
}

/// Where a reply goes, by its url and its path.
fn return_in(from: Addr, url: &Text, path: &Text) -> Option<ReturnTo>
    ensures { result ≡ return_in from url.now path.now }
{
    let addr = url_in(url.as_bytes(), from)?;
    let path = ReturnPath::read(path.as_bytes())?;
    Some(ReturnTo { addr, path })
}

/// How a verb is given.
#[derive(Clone, Copy)]
enum Press {
    Down,
    Up,
    Hit,
}

/// The command that gives a verb.
fn press_command(press: Press, target: Target, verb: Verb) -> Command
    ensures { result ≡ press_command press target verb }
{
    match press {
        Press::Down => Command::Down(target, verb),
        Press::Up => Command::Up(target, verb),
        Press::Hit => Command::Hit(target, verb),
    }
}

#[tactic(auto, unfolding(crate::specs::Answers::verb_answer))]
fn verb_answer(press: Press, target: Target, args: &[Arg]) -> Result<Request, PathFault>
    ensures { result ≡ verb_answer (press_command press target) args.now }
{
    match args {
        [Arg::Text(name)] => {
            let verb = verb_in(name.as_bytes()).ok_or(PathFault::UnknownCommand)?;
            Ok(Request::Play(press_command(press, target, verb), None))
        }
        _ => Err(PathFault::BadArguments),
    }
}

/// The command that sets a control.
fn set_command(target: Option<Target>, control: Control, value: i32) -> Command
    ensures { result ≡ set_command target control value }
{
    match target {
        None => Command::SetGlobal(control, value),
        Some(target) => Command::Set(target, control, value),
    }
}

/// The command that reads a control.
fn get_command(target: Option<Target>, control: Control) -> Command
    ensures { result ≡ get_command target control }
{
    match target {
        None => Command::GetGlobal(control),
        Some(target) => Command::Get(target, control),
    }
}

/// A control set to a value that is in its range.
fn set_to(
    target: Option<Target>,
    control: Control,
    value: &i32,
    loops: u8,
) -> Result<Request, PathFault>
    ensures { result ≡ set_to (set_command target) loops control value.now }
{
    if in_range(control, *value, loops) {
        Ok(Request::Play(set_command(target, control, *value), None))
    } else {
        Err(PathFault::OutOfRange)
    }
}

#[tactic(auto, unfolding(crate::specs::Answers::set_answer))]
fn set_answer(target: Option<Target>, loops: u8, args: &[Arg]) -> Result<Request, PathFault>
    ensures { result ≡ set_answer (is_some target) (set_command target) loops args.now }
{
    match args {
        [Arg::Text(name), Arg::Int(value)] => {
            let control = control_on(target.is_some(), true, name.as_bytes()).ok_or(
                PathFault::UnknownControl,
            )?;
            set_to(target, control, value, loops)
        }
        _ => Err(PathFault::BadArguments),
    }
}

#[tactic(auto, unfolding(crate::specs::Answers::get_answer))]
fn get_answer(target: Option<Target>, from: Addr, args: &[Arg]) -> Result<Request, PathFault>
    ensures { result ≡ get_answer (is_some target) (get_command target) from args.now }
{
    match args {
        [Arg::Text(name), Arg::Text(url), Arg::Text(path)] => {
            let control = control_on(target.is_some(), false, name.as_bytes()).ok_or(
                PathFault::UnknownControl,
            )?;
            let to = return_in(from, url, path).ok_or(PathFault::BadUrl)?;
            Ok(Request::Play(get_command(target, control), Some(to)))
        }
        _ => Err(PathFault::BadArguments),
    }
}

#[tactic(auto, unfolding(crate::specs::Answers::save_answer))]
fn save_answer(target: Target, from: Addr, args: &[Arg]) -> Result<Request, PathFault>
    ensures { result ≡ save_answer (commands.SaveLoop target) from args.now }
{
    match args {
        [
            Arg::Text(name),
            Arg::Text(_),
            Arg::Text(_),
            Arg::Text(url),
            Arg::Text(path),
        ] => {
            let to = return_in(from, url, path).ok_or(PathFault::BadUrl)?;
            let name = Name::read(name.as_bytes()).ok_or(PathFault::BadName)?;
            Ok(Request::Play(Command::SaveLoop(target, name), Some(to)))
        }
        _ => Err(PathFault::BadArguments),
    }
}

#[tactic(auto, unfolding(crate::specs::Answers::session_answer))]
fn session_answer(from: Addr, args: &[Arg]) -> Result<Request, PathFault>
    ensures { result ≡ session_answer from args.now }
{
    match args {
        [Arg::Text(name), Arg::Text(url), Arg::Text(path)] => {
            let to = return_in(from, url, path).ok_or(PathFault::BadUrl)?;
            let name = session_name(name.as_bytes()).ok_or(PathFault::BadName)?;
            Ok(Request::Play(Command::SaveSession(name), Some(to)))
        }
        _ => Err(PathFault::BadArguments),
    }
}

#[tactic(auto, unfolding(crate::specs::Answers::ping_answer))]
fn ping_answer(from: Addr, args: &[Arg]) -> Result<Request, PathFault>
    ensures { result ≡ ping_answer from args.now }
{
    match args {
        [Arg::Text(url), Arg::Text(path)] => {
            let to = return_in(from, url, path).ok_or(PathFault::BadUrl)?;
            Ok(Request::Ping(to))
        }
        _ => Err(PathFault::BadArguments),
    }
}

#[tactic(auto, unfolding(crate::specs::Answers::quit_answer))]
fn quit_answer(args: &[Arg]) -> Result<Request, PathFault>
    ensures { result ≡ quit_answer args.now }
{
    match args {
        [] => Ok(Request::Play(Command::Quit, None)),
        _ => Err(PathFault::BadArguments),
    }
}

/// What the arguments are answered on a path.
fn answer_on(path: Path, loops: u8, from: Addr, args: &[Arg]) -> Result<Request, PathFault>
    ensures { result ≡ answer_on path loops from args.now }
{
    match path {
        Path::Down(target) => verb_answer(Press::Down, target, args),
        Path::Up(target) => verb_answer(Press::Up, target, args),
        Path::Hit(target) => verb_answer(Press::Hit, target, args),
        Path::Set(target) => set_answer(Some(target), loops, args),
        Path::Get(target) => get_answer(Some(target), from, args),
        Path::SaveLoop(target) => save_answer(target, from, args),
        Path::SetGlobal => set_answer(None, loops, args),
        Path::GetGlobal => get_answer(None, from, args),
        Path::SaveSession => session_answer(from, args),
        Path::Ping => ping_answer(from, args),
        Path::Quit => quit_answer(args),
    }
}

/// What a message from somewhere is answered, where there are so many loops.
fn answered(message: &Message, loops: u8, from: Addr) -> Result<Request, PathFault>
    ensures { result ≡ answered loops from message.now }
{
    let path = path_in(message.address.as_bytes(), loops).ok_or(PathFault::UnknownPath)?;
    answer_on(path, loops, from, message.args.as_slice())
}

/// What a message from somewhere asks for, where there are so many loops, or the first fault in
/// their order. It takes no memory.
pub fn command_of(message: &Message, loops: u8, from: Addr) -> Result<Request, PathFault>
    // The answer is that of reading from left to right.
    ensures value { result ≡ answered loops from message.now }

    // What is given is asked for so.
    ensures found { IfOk result (IsRequest loops from message.now) }

    // What is asked for is given.
    ensures only { (request : Request) → IsRequest loops from message.now request →
        result ≡ Ok request }

    // An address that isn't in the table comes first.
    ensures unknown { ((path : Path) → ¬ IsPath loops path message.now.address) →
        result ≡ Err PathFault.UnknownPath }

    // On a path of the table the arguments alone decide, and which fault it is.
    ensures fault { (path : Path) → IsPath loops path message.now.address →
        result ≡ answer_on path loops from message.now.args }
{
    answered(message, loops, from)
}
