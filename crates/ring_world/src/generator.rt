//! Steps made from a number.

ghost use Rattle.std.specs.Prelude.{◌≡◌, ◌<◌, ◌≤◌, codes, IfOk};
ghost use Rattle.ring_world.specs.Generating.{next_state, verb_at, loop_at, osc_command_by, osc_command, midi_command, step_by, step_at, steps_of};

use crate::step::Step;
use sl_base::{Memory, Name};
use sl_commands::{Command, Control, Target, Verb};
use std::alloc::Global;
use std::marker::Model;

/// Steps, in order.
#[derive(Drop)]
pub struct Steps {
    steps: Vec<Step>,
}

impl Model for Steps {
    ghost use Rattle.std.specs.Prelude.{List};
    ghost use Rattle.ring_world.specs.declared.step.Step.{Step};

    ghost Value = { List Step };

    ghost view = { λ s. s.steps.items };
}

impl Steps {
    /// All steps, in order.
    pub fn as_slice(&self) -> &[Step]
        ensures { result.now ≡ self.now }
    {
        &self.steps
    }

    /// The steps in the vector that holds them. No memory is taken.
    pub fn into_vec(self) -> Vec<Step>
        ensures { result.items ≡ self }
    {
        self.steps
    }
}

/// The state behind this one.
fn next_state(state: u64) -> u64
    ensures { result ≡ next_state state }
{
    state
        .wrapping_mul(6364136223846793005)
        .wrapping_add(1442695040888963407)
}

/// The verb with this number, modulo 17.
fn verb_at(number: u64) -> Verb
    ensures { result ≡ verb_at number }
{
    match Verb::numbered((number % 17) as u8) {
        Some(verb) => verb,
        None => unreachable!(),
    }
}

fn loop_at(w: u64) -> Target
    ensures { result ≡ loop_at w }
{
    Target::One((w % 4) as u8)
}

/// The name of the file of each save.
fn save_name() -> Name
    ensures { result ≡ codes "drill.wav" }
{
    match Name::read(b"drill.wav") {
        Some(name) => name,
        None => unreachable!(),
    }
}

/// A command of OSC that is no hit.
fn other_command(kind: u64, value: u64, target: Target) -> Command
    requires { 17 ≤ kind }
    ensures { result ≡ osc_command_by kind value target }
{
    match kind {
        17 => Command::Get(target, Control::LoopLen),
        18 => Command::Get(target, Control::LoopPos),
        19 => Command::Set(target, Control::Feedback, (value % 1001) as i32),
        20 => Command::SaveLoop(target, save_name()),
        21 => Command::Get(target, Control::FreeTime),
        22 => Command::Down(target, Verb::Rec),
        _ => Command::Up(target, Verb::Rec),
    }
}

fn osc_command(w: u64) -> Command
    ensures { result ≡ osc_command w }
{
    let kind = w / 4 % 24;
    if kind < 17 {
        Command::Hit(loop_at(w), verb_at(kind))
    } else {
        other_command(kind, w / 96, loop_at(w))
    }
}

fn midi_command(w: u64) -> Command
    ensures { result ≡ midi_command w }
{
    Command::Hit(loop_at(w), verb_at(w / 4))
}

/// A step that puts no command and plays nothing.
fn ring_step(kind: u64, w: u64) -> Step
    requires { 13 ≤ kind }
    ensures { result ≡ step_by kind w }
{
    match kind {
        13 => Step::ReplyTake,
        14 => Step::BlockPut,
        15 => Step::BlockTake,
        16 => Step::ReplyPut,
        _ => Step::PutSaver,
    }
}

fn step_by(kind: u64, w: u64) -> Step
    ensures { result ≡ step_by kind w }
{
    match kind {
        0 | 1 | 2 | 3 => Step::PutOsc(osc_command(w)),
        4 => Step::PutMidi(midi_command(w)),
        5 | 6 | 7 => Step::TakeOsc,
        8 => Step::TakeMidi,
        9 => Step::TakeSaver,
        10 | 11 | 12 => Step::Period((1 + w % 64) as u16),
        _ => ring_step(kind, w),
    }
}

fn step_at(state: u64) -> Step
    ensures { result ≡ step_at state }
{
    let draw = state / 8589934592;
    step_by(draw % 18, draw / 18)
}

/// So many steps, made from a number.
#[tactic(auto, using(crate::proofs::CountLemmas::step_more, crate::proofs::CountLemmas::no_step_more))]
pub fn steps_of(alloc: Global, number: u32, count: u32) -> Result<Steps, Memory>
    ensures { IfOk result (λ steps. steps ≡ steps_of number count) }
{
    let mut steps = Vec::with_capacity(alloc, count as usize)?;
    let mut state = number as u64;
    for _ in 0..count {
        state = next_state(state);
        steps.push(step_at(state))?;
    }
    Ok(Steps { steps })
}
