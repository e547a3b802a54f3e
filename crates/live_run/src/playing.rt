//! A session, from what it is asked for to its end.

ghost use Rattle.std.specs.Prelude.{◌≡◌, ◌<◌, length, map, IfOk, IfErr};
ghost use Rattle.looper_rules.specs.Reached.{AreLists};
ghost use Rattle.looper_rules.specs.Room.{used};
ghost use Rattle.frame_stamp.specs.Journals.{next_seq};
ghost use Rattle.midi_bindings.specs.Texts.{AreBindings};
ghost use Rattle.whole_looper.specs.declared.fault.BeginFault.TheVariants.{Limit};
ghost use Rattle.live_files.specs.LiveNamed.{IsLiveNamed};
ghost use Rattle.live_files.specs.LiveAnswers.{told_live};
ghost use Rattle.live_core.specs.Ending.{HasEnded};
ghost use Rattle.live_run.specs.Steps.{AreSizes, beginning_with, PassesBegin, TurnsAway, HasNotBegun};
ghost use Rattle.live_run.specs.Playing.{named_in, numbers_of, HasClosed, Plays};

use crate::closing::{Numbers, tell_closing};
use crate::journal::write_journal;
use crate::outside::{End, Outside, Session};
use crate::status::first_of;
use command_words::Live;
use console_lines::{RunFault, fault_of, tell_fault};
use live_core::{Devices, LiveEnd, NotBegun, live_core};
use live_files::{LiveFiles, LiveSources, read_live};
use live_joining::{ServesAudio, ServesMidi, ServesOsc, ServesSaver};
use live_ports::{Link, Source};
use looper_engine::{EngineFault, Setup};
use sl_base::Name;
use sl_ports::{Keeper, Sink};
use std::alloc::Global;
use std::sync::Wait;
use std::thread::Threads;
use std::time::Clock;

/// Why a session didn't begin, as the fault of the run.
fn begin_fault_of(fault: EngineFault) -> RunFault
    ensures { PassesBegin fault result }
{
    match fault {
        EngineFault::Memory => RunFault::Memory,
        EngineFault::Limit => RunFault::Limit,
    }
}

/// What a session is played with: how many chunks there are, how many commands of a sender may be
/// accepted, the channels of its audio, and the frames of a period.
#[derive(Clone, Copy)]
pub(crate) struct Sizes {
    pub chunks: u32,
    pub quota: u32,
    pub channels: u8,
    pub period: u32,
}

/// Plays what the files tell, over these devices.
fn begin<
    X: ServesAudio<A, O> + ServesOsc<L> + ServesMidi<M> + ServesSaver<P> + Sync,
    P: Keeper + Send,
    A: Source + Send,
    O: Sink + Send,
    L: Link + Send,
    M: Source + Send,
    R: Wait + Clock + Threads + Sync,
>(
    acts: &X,
    alloc: Global,
    rt: &R,
    files: LiveFiles,
    sizes: Sizes,
    devices: Devices<P, A, O, L, M>,
) -> Result<LiveEnd<P, A, O, L, M>, NotBegun<P, A, O, L, M>>
    requires lists { AreLists files.settings.strips files.initial }
    requires bound { AreBindings (length files.settings.strips) files.bindings }
    requires sizes { AreSizes sizes }
    ensures ended { IfOk result (HasEnded A.Source O.Sink L.Link M.Source P.Keeper
        (beginning_with sizes (told_live files)) files.bindings sizes.channels devices) }
    ensures unchanged { IfErr result (λ e. e.devices ≡ devices) }
    ensures limit { IfErr result (λ e. e.fault ≡ Limit →
        sizes.chunks < used (map length files.initial)) }
{
    let LiveFiles {
        settings,
        initial,
        bindings,
    } = files;
    let setup = Setup {
        settings,
        chunks: sizes.chunks,
        quota: sizes.quota,
    };
    live_core(
        acts,
        alloc,
        rt,
        &setup,
        &initial,
        bindings,
        sizes.channels,
        sizes.period as usize,
        devices,
    )
}

/// The numbers of a session.
fn numbers_of<P: Keeper, A: Source, O: Sink, L: Link, M: Source>(
    ended: &LiveEnd<P, A, O, L, M>,
) -> Numbers
    ensures { result ≡ numbers_of ended.now (next_seq 2 ended.now.journal.entries) }
{
    Numbers {
        frames: ended.frames,
        entries: ended.journal.entries().len(),
        osc: ended.osc.tally.count(),
        midi: ended.midi.tally.count(),
        unsent: ended.osc.unsent,
        saves: ended.journal.count(2),
        refused: ended.refused,
    }
}

/// Writes the journal where it is asked for, tells the console, and gives all back.
fn close<P: Keeper, A: Source, O: Sink, L: Link, M: Source, C: Sink>(
    alloc: Global,
    name: &Option<Name>,
    ended: LiveEnd<P, A, O, L, M>,
    console: C,
) -> End<P, A, O, L, M, C>
    ensures { HasClosed P.Keeper C.Sink name.now (next_seq 2 ended.journal.entries) ended console
        result }
{
    let mut console = console;
    let numbers = numbers_of(&ended);
    let LiveEnd {
        status,
        devices,
        journal,
        osc,
        midi,
        frames,
        refused,
    } = ended;
    let Devices {
        mut keeper,
        audio,
        out,
        link,
        midi: midi_source,
    } = devices;
    let wrote = write_journal(alloc, &mut keeper, name, journal.entries());
    let status = first_of(status, wrote);
    let told = tell_closing(alloc, &mut console, numbers, status);
    End {
        status: first_of(status, told).number(),
        outside: Outside {
            keeper,
            audio,
            out,
            link,
            midi: midi_source,
            console,
        },
        session: Some(Session {
            journal,
            osc,
            midi,
            frames,
            refused,
        }),
    }
}

/// Tells the console why there is no session, and gives all back.
fn refuse<P: Keeper, A: Source, O: Sink, L: Link, M: Source, C: Sink>(
    fault: RunFault,
    devices: Devices<P, A, O, L, M>,
    console: C,
) -> End<P, A, O, L, M, C>
    ensures { TurnsAway C.Sink fault devices console result }
{
    let mut console = console;
    let status = tell_fault(&mut console, &fault);
    let Devices {
        keeper,
        audio,
        out,
        link,
        midi,
    } = devices;
    End {
        status: status.number(),
        outside: Outside {
            keeper,
            audio,
            out,
            link,
            midi,
            console,
        },
        session: None,
    }
}

/// The same where the session didn't begin.
fn refuse_beginning<P: Keeper, A: Source, O: Sink, L: Link, M: Source, C: Sink>(
    not_begun: NotBegun<P, A, O, L, M>,
    console: C,
) -> End<P, A, O, L, M, C>
    ensures { HasNotBegun C.Sink not_begun.fault not_begun.devices console result }
{
    let NotBegun { fault, devices } = not_begun;
    refuse(begin_fault_of(fault), devices, console)
}

/// Plays the session that is asked for, with these activities.
pub(crate) fn play<
    X: ServesAudio<A, O> + ServesOsc<L> + ServesMidi<M> + ServesSaver<P> + Sync,
    P: Keeper + Send,
    A: Source + Send,
    O: Sink + Send,
    L: Link + Send,
    M: Source + Send,
    C: Sink + Send,
    R: Wait + Clock + Threads + Sync,
>(
    acts: &X,
    alloc: Global,
    rt: &R,
    asked: Live,
    outside: Outside<P, A, O, L, M, C>,
) -> End<P, A, O, L, M, C>
    ensures plays { Plays P.Keeper A.Source O.Sink L.Link M.Source C.Sink asked outside result }
    ensures named { IsLiveNamed (named_in asked) }
{
    let Live {
        port: _,
        midi: _,
        bind,
        period,
        rate,
        channels,
        chunks,
        loops,
        quota,
        journal,
        session,
        listen: _,
    } = asked;
    let sources = LiveSources {
        session,
        bind,
        rate,
        loops,
        chunks,
    };
    let Outside {
        mut keeper,
        audio,
        out,
        link,
        midi,
        console,
    } = outside;
    let read = read_live(alloc, &mut keeper, &sources);
    let devices = Devices {
        keeper,
        audio,
        out,
        link,
        midi,
    };
    let files = match read {
        Ok(files) => files,
        Err(fault) => return refuse(fault_of(fault), devices, console),
    };
    let sizes = Sizes {
        chunks,
        quota,
        channels,
        period,
    };
    match begin(acts, alloc, rt, files, sizes, devices) {
        Ok(ended) => close(alloc, &journal, ended, console),
        Err(not_begun) => refuse_beginning(not_begun, console),
    }
}
