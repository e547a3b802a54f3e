//! Loading a session: its text, and then the WAV files of its loops.

ghost use Rattle.std.specs.Prelude.{◌≡◌, ◌≤◌, ◌<◌, ◌↔◌, [], ◌∷◌, ◌++◌, get_or, length, IsTrue, OnOk, IfErr};
ghost use Rattle.session_file.specs.declared.loading.LoadFault.TheVariants.{Memory as NoMemory};
ghost use Rattle.sl_base.specs.Limits.{max_session_name};
ghost use Rattle.sl_commands.specs.Settings.{default_strip};
ghost use Rattle.sl_ports.specs.Effects.{OnlyReads};
ghost use Rattle.wav_pcm.specs.Forms.{wav_spelling};
ghost use Rattle.session_file.specs.Parts.{part_name};
ghost use Rattle.session_file.specs.Loading.{is_unread, IsPartSpelled};
ghost use Rattle.session_file.specs.Outcomes.{ReadsBytes, IsFaultOf, ListOf, TellsPart, ReadsPart, ReadsLoop, LoadsParts, ReadsText, TellsText, Loads};

use crate::part::part_name;
use crate::session::read_session;
use sl_base::{Frames, Memory, Name};
use sl_commands::{Initial, ReadText, Settings, StripSettings};
use sl_ports::{FileAnswer, Keeper};
use std::alloc::Global;
use wav_pcm::{Wav, WavFault, read_wav};

/// Why a session isn't loaded.
#[derive(Drop)]
pub enum LoadFault {
    /// The first bad file: its name, the number of what is wrong (0 missing, a text's kind, a WAV
    /// file's fault, 8 another WAV file than the text says) and the line in the text, 0 for a WAV
    /// file.
    File(Name, u8, u32),
    /// A reading failed.
    Read,
    Memory,
}

impl From<Memory> for LoadFault {
    ghost from_gives = { λ _ fault. fault ≡ NoMemory };

    fn from(_: Memory) -> LoadFault {
        LoadFault::Memory
    }
}

/// The bytes of a file. One that is missing is bad, with the number 0 and the line 0.
pub fn read_bytes<P: Keeper>(
    alloc: Global,
    keeper: &mut P,
    name: &Name,
) -> Result<Vec<u8>, LoadFault>
    ensures reads { OnlyReads P.Keeper keeper.old keeper.new (is_unread result) }
    ensures value { ReadsBytes (P.files keeper.old) name.now result }
{
    match keeper.read_file(alloc, name) {
        FileAnswer::Bytes(bytes) => Ok(bytes),
        FileAnswer::Missing => Err(LoadFault::File(name.duplicate(), 0, 0)),
        FileAnswer::Failed => Err(LoadFault::Read),
        FileAnswer::Memory => Err(LoadFault::Memory),
    }
}

/// A WAV file's fault, under its name.
fn fault_of(name: &Name, fault: WavFault) -> LoadFault
    ensures { IsFaultOf name.now fault result }
{
    match fault {
        WavFault::Memory => LoadFault::Memory,
        _ => LoadFault::File(name.duplicate(), fault.number(), 0),
    }
}

/// The file is one of a loop of this length.
fn is_part(wav: &Wav, length: u32) -> bool
    ensures { IsTrue result ↔ IsPartSpelled (wav_spelling wav.now) wav.now.frames length }
{
    wav.channels == 2 && wav.bits == 24 && wav.frames.len() == length as usize
}

/// The list of a WAV file, where it is one of a loop of this length.
fn list_of(name: &Name, length: u32, wav: Wav) -> Result<Frames, LoadFault>
    ensures { ListOf name.now length wav result }
{
    if !is_part(&wav, length) {
        return Err(LoadFault::File(name.duplicate(), 8, 0));
    }
    Ok(wav.frames)
}

/// The list that bytes spell.
#[tactic(auto, using(crate::proofs::LoadLemmas::part_told, crate::proofs::LoadLemmas::wav_fault_told))]
fn part_of(alloc: Global, name: &Name, length: u32, bytes: &[u8]) -> Result<Frames, LoadFault>
    ensures { TellsPart bytes.now name.now length result }
{
    match read_wav(alloc, bytes) {
        Ok(wav) => list_of(name, length, wav),
        Err(fault) => Err(fault_of(name, fault)),
    }
}

/// The list of a file.
#[tactic(auto, using(crate::proofs::LoadLemmas::part_reads, crate::proofs::LoadLemmas::part_value, crate::proofs::LoadLemmas::no_part))]
fn read_part<P: Keeper>(
    alloc: Global,
    keeper: &mut P,
    name: &Name,
    length: u32,
) -> Result<Frames, LoadFault>
    ensures reads { OnlyReads P.Keeper keeper.old keeper.new (is_unread result) }
    ensures value { ReadsPart (P.files keeper.old) name.now length result }
{
    let bytes = read_bytes(alloc, keeper, name)?;
    part_of(alloc, name, length, &bytes)
}

/// The list of a loop. An empty one has no file.
#[tactic(auto, using(crate::proofs::LoadLemmas::loop_value))]
fn read_loop<P: Keeper>(
    alloc: Global,
    keeper: &mut P,
    name: &Name,
    length: u32,
) -> Result<Frames, LoadFault>
    ensures reads { OnlyReads P.Keeper keeper.old keeper.new (is_unread result) }
    ensures value { ReadsLoop (P.files keeper.old) name.now length result }
{
    if length == 0 {
        return Ok(Frames::new(alloc));
    }
    read_part(alloc, keeper, name, length)
}

/// The list of the loop with this index.
fn read_at<P: Keeper>(
    alloc: Global,
    keeper: &mut P,
    session: &Name,
    strips: &[StripSettings],
    index: usize,
) -> Result<Frames, LoadFault>
    requires name { length session.now ≤ max_session_name }
    requires few { length strips.now ≤ 16 }
    requires there { index < length strips.now }
    ensures reads { OnlyReads P.Keeper keeper.old keeper.new (is_unread result) }
    ensures value { ReadsLoop (P.files keeper.old) (part_name session.now index)
        (get_or strips.now index default_strip).length result }
{
    let name = part_name(session, index as u8);
    read_loop(alloc, keeper, &name, strips[index].length)
}

/// The lists of all loops, by index.
#[tactic(auto, using(crate::proofs::LoadLemmas::reads_on, crate::proofs::LoadLemmas::loads_more, crate::proofs::LoadLemmas::bad_loop))]
fn load_parts<P: Keeper>(
    alloc: Global,
    keeper: &mut P,
    session: &Name,
    strips: &[StripSettings],
) -> Result<Initial, LoadFault>
    requires name { length session.now ≤ max_session_name }
    requires few { length strips.now ≤ 16 }
    ensures reads { OnlyReads P.Keeper keeper.old keeper.new (is_unread result) }
    ensures value { LoadsParts (P.files keeper.old) session.now strips.now result }
{
    let mut lists = Initial::new(alloc);
    for index in 0..strips.len() {
        match read_at(alloc, keeper, session, strips, index) {
            Ok(list) => lists.push(list)?,
            Err(fault) => return Err(fault),
        }
    }
    Ok(lists)
}

/// The settings that bytes spell, or the fault of the text under its name.
#[tactic(auto, using(crate::proofs::LoadLemmas::text_fault))]
fn settings_in(session: &Name, bytes: &[u8]) -> Result<Settings, LoadFault>
    ensures { TellsText bytes.now session.now result }
{
    match read_session(bytes) {
        Ok(settings) => Ok(settings),
        Err(ReadText::Fault(fault)) => Err(LoadFault::File(
            session.duplicate(),
            fault.kind.number(),
            fault.line,
        )),
        Err(ReadText::Memory) => Err(LoadFault::Memory),
    }
}

/// The settings of a session.
#[tactic(auto, using(crate::proofs::LoadLemmas::text_reads, crate::proofs::LoadLemmas::text_value, crate::proofs::LoadLemmas::no_session))]
fn read_text<P: Keeper>(
    alloc: Global,
    keeper: &mut P,
    session: &Name,
) -> Result<Settings, LoadFault>
    ensures reads { OnlyReads P.Keeper keeper.old keeper.new (is_unread result) }
    ensures value { ReadsText (P.files keeper.old) session.now result }
{
    let bytes = read_bytes(alloc, keeper, session)?;
    settings_in(session, &bytes)
}

/// Loads a session: its settings, and a list for each loop, as long as its settings say. Its name
/// has at most 48 bytes. The text is read first, and then the WAV files by the index of their
/// loops. The fault is the first by this order.
#[tactic(auto, using(crate::proofs::LoadLemmas::bad_session))]
pub fn load<P: Keeper>(
    alloc: Global,
    keeper: &mut P,
    session: &Name,
) -> Result<(Settings, Initial), LoadFault>
    requires { length session.now ≤ max_session_name }
    ensures reads { OnlyReads P.Keeper keeper.old keeper.new (is_unread result) }
    ensures value { Loads (P.files keeper.old) session.now result }
{
    let settings = read_text(alloc, keeper, session)?;
    let lists = load_parts(alloc, keeper, session, settings.strips.as_slice())?;
    Ok((settings, lists))
}
