//! The top call.

ghost use Rattle.std.specs.Prelude.{◌≡◌, ◌≢◌, ◌⊎◌, ◌↔◌, ℕ, List, Some, None, IfSome, map};
ghost use Rattle.std.specs.Io.KnownBytes.{Appends};
ghost use Rattle.std.specs.String.{string_bytes};
ghost use Rattle.sl_base.specs.Counting.{Rose};
ghost use Rattle.sl_ports.specs.Effects.{TellsTo};
ghost use Rattle.sl_ports.specs.Texts.{AppendsPrefix};
ghost use Rattle.command_words.specs.Answering.{asked_by};
ghost use Rattle.looper_cli.specs.Named.{IsNamedBy};
ghost use Rattle.looper_cli.specs.Endings.{Ends, Does, CountsBy, KeepsCounts, StaysWhole, IsDone, NamesBad, IsBadFor, CannotWrite, IsBeyondFor, WritesAtMost};
ghost use Rattle.console_lines.specs.Statuses.{IsStatusNumber, status_line};
ghost use Rattle.command_words.specs.Words.{asked_in};
ghost use Rattle.console_lines.specs.declared.status.Status.TheVariants.{Words as Other, ReadFault, WriteFault, Limit};

use crate::drill::drill;
use crate::render::render;
use crate::show::show;
use command_words::{Plain, plain_words};
use console_lines::{RunFault, Status, tell, tell_done, tell_fault};
use sl_ports::{Keeper, Sink};
use std::alloc::Global;

/// Does what the words ask for, and gives the text that tells of it.
fn run<P: Keeper>(alloc: Global, keeper: &mut P, words: &Plain) -> Result<String, RunFault>
    ensures named { IsNamedBy (asked_by words.now) }
    ensures does { Does P.Keeper (asked_by words.now) keeper.old keeper.new result }
    ensures counts { CountsBy P.Keeper keeper.old keeper.new result }
{
    match words {
        Plain::Render(asked) => render(alloc, keeper, asked),
        Plain::Drill(asked) => drill(alloc, asked),
        Plain::Show(session) => show(alloc, keeper, session),
    }
}

/// Does what the words ask for, and tells the console how it ended.
fn run_and_tell<P: Keeper, C: Sink>(
    alloc: Global,
    words: &Plain,
    keeper: &mut P,
    console: &mut C,
) -> Status
    ensures named { IsNamedBy (asked_by words.now) }
    ensures ends { Ends P.Keeper C.Sink (asked_by words.now)
        keeper.old keeper.new console.old console.new result }
    ensures counts { KeepsCounts P.Keeper keeper.old keeper.new result }
{
    match run(alloc, keeper, words) {
        Ok(text) => tell_done(console, text.as_str()),
        Err(fault) => tell_fault(console, &fault),
    }
}

/// Runs the words, over files and a console, and gives the exit status.
///
/// `render IN JOURNAL OUT` plays the WAV file IN into the loops by the commands of JOURNAL, writes
/// the files of all saves, and at last what is heard to the WAV file OUT. OUT may be one of the
/// others. `drill NUMBER STEPS` runs the steps that its number makes, and tells its numbers. `show
/// NAME` tells a session's loops. Statuses: 0 done, 2 other words, 3 a bad file, 4 a
/// reading failed, 5 a write failed, 8 out of memory, 9 a limit is exceeded.
pub fn plain_run<P: Keeper, C: Sink>(
    alloc: Global,
    words: &[String],
    keeper: &mut P,
    console: &mut C,
) -> u8
    ensures statuses { IsStatusNumber result }

    // 2 comes exactly where the words aren't in the grammar.
    ensures words { (result ≡ 2) ↔ (asked_in (map string_bytes words.now) ≡ None) }
    ensures words_text { result ≡ 2 → TellsTo C.Sink console.old console.new (status_line Other) }

    // At 0, the files of the run's saves and OUT are written and its replies told, or the drill's
    // numbers or the session's loops are told; no count rose.
    ensures done { result ≡ 0 → IfSome (asked_in (map string_bytes words.now)) (λ asked.
        IsDone asked (P.files keeper.old) (P.files keeper.new)
        (Appends (C.held console.old) (C.held console.new))) }
    ensures counts { result ≡ 0 →
        StaysWhole P.Keeper keeper.old keeper.new × (C.faults console.new ≡ C.faults console.old) }

    // 3 comes exactly where a file is missing or not in its form, unless 4 or 8 does.
    ensures bad_file { result ≡ 3 → IfSome (asked_in (map string_bytes words.now)) (λ asked.
        NamesBad asked (P.files keeper.old) (TellsTo C.Sink console.old console.new)) }
    ensures bad_file_always { IfSome (asked_in (map string_bytes words.now)) (λ asked.
        IfSome (P.files keeper.old) (λ files.
        (name : List ℕ) (kind line : ℕ) → IsBadFor asked (Some files) name kind line →
        (result ≡ 3) ⊎ (result ≡ 4) ⊎ (result ≡ 8))) }

    // 9 comes exactly where all files are good and a limit is exceeded, unless 4 or 8 does.
    ensures limit { result ≡ 9 → IfSome (asked_in (map string_bytes words.now)) (λ asked.
        IsBeyondFor asked (P.files keeper.old))
        × TellsTo C.Sink console.old console.new (status_line Limit) }
    ensures limit_always { IfSome (asked_in (map string_bytes words.now)) (λ asked.
        IfSome (P.files keeper.old) (λ files. IsBeyondFor asked (Some files) →
        (result ≡ 4) ⊎ (result ≡ 8) ⊎ (result ≡ 9))) }

    // 4 comes only where the count of readings rose, 5 only where the count of writes or the
    // console's did.
    ensures read_fault { result ≡ 4 → Rose (P.read_faults keeper.old) (P.read_faults keeper.new)
        × TellsTo C.Sink console.old console.new (status_line ReadFault) }
    ensures write_fault { result ≡ 5 → IfSome (asked_in (map string_bytes words.now)) (λ asked.
        (CannotWrite P.Keeper asked keeper.old keeper.new
        × TellsTo C.Sink console.old console.new (status_line WriteFault))
        ⊎ (Rose (C.faults console.old) (C.faults console.new)
        × IsDone asked (P.files keeper.old) (P.files keeper.new)
        (AppendsPrefix (C.held console.old) (C.held console.new)))) }

    // And where no reading failed the count of readings is as before, as that of writes where no
    // write did. Other words touch nothing.
    ensures reads { result ≢ 4 → P.read_faults keeper.new ≡ P.read_faults keeper.old }
    ensures writes { result ≢ 5 → P.write_faults keeper.new ≡ P.write_faults keeper.old }
    ensures words_touch_nothing { result ≡ 2 → keeper.new ≡ keeper.old }

    // Files change at 0, 5 and 8 alone, at 8 by the first files of the run at most; and 8 tells
    // nothing.
    ensures unchanged { (result ≡ 2) ⊎ (result ≡ 3) ⊎ (result ≡ 4) ⊎ (result ≡ 9) →
        P.files keeper.new ≡ P.files keeper.old }
    ensures memory { result ≡ 8 → IfSome (asked_in (map string_bytes words.now)) (λ asked.
        WritesAtMost asked (P.files keeper.old) (P.files keeper.new))
        × (console.new ≡ console.old) }
{
    match plain_words(words) {
        Ok(words) => run_and_tell(alloc, &words, keeper, console).number(),
        Err(_) => {
            tell(console, Status::Words.line());
            Status::Words.number()
        }
    }
}
