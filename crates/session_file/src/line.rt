//! The lines of a session, and what one line says.

ghost use Rattle.std.specs.Prelude.{◌≡◌, ◌≢◌, ℕ, ℤ, ◌≤◌, ◌<◌, ◌^◌, ◌∷◌, [], List, Some, None, map, pos, negsuc, ◌≤ℤ◌, unsigned_abs, IfSome, IfNone, IfOk, IfErr, IsTrue};
ghost use Rattle.std.specs.Fmt.{decimal, signed_decimal};
ghost use Rattle.sl_commands.specs.declared.settings.StripSettings.{StripSettings};
ghost use Rattle.sl_commands.specs.Settings.{is_cycle_of, is_strip};
ghost use Rattle.session_file.specs.declared.line.Setting.{Setting};
ghost use Rattle.session_file.specs.declared.line.Line.{Line};
ghost use Rattle.session_file.specs.SessionLines.{setting_word, setting_shape, is_value, strip_words, loop_words, line_words, line_text, HasValues, IsDue, is_form, begin_with, loop_shapes};
ghost use Rattle.session_file.specs.Sessions.{HasNoValues};
ghost use Rattle.session_file.specs.Readings.{StripFits};

use sl_base::{MAX_LIST_FRAMES, MAX_LOOPS, MAX_RATE};
use sl_commands::{Control, StripSettings, TextKind, in_range, is_cycle_of};
use text_lines::{Shape, behind, have_shapes, read_integer, read_numeral, words_of};

/// What the first eight lines behind the header say.
#[derive(Clone, Copy, PartialEq, Eq)]
pub enum Setting {
    /// Frames a second.
    Rate,
    /// How many loops there are.
    Loops,
    GlobalDry,
    GlobalSyncSource,
    GlobalSelectedLoopNum,
    GlobalFadeStep,
    GlobalLongPress,
    GlobalPulse,
}

/// One line of a session behind the header.
#[derive(Clone, Copy, PartialEq, Eq)]
pub enum Line {
    /// A setting and its number.
    Value(Setting, i32),
    /// A loop's index and settings.
    Loop(u64, StripSettings),
}

impl Default for Line {
    ghost use Rattle.std.specs.Prelude.{◌≡◌, pos};
    ghost use Rattle.session_file.specs.declared.line.Setting.{Setting};
    ghost use Rattle.session_file.specs.declared.line.Line.{Line};

    ghost is_default = { λ l. l ≡ Line.Value Setting.Rate (pos 0) };

    /// A line that stands where none was read yet.
    fn default() -> Line {
        Line::Value(Setting::Rate, 0)
    }
}

impl Setting {
    /// The word that its line begins with.
    pub fn word(self) -> &'static str
        ensures { result.now ≡ setting_word self }
    {
        match self {
            Setting::Rate => "rate",
            Setting::Loops => "loops",
            Setting::GlobalDry => Control::Dry.name(),
            Setting::GlobalSyncSource => Control::SyncSource.name(),
            Setting::GlobalSelectedLoopNum => Control::SelectedLoopNum.name(),
            Setting::GlobalFadeStep => Control::FadeStep.name(),
            Setting::GlobalLongPress => Control::LongPress.name(),
            Setting::GlobalPulse => Control::Pulse.name(),
        }
    }

    /// The shape of its number.
    fn shape(self) -> Shape
        ensures { result ≡ setting_shape self }
    {
        match self {
            Setting::GlobalSyncSource => Shape::Integer,
            _ => Shape::Number,
        }
    }

    /// The number is in its range, where there are so many loops.
    fn allows(self, value: i32, loops: u8) -> bool
        ensures { result ≡ is_value loops self value }
    {
        match self {
            Setting::Rate => 1 <= value && value <= MAX_RATE as i32,
            Setting::Loops => 1 <= value && value <= MAX_LOOPS as i32,
            Setting::GlobalDry => in_range(Control::Dry, value, loops),
            Setting::GlobalSyncSource => in_range(Control::SyncSource, value, loops),
            Setting::GlobalSelectedLoopNum => in_range(Control::SelectedLoopNum, value, loops),
            Setting::GlobalFadeStep => in_range(Control::FadeStep, value, loops),
            Setting::GlobalLongPress => in_range(Control::LongPress, value, loops),
            Setting::GlobalPulse => in_range(Control::Pulse, value, loops),
        }
    }
}

/// The words begin with this one, and the others have these shapes.
fn begin_with(due: &[u8], shapes: &[Shape], words: &[&[u8]]) -> bool
    ensures { result ≡ begin_with due.now shapes.now (map (λ w. w.now) words.now) }
{
    match words {
        [] => false,
        [word, rest @ ..] => *word == due && have_shapes(shapes, rest),
    }
}

/// The words have the form of what is due: of a setting, or of a loop.
fn is_form(due: Option<Setting>, words: &[&[u8]]) -> bool
    ensures { result ≡ is_form due (map (λ w. w.now) words.now) }
{
    match due {
        Some(setting) => begin_with(setting.word().as_bytes(), &[setting.shape()], words),
        None => begin_with(
            b"loop",
            &[
                Shape::Number,
                Shape::Number,
                Shape::Number,
                Shape::Number,
                Shape::Number,
                Shape::Number,
                Shape::Number,
                Shape::Number,
            ],
            words,
        ),
    }
}

/// The number that a word spells, `most` at most.
fn number_of(word: &[u8], most: u32) -> Option<u32>
    ensures found { IfSome result (λ n. (word.now ≡ decimal n) × (n ≤ most)) }
    ensures only { IfNone result ((n : ℕ) → n ≤ most → word.now ≢ decimal n) }
{
    let number = read_numeral(word)?;
    if number <= most as u64 {
        Some(number as u32)
    } else {
        None
    }
}

/// The last three numbers of a loop that words spell, each in its range.
fn switches_of(words: &[&[u8]]) -> Option<(u8, u8, u32)>
    ensures found { IfSome result
        (λ n. (map (λ w. w.now) words.now ≡ decimal n.0 ∷ decimal n.1 ∷ decimal n.2 ∷ [])
        × (n.0 ≤ 1) × (n.1 ≤ 3) × (n.2 ≤ 8388607)) }
    ensures only { IfNone result ((s : StripSettings) → StripFits s →
        map (λ w. w.now) words.now ≢ decimal s.round ∷ decimal s.quantize ∷ decimal s.rec_thresh
        ∷ []) }
{
    match words {
        [round, quantize, rec_thresh] => {
            let round = number_of(round, 1)?;
            let quantize = number_of(quantize, 3)?;
            let rec_thresh = number_of(rec_thresh, 8388607)?;
            Some((round as u8, quantize as u8, rec_thresh))
        }
        _ => None,
    }
}

/// The numbers of a loop that words spell, each in its range.
fn numbers_of(words: &[&[u8]]) -> Option<StripSettings>
    ensures found { IfSome result
        (λ s. (map (λ w. w.now) words.now ≡ strip_words s) × StripFits s) }
    ensures only { IfNone result ((s : StripSettings) → StripFits s →
        map (λ w. w.now) words.now ≢ strip_words s) }
{
    match words {
        [length, cycle, feedback, wet, rest @ ..] => {
            let length = number_of(length, MAX_LIST_FRAMES)?;
            let cycle = number_of(cycle, MAX_LIST_FRAMES)?;
            let feedback = number_of(feedback, 1000)?;
            let wet = number_of(wet, 1000)?;
            let (round, quantize, rec_thresh) = switches_of(rest)?;
            Some(StripSettings {
                length,
                cycle,
                feedback: feedback as u16,
                wet: wet as u16,
                round,
                quantize,
                rec_thresh,
            })
        }
        _ => None,
    }
}

/// The settings of a loop that words spell, in their ranges.
fn strip_of(words: &[&[u8]]) -> Option<StripSettings>
    ensures found { IfSome result (λ s. (map (λ w. w.now) words.now ≡ strip_words s)
        × IsTrue (is_strip s)) }
    ensures only { IfNone result ((s : StripSettings) → IsTrue (is_strip s) →
        map (λ w. w.now) words.now ≢ strip_words s) }
{
    let strip = numbers_of(words)?;
    if is_cycle_of(strip.length, strip.cycle) {
        Some(strip)
    } else {
        None
    }
}

/// The index and the settings of a loop that words spell, the settings in their ranges.
fn loop_of(words: &[&[u8]]) -> Option<(u64, StripSettings)>
    ensures found { IfSome result (λ l. (map (λ w. w.now) words.now ≡ loop_words l.0 l.1)
        × (l.0 < 10 ^ 19) × IsTrue (is_strip l.1)) }
    ensures only { IfNone result ((index : ℕ) (s : StripSettings) → index < 10 ^ 19 →
        IsTrue (is_strip s) → map (λ w. w.now) words.now ≢ loop_words index s) }
{
    match behind(words, b"loop")? {
        [index, rest @ ..] => {
            let index = read_numeral(index)?;
            let strip = strip_of(rest)?;
            Some((index, strip))
        }
        _ => None,
    }
}

/// The number of 32 bits that the only word spells.
fn number_alone(words: &[&[u8]]) -> Option<i32>
    ensures found { IfSome result (λ z. (map (λ w. w.now) words.now ≡ signed_decimal z ∷ [])
        × (unsigned_abs z < 10 ^ 19)) }
    ensures only { IfNone result ((z : ℤ) → negsuc 2147483647 ≤ℤ z → z ≤ℤ pos 2147483647 →
        map (λ w. w.now) words.now ≢ signed_decimal z ∷ []) }
{
    match words {
        [number] => read_integer(number),
        _ => None,
    }
}

/// The number of a setting that words spell, in its range, where there are so many loops.
fn value_of(words: &[&[u8]], setting: Setting, loops: u8) -> Option<i32>
    ensures found { IfSome result
        (λ z. (map (λ w. w.now) words.now ≡ line_words (Line.Value setting z))
        × HasValues loops (Line.Value setting z)) }
    ensures only { IfNone result ((z : ℤ) → HasValues loops (Line.Value setting z) →
        map (λ w. w.now) words.now ≢ line_words (Line.Value setting z)) }
{
    let rest = behind(words, setting.word().as_bytes())?;
    let value = number_alone(rest)?;
    if setting.allows(value, loops) {
        Some(value)
    } else {
        None
    }
}

/// Reads the line of a setting, where there are so many loops.
pub fn read_value(line: &[u8], setting: Setting, loops: u8) -> Result<i32, TextKind>
    ensures found { IfOk result (λ z. (line.now ≡ line_text (Line.Value setting z))
        × HasValues loops (Line.Value setting z)) }
    ensures wrong { IfErr result (HasNoValues (Some setting) loops line.now) }
{
    let Some(words) = words_of(line) else {
        return Err(TextKind::Form);
    };
    match value_of(words.as_slice(), setting, loops) {
        Some(value) => Ok(value),
        None => if is_form(Some(setting), words.as_slice()) {
            Err(TextKind::Value)
        } else {
            Err(TextKind::Form)
        },
    }
}

/// Reads the line of a loop: its index, whatever it is, and its settings.
pub fn read_loop(line: &[u8]) -> Result<(u64, StripSettings), TextKind>
    ensures found { IfOk result (λ l. (line.now ≡ line_text (Line.Loop l.0 l.1)) × (l.0 < 10 ^ 19)
        × IsTrue (is_strip l.1)) }
    ensures wrong { IfErr result (HasNoValues None 0 line.now) }
{
    let Some(words) = words_of(line) else {
        return Err(TextKind::Form);
    };
    match loop_of(words.as_slice()) {
        Some(read) => Ok(read),
        None => if is_form(None, words.as_slice()) {
            Err(TextKind::Value)
        } else {
            Err(TextKind::Form)
        },
    }
}
