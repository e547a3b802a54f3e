//! A session that is being read.

ghost use Rattle.std.specs.Prelude.{◌≡◌, ℕ, pos, ◌≤◌, ◌<◌, ◌+◌, ◌++◌, ◌∷◌, [], length, IsTrue, IfOk, IfErr, OnOk, Some, ◌≢◌};
ghost use Rattle.sl_commands.specs.Settings.{are_globals, are_strips, is_strip};
ghost use Rattle.sl_commands.specs.declared.fault.TextKind.{TextKind};
ghost use Rattle.text_lines.specs.Lines.{IsCutAt};
ghost use Rattle.text_lines.specs.FirstFaults.{IsText, IsReadUpTo};
ghost use Rattle.text_lines.specs.declared.shape.Shape.{Shape};
ghost use Rattle.session_file.specs.declared.line.Setting.{Setting};
ghost use Rattle.session_file.specs.declared.line.Line.{Line};
ghost use Rattle.session_file.specs.SessionLines.{setting_shape, is_value, line_text, due_behind, loops_said, loop_lines, global_lines, HasValues};
ghost use Rattle.session_file.specs.Sessions.{session_form, MayStand, lines_due};
ghost use Rattle.session_file.specs.Readings.{IsFirst, most_value};

use crate::line::{Line, Setting, read_loop, read_value};
use arrayvec::ArrayVec;
use sl_commands::{Globals, StripSettings, Strips, TextFault, TextKind};
use std::marker::Model;
use text_lines::next_line;

/// The most lines behind the header and before `end`: eight settings and sixteen loops.
const MOST_LINES: usize = 24;

/// The lines that were read off the front of the bytes, and what is left.
#[derive(Drop)]
pub struct Reading<'a> {
    bytes: &'a [u8],
    rest: &'a [u8],
    lines: ArrayVec<Line, MOST_LINES>,
}

impl<'a> Model for Reading<'a> {
    ghost use Rattle.session_file.specs.Readings.{Front, front_of, IsFront};

    ghost Value = { Front };

    ghost view = { front_of };

    ghost invariant = { IsFront };
}

impl<'a> Reading<'a> {
    /// Begins behind the header.
    pub fn new(bytes: &'a [u8]) -> Result<Reading<'a>, TextFault>
        ensures bytes { IfOk result (λ r. r.bytes ≡ bytes.now) }
        ensures lines { IfOk result (λ r. r.lines ≡ []) }
        ensures fault { IfErr result (IsFirst bytes.now) }
    {
        let Some((first, rest)) = next_line(bytes) else {
            return Err(TextFault {
                line: 1,
                kind: TextKind::Ending,
            });
        };
        if first != b"looper session 1".as_slice() {
            return Err(TextFault {
                line: 1,
                kind: TextKind::Header,
            });
        }
        Ok(Reading {
            bytes,
            rest,
            lines: ArrayVec::new(),
        })
    }

    /// The fault of a kind at the line behind those that were read.
    fn fault(&self, kind: TextKind) -> TextFault
        ensures line { result.line ≡ length self.now.lines + 2 }
        ensures kind { result.kind ≡ kind }
    {
        TextFault {
            line: self.lines.len() as u32 + 2,
            kind,
        }
    }

    /// Something follows `end`.
    fn fault_behind(&self) -> TextFault
        ensures line { result.line ≡ length self.now.lines + 3 }
        ensures kind { result.kind ≡ TextKind.Ending }
    {
        TextFault {
            line: self.lines.len() as u32 + 3,
            kind: TextKind::Ending,
        }
    }

    /// The next line, and what stands behind it.
    fn next(&self) -> Result<(&'a [u8], &'a [u8]), TextFault>
        ensures front { IsReadUpTo session_form self.now.bytes self.now.lines self.now.rest }
        ensures found { IfOk result (λ l. IsCutAt 10 self.now.rest l.0.now l.1.now) }
        ensures fault { IfErr result (IsFirst self.now.bytes) }
    {
        match next_line(self.rest) {
            Some(parts) => Ok(parts),
            None => Err(self.fault(TextKind::Ending)),
        }
    }

    /// Puts the line that was read behind those before it.
    fn push(&mut self, line: Line, behind: &'a [u8])
        requires cut { IsCutAt 10 self.old.rest (line_text line) behind.now }
        requires may { MayStand self.old.lines line }
        requires room { length self.old.lines < 24 }
        ensures bytes { self.new.bytes ≡ self.old.bytes }
        ensures lines { self.new.lines ≡ self.old.lines ++ line ∷ [] }
    {
        self.rest = behind;
        self.lines.push(line);
    }

    /// Reads the line of a setting, where there are so many loops.
    fn value(&mut self, setting: Setting, loops: u8) -> Result<i32, TextFault>
        requires due { due_behind self.old.lines ≡ Some setting }
        requires loops { loops_said self.old.lines ≡ loops }
        requires few { length self.old.lines < 8 }
        ensures bytes { self.new.bytes ≡ self.old.bytes }
        ensures lines { IfOk result
            (λ z. self.new.lines ≡ self.old.lines ++ Line.Value setting z ∷ []) }
        ensures within { IfOk result (λ z. IsTrue (is_value loops setting z)) }
        ensures fault { IfErr result (IsFirst self.old.bytes) }
    {
        let (line, behind) = self.next()?;
        match read_value(line, setting, loops) {
            Ok(value) => {
                self.push(Line::Value(setting, value), behind);
                Ok(value)
            }
            Err(kind) => Err(self.fault(kind)),
        }
    }

    /// Reads the line of a setting that isn't below 0, where there are so many loops.
    pub fn number(&mut self, setting: Setting, loops: u8) -> Result<u32, TextFault>
        requires due { due_behind self.old.lines ≡ Some setting }
        requires loops { loops_said self.old.lines ≡ loops }
        requires few { length self.old.lines < 8 }
        requires plain { setting_shape setting ≡ Shape.Number }
        ensures bytes { self.new.bytes ≡ self.old.bytes }
        ensures lines { IfOk result
            (λ n. self.new.lines ≡ self.old.lines ++ Line.Value setting (pos n) ∷ []) }
        ensures within { IfOk result (λ n. IsTrue (is_value loops setting (pos n))) }
        ensures most { IfOk result (λ n. n ≤ most_value loops setting) }
        ensures fault { IfErr result (IsFirst self.old.bytes) }
    {
        match self.value(setting, loops) {
            Ok(value) => Ok(value.unsigned_abs()),
            Err(fault) => Err(fault),
        }
    }

    /// Reads the six lines of the looper's own settings, for so many loops. `rate` was read before.
    pub fn globals(&mut self, rate: u32, loops: u8) -> Result<Globals, TextFault>
        requires lines { self.old.lines ≡ Line.Value Setting.Rate (pos rate)
            ∷ Line.Value Setting.Loops (pos loops) ∷ [] }
        ensures bytes { self.new.bytes ≡ self.old.bytes }
        ensures lines { IfOk result (λ g. self.new.lines ≡ self.old.lines ++ global_lines g) }
        ensures within { IfOk result (λ g. IsTrue (are_globals loops g)) }
        ensures fault { IfErr result (IsFirst self.old.bytes) }
    {
        let dry = self.number(Setting::GlobalDry, loops)?;
        let sync_source = self.value(Setting::GlobalSyncSource, loops)?;
        let selected = self.number(Setting::GlobalSelectedLoopNum, loops)?;
        let fade_step = self.number(Setting::GlobalFadeStep, loops)?;
        let long_press = self.number(Setting::GlobalLongPress, loops)?;
        let pulse = self.number(Setting::GlobalPulse, loops)?;
        Ok(Globals {
            dry: dry as u16,
            sync_source,
            selected_loop_num: selected as u8,
            fade_step: fade_step as u16,
            long_press,
            pulse,
        })
    }

    /// Reads the line of the loop of this index, where there are so many loops.
    fn strip(&mut self, index: u8, loops: u8) -> Result<StripSettings, TextFault>
        requires loops { loops_said self.old.lines ≡ loops }
        requires place { length self.old.lines ≡ 8 + index }
        requires few { index < loops }
        requires most { loops ≤ 16 }
        ensures bytes { self.new.bytes ≡ self.old.bytes }
        ensures lines { IfOk result
            (λ s. self.new.lines ≡ self.old.lines ++ Line.Loop index s ∷ []) }
        ensures within { IfOk result (λ s. IsTrue (is_strip s)) }
        ensures fault { IfErr result (IsFirst self.old.bytes) }
    {
        let (line, behind) = self.next()?;
        let (said, strip) = match read_loop(line) {
            Ok(read) => read,
            Err(kind) => return Err(self.fault(kind)),
        };
        if said != index as u64 {
            return Err(self.fault(TextKind::Order));
        }
        self.push(Line::Loop(said, strip), behind);
        Ok(strip)
    }

    /// Reads the lines of so many loops.
    pub fn strips(&mut self, loops: u8) -> Result<Strips, TextFault>
        requires loops { loops_said self.old.lines ≡ loops }
        requires place { length self.old.lines ≡ 8 }
        requires most { loops ≤ 16 }
        ensures bytes { self.new.bytes ≡ self.old.bytes }
        ensures lines { IfOk result (λ ss. self.new.lines ≡ self.old.lines ++ loop_lines 0 ss) }
        ensures count { IfOk result (λ ss. length ss ≡ loops) }
        ensures within { IfOk result (λ ss. IsTrue (are_strips ss)) }
        ensures fault { IfErr result (IsFirst self.old.bytes) }
    {
        let mut strips = Strips::new();
        'loops: for index in 0..loops {
            let strip = self.strip(index, loops)?;
            strips.push(strip);
        }
        Ok(strips)
    }

    /// Reads the line `end`, where it is due.
    pub fn end(&self) -> Result<(), TextFault>
        requires { length self.now.lines ≡ lines_due self.now.lines }
        ensures ok { OnOk result (IsText session_form self.now.bytes self.now.lines) }
        ensures fault { IfErr result (IsFirst self.now.bytes) }
    {
        let (line, behind) = self.next()?;
        if line != b"end".as_slice() {
            return Err(self.fault(TextKind::TooMany));
        }
        if !behind.is_empty() {
            return Err(self.fault_behind());
        }
        Ok(())
    }
}
