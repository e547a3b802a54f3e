//! Reading a text of any form, line by line.

ghost use Rattle.std.specs.Prelude.{◌≡◌, ◌++◌, ◌∷◌, [], List, IfOk, IfErr};
ghost use Rattle.text_lines.specs.FirstFaults.{IsText, IsReason};
ghost use Rattle.text_lines.specs.Taking.{IsFaultAt, IsReasonAt};

use crate::line::next_line;
use sl_commands::{ReadText, TextFault, TextKind};

/// Why a line was not taken.
#[derive(Clone, Copy, PartialEq, Eq)]
pub enum Refused {
    Wrong(TextKind),
    Memory,
}

/// The lines of a form that were read so far.
pub trait FormLines: Drop {
    ghost use Rattle.std.specs.Prelude.{◌≡◌, ◌≤◌, ℕ, List, length, OnOk, IfErr};
    ghost use Rattle.text_lines.specs.FirstFaults.{TextForm};
    ghost use Rattle.text_lines.specs.Taking.{IsTaken, IsRefused, max_form_lines};

    // What a line spells.
    ghost Item: { Type 0 };

    // The form for a number that the reader was given, as a number of loops.
    ghost form: { ℕ → TextForm Item };

    ghost given: { Self → ℕ };

    // What the lines so far spell.
    ghost items: { Self → List Item };

    /// The first line of a text.
    fn header(&self) -> &[u8]
        ensures { result.now ≡ (form (given self.now)).header };

    /// How many lines there are.
    fn count(&self) -> u32
        ensures value { result ≡ length (items self.now) }
        ensures within { length (items self.now) ≤ max_form_lines };

    /// Takes one line behind those so far.
    fn take_line(&mut self, line: &[u8]) -> Result<(), Refused>
        ensures given { given self.new ≡ given self.old }
        ensures ok { OnOk result
            (IsTaken (form (given self.old)) (items self.old) line.now (items self.new)) }
        ensures wrong { IfErr result
            (IsRefused (form (given self.old)) (items self.old) line.now) };
}

/// The fault of a kind at a line.
fn fault(line: u32, kind: TextKind) -> ReadText
    ensures { IsFaultAt line kind result }
{
    ReadText::Fault(TextFault { line, kind })
}

/// Why the line wasn't taken, as the answer for the whole text.
fn reason(line: u32, refused: Refused) -> ReadText
    ensures { IsReasonAt line refused result }
{
    match refused {
        Refused::Wrong(kind) => fault(line, kind),
        Refused::Memory => ReadText::Memory,
    }
}

/// Reads the lines behind the header.
fn read_lines<L: FormLines>(none: L, lines: &[u8]) -> Result<L, ReadText>
    requires none { L.items none ≡ [] }
    requires due { (before : List L.Item) → (L.form (L.given none)).Due before }
    ensures found { IfOk result (λ l. IsText (L.form (L.given none))
        ((L.form (L.given none)).header ++ (10 ∷ lines.now)) (L.items l)) }
    ensures fault { IfErr result (IsReason (L.form (L.given none))
        ((L.form (L.given none)).header ++ (10 ∷ lines.now))) }
{
    let mut so_far = none;
    let mut rest = lines;
    'lines: while let Some((line, behind)) = next_line(rest) {
        let count = so_far.count();
        if line == b"end".as_slice() {
            if !behind.is_empty() {
                return Err(fault(count + 3, TextKind::Ending));
            }
            return Ok(so_far);
        }
        match so_far.take_line(line) {
            Ok(()) => {}
            Err(refused) => return Err(reason(count + 2, refused)),
        }
        rest = behind;
    }
    Err(fault(so_far.count() + 2, TextKind::Ending))
}

/// Reads a text of a form in which `end` may stand behind any line: all its lines, behind none, or
/// its first fault.
pub fn read_form<L: FormLines>(none: L, bytes: &[u8]) -> Result<L, ReadText>
    requires none { L.items none ≡ [] }
    requires due { (before : List L.Item) → (L.form (L.given none)).Due before }
    ensures found { IfOk result (λ l. IsText (L.form (L.given none)) bytes.now (L.items l)) }
    ensures fault { IfErr result (IsReason (L.form (L.given none)) bytes.now) }
{
    let Some((first, lines)) = next_line(bytes) else {
        return Err(fault(1, TextKind::Ending));
    };
    if first != none.header() {
        return Err(fault(1, TextKind::Header));
    }
    read_lines(none, lines)
}
