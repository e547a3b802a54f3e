//! What holds of the definitions.

ghost use Rattle.std.specs.Prelude.{◌≡◌, ◌≤◌, ℕ, List};
ghost use Rattle.sl_commands.specs.declared.entry.Entry.{Entry};
ghost use Rattle.sl_commands.specs.declared.fault.TextKind.{TextKind};
ghost use Rattle.text_lines.specs.FirstFaults.{FirstFault};
ghost use Rattle.journal_text.specs.Journals.{AreOfJournal, IsJournal, journal_form, journal_text};

/// What is written of the entries of a journal is their journal, and a journal is what is written
/// of its entries.
pub fn journals_come_back()
    ensures written { (loops : ℕ) (entries : List Entry) → AreOfJournal loops entries →
        IsJournal loops (journal_text entries) entries }
    ensures read { (loops : ℕ) (bytes : List ℕ) (entries : List Entry) →
        IsJournal loops bytes entries → journal_text entries ≡ bytes }
{}

/// Bytes have one reading as a journal: its entries, or a first fault.
pub fn a_journal_has_one_reading()
    ensures entries { (loops : ℕ) (bytes : List ℕ) (entries others : List Entry) → loops ≤ 16 →
        IsJournal loops bytes entries → IsJournal loops bytes others → others ≡ entries }
    ensures fault { (loops : ℕ) (bytes : List ℕ) (line other : ℕ) (kind kind_too : TextKind) →
        loops ≤ 16
        → FirstFault (journal_form loops) bytes line kind → FirstFault (journal_form loops) bytes
        other kind_too → (line ≡ other) × (kind ≡ kind_too) }
    ensures either { (loops : ℕ) (bytes : List ℕ) (entries : List Entry) (line : ℕ)
        (kind : TextKind) → loops ≤ 16
        → IsJournal loops bytes entries → ¬ FirstFault (journal_form loops) bytes line kind }
{}
