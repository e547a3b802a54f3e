//! What holds of the definitions.

ghost use Rattle.std.specs.Prelude.{◌≡◌, ℕ, List, IsTrue};
ghost use Rattle.sl_commands.specs.declared.fault.TextKind.{TextKind};
ghost use Rattle.sl_commands.specs.Settings.{LooperSettings, are_settings};
ghost use Rattle.text_lines.specs.FirstFaults.{FirstFault};
ghost use Rattle.session_file.specs.Sessions.{IsSession, session_form, session_text};

/// What is written of settings is their session, and a session is what is written of its settings.
pub fn sessions_come_back()
    ensures written { (s : LooperSettings) → IsTrue (are_settings s) →
        IsSession (session_text s) s }
    ensures read { (bytes : List ℕ) (s : LooperSettings) → IsSession bytes s →
        session_text s ≡ bytes }
{}

/// Bytes have one reading as a session: its settings, or a first fault.
pub fn a_session_has_one_reading()
    ensures settings { (bytes : List ℕ) (s other : LooperSettings) → IsSession bytes s →
        IsSession bytes other → other ≡ s }
    ensures fault { (bytes : List ℕ) (line other : ℕ) (kind kind_too : TextKind) →
        FirstFault session_form bytes line kind → FirstFault session_form bytes other kind_too →
        (line ≡ other) × (kind ≡ kind_too) }
    ensures either { (bytes : List ℕ) (s : LooperSettings) (line : ℕ) (kind : TextKind) →
        IsSession bytes s → ¬ FirstFault session_form bytes line kind }
{}
