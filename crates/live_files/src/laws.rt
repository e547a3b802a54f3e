//! What holds of the definitions, of files that are told.

ghost use Rattle.std.specs.Prelude.{◌≡◌, ℕ, List, Some};
ghost use Rattle.sl_ports.specs.Files.{Files};
ghost use Rattle.live_files.specs.LiveNamed.{LiveNamed, IsLiveNamed};
ghost use Rattle.live_files.specs.LiveReading.{LiveContents, HoldsLive, IsLiveOf, ExceedsLive, FirstBadLive};

/// What good files tell is one.
pub fn live_files_have_one_reading()
    ensures { (files : Files) (n : LiveNamed) (t other : LiveContents) → IsLiveNamed n →
        HoldsLive (Some files) n t → HoldsLive (Some files) n other → t ≡ other }
{}

/// The first bad file is one, with its number and its line.
pub fn live_files_have_one_first_bad_file()
    ensures { (files : Files) (n : LiveNamed) (name other : List ℕ)
        (kind line kind_too line_too : ℕ) → IsLiveNamed n
        → FirstBadLive (Some files) n name kind line
        → FirstBadLive (Some files) n other kind_too line_too
        → (name ≡ other) × (kind ≡ kind_too) × (line ≡ line_too) }
{}

/// A live session that is read has no bad file and chunks enough, and where there are too few
/// chunks no file is bad.
pub fn live_files_are_read_or_refused()
    ensures file { (files : Files) (n : LiveNamed) (t : LiveContents) (name : List ℕ)
        (kind line : ℕ) → IsLiveNamed n → IsLiveOf (Some files) n t
        → ¬ FirstBadLive (Some files) n name kind line }
    ensures limit { (files : Files) (n : LiveNamed) (t : LiveContents) → IsLiveNamed n →
        IsLiveOf (Some files) n t → ¬ ExceedsLive (Some files) n }
    ensures order { (files : Files) (n : LiveNamed) (name : List ℕ) (kind line : ℕ) →
        IsLiveNamed n → ExceedsLive (Some files) n
        → ¬ FirstBadLive (Some files) n name kind line }
{}
