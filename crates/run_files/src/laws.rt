//! What holds of the definitions, of files that are told.

ghost use Rattle.std.specs.Prelude.{◌≡◌, ℕ, List, Some};
ghost use Rattle.sl_ports.specs.Files.{Files};
ghost use Rattle.run_files.specs.Named.{Named, IsNamed};
ghost use Rattle.run_files.specs.AllFiles.{Contents, HoldsRun, IsRunOf, ExceedsLimit, FirstBad};

/// What good files tell is one.
pub fn a_run_has_one_reading()
    ensures { (files : Files) (n : Named) (t other : Contents) → IsNamed n →
        HoldsRun (Some files) n t →
        HoldsRun (Some files) n other → t ≡ other }
{}

/// The first bad file is one, with its number and its line.
pub fn a_run_has_one_first_bad_file()
    ensures { (files : Files) (n : Named) (name other : List ℕ) (kind line kind_too line_too : ℕ) →
        IsNamed n
        → FirstBad (Some files) n name kind line → FirstBad (Some files) n other kind_too line_too
        → (name ≡ other) × (kind ≡ kind_too) × (line ≡ line_too) }
{}

/// A run that is read has no bad file and exceeds no limit, and where a limit is exceeded no file
/// is bad.
pub fn a_run_is_read_or_refused()
    ensures file { (files : Files) (n : Named) (t : Contents) (name : List ℕ) (kind line : ℕ) →
        IsNamed n → IsRunOf (Some files) n t → ¬ FirstBad (Some files) n name kind line }
    ensures limit { (files : Files) (n : Named) (t : Contents) → IsNamed n →
        IsRunOf (Some files) n t →
        ¬ ExceedsLimit (Some files) n }
    ensures order { (files : Files) (n : Named) (name : List ℕ) (kind line : ℕ) → IsNamed n →
        ExceedsLimit (Some files) n → ¬ FirstBad (Some files) n name kind line }
{}
