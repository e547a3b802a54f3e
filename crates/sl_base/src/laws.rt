//! What holds of the definitions.

ghost use Rattle.std.specs.Prelude.{◌≡◌, ℤ, pos, ◌+ℤ◌, ◌≤ℤ◌};
ghost use Rattle.sl_base.specs.Arithmetic.{IsSample, clamped, scaled, widened, narrowed};

/// A number that is clamped becomes a sample, and one that is a sample stays.
pub fn clamped_is_a_sample()
    ensures within { (number : ℤ) → IsSample (clamped number) }
    ensures unchanged { (number : ℤ) → IsSample number → clamped number ≡ number }
{}

/// No sample is nearer: the clamped number lies between the number and each sample.
pub fn clamped_is_nearest()
    ensures below { (number sample : ℤ) → IsSample sample → sample ≤ℤ number →
        (sample ≤ℤ clamped number) × (clamped number ≤ℤ number) }
    ensures above { (number sample : ℤ) → IsSample sample → number ≤ℤ sample →
        (number ≤ℤ clamped number) × (clamped number ≤ℤ sample) }
{}

/// A thousand thousandths are the whole.
pub fn full_level_changes_nothing()
    ensures { (number : ℤ) → scaled number 1000 ≡ number }
{}

/// A 16-bit sample comes back from 24 bits.
pub fn widened_comes_back()
    ensures { (sample : ℤ) → narrowed (widened sample) ≡ sample }
{}

/// Going to 16 bits rounds down, by less than one step of 256.
pub fn narrowed_rounds_down()
    ensures below { (sample : ℤ) → widened (narrowed sample) ≤ℤ sample }
    ensures step { (sample : ℤ) → sample ≤ℤ (widened (narrowed sample) +ℤ pos 255) }
{}
