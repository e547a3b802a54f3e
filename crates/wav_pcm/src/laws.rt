//! What holds of the definitions.

ghost use Rattle.std.specs.Prelude.{◌≡◌, ℕ, ◌+◌, ◌++◌, ◌≤◌, List, length, map, Err};
ghost use Rattle.std.specs.List.{AllByRecursion};
ghost use Rattle.sl_base.specs.Limits.{max_file_frames, max_rate};
ghost use Rattle.sl_base.specs.Sounds.{Sound, IsFrame};
ghost use Rattle.wav_pcm.specs.Kept.{kept};
ghost use Rattle.wav_pcm.specs.declared.fault.WavFault.TheVariants.{Unsupported};
ghost use Rattle.wav_pcm.specs.Samples.{frames_in};
ghost use Rattle.wav_pcm.specs.WavText.{IsFormat, samples_size, samples, text_size, wav_text};
ghost use Rattle.wav_pcm.specs.Reading.{Spelling, form_of};
ghost use Rattle.wav_pcm.specs.Files.{IsWav};

/// A text has 44 bytes, the bytes of its frames, and a pad where these are odd.
pub fn size_of_text()
    ensures { (frames : List Sound) (channels bits rate : ℕ) → IsFormat channels bits →
        length (wav_text frames channels bits rate) ≡ text_size (length frames) channels bits }
{}

/// What is written is read again, as far as its form keeps it.
pub fn wav_comes_back()
    ensures { (frames : List Sound) (channels bits rate : ℕ) → IsFormat channels bits →
        AllByRecursion IsFrame frames
        → length frames ≤ max_file_frames → 1 ≤ rate → rate ≤ max_rate
        → IsWav (wav_text frames channels bits rate)
        (record { rate = rate; channels = channels; bits = bits })
        (map (kept channels bits) frames) }
{}

/// What is written at rate 0 isn't supported.
pub fn rate_0_is_not_supported()
    ensures { (frames : List Sound) (channels bits : ℕ) → IsFormat channels bits
        → form_of (wav_text frames channels bits 0) ≡ Err Unsupported }
{}

/// A file has one spelling and one list of frames.
pub fn wav_has_one_reading()
    ensures { (bytes : List ℕ) (spelling other : Spelling) (frames others : List Sound) →
        IsWav bytes spelling frames
        → IsWav bytes other others → (spelling ≡ other) × (frames ≡ others) }
{}

/// Frames are read from samples in two cuts as in one: those of the first, and then those of the
/// second.
pub fn frames_are_read_cut_by_cut()
    ensures { (channels bits count more : ℕ) (front rest : List ℕ) → IsFormat channels bits →
        length front ≡ samples_size count channels bits
        → frames_in channels bits (count + more) (front ++ rest) ≡ frames_in channels bits count
        front ++ frames_in channels bits more rest }
{}

/// The samples of a list of frames and of one behind it stand behind one another.
pub fn samples_stand_behind_one_another()
    ensures { (channels bits : ℕ) (frames more : List Sound) →
        samples channels bits (frames ++ more) ≡ samples channels bits frames
        ++ samples channels bits more }
{}
