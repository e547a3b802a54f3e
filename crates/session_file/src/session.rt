//! Reading a session.

ghost use Rattle.std.specs.Prelude.{◌≡◌, IfOk, IfErr, length};
ghost use Rattle.sl_commands.specs.Settings.{LooperSettings};
ghost use Rattle.session_file.specs.Sessions.{IsSession, IsReason};
ghost use Rattle.session_file.specs.Readings.{IsFirst, DeniesAll};

use crate::line::Setting;
use crate::reading::Reading;
use sl_commands::{ReadText, Settings, TextFault};

/// The settings that the bytes spell, or their first fault.
fn settings_of(bytes: &[u8]) -> Result<Settings, TextFault>
    ensures found { IfOk result (λ s. IsSession bytes.now s) }
    ensures fault { IfErr result (IsFirst bytes.now) }
{
    let mut reading = Reading::new(bytes)?;
    let rate = reading.number(Setting::Rate, 0)?;
    let loops = reading.number(Setting::Loops, 0)? as u8;
    let globals = reading.globals(rate, loops)?;
    let strips = reading.strips(loops)?;
    reading.end()?;
    Ok(Settings {
        rate,
        loops,
        globals,
        strips,
    })
}

/// Reads a session: its settings, or its first fault. It takes no memory, and never answers
/// `Memory`.
pub fn read_session(bytes: &[u8]) -> Result<Settings, ReadText>
    ensures found { IfOk result (λ s. IsSession bytes.now s) }
    ensures one { IfOk result (λ s. (other : LooperSettings) → IsSession bytes.now other →
        other ≡ s) }
    ensures fault { IfErr result (IsReason bytes.now) }
    ensures only { IfErr result (DeniesAll (λ s. IsSession bytes.now s)) }
{
    match settings_of(bytes) {
        Ok(settings) => Ok(settings),
        Err(fault) => Err(ReadText::Fault(fault)),
    }
}
