//! With what an engine begins.

ghost use Rattle.std.specs.Prelude.{◌≡◌, length, IsTrue};
ghost use Rattle.sl_commands.specs.Settings.{are_settings};

use sl_commands::Settings;

/// The settings of a looper, its chunks of 4096 frames (1 to 32768, over all loops), and how many
/// entries each of the senders 0 and 1 may have (1 to 1048576).
#[derive(Drop)]
pub struct Setup {
    pub settings: Settings,
    pub chunks: u32,
    pub quota: u32,
}

impl Setup {
    /// What always holds of a setup.
    pub fn facts(&self)
        ensures { IsTrue (are_settings self.now.settings) }
    {
        self.settings.loop_count();
    }

    /// How many loops there are, 1 to 16.
    pub fn loops(&self) -> u8
        ensures value { result ≡ length self.now.settings.strips }
        ensures within { IsTrue (are_settings self.now.settings) }
    {
        self.settings.loop_count()
    }
}
