//! What is set and read, of a loop and of the looper.

ghost use Rattle.std.specs.Prelude.{◌≡◌, ◌≢◌, ◌≤◌, IfSome, IfNone};
ghost use Rattle.std.specs.List.{find};
ghost use Rattle.sl_commands.specs.declared.control.Control.{Control};
ghost use Rattle.sl_commands.specs.Controls.{control_row, control_name, has_control_name, controls, is_of_loop, can_be_set, is_within, is_in_range, first_of, default_of};

use sl_base::MAX_LIST_FRAMES;

/// What is set or read: of a loop from `Feedback` to `FreeTime`, of the looper from `Dry` on.
#[derive(Clone, Copy, PartialEq, Eq)]
pub enum Control {
    Feedback,
    Wet,
    Round,
    Quantize,
    RecThresh,
    State,
    LoopLen,
    LoopPos,
    CycleLen,
    Waiting,
    Layers,
    RedoLayers,
    Refused,
    Reversed,
    FreeTime,
    Dry,
    SyncSource,
    SelectedLoopNum,
    FadeStep,
    LongPress,
    Pulse,
}

/// What a control may be set to.
#[derive(Clone, Copy, PartialEq, Eq)]
pub enum Range {
    /// It is read alone.
    ReadOnly,
    /// The least value, the greatest, and the one that it begins with.
    Between(u32, u32, u32),
    /// -3 for the pulse, or 0 to the number of loops; at first 0.
    Source,
    /// 0 to the number of loops less 1; at first 0.
    LoopIndex,
}

/// All controls, in the order of the table.
const CONTROLS: [Control; 21] = [
    Control::Feedback,
    Control::Wet,
    Control::Round,
    Control::Quantize,
    Control::RecThresh,
    Control::State,
    Control::LoopLen,
    Control::LoopPos,
    Control::CycleLen,
    Control::Waiting,
    Control::Layers,
    Control::RedoLayers,
    Control::Refused,
    Control::Reversed,
    Control::FreeTime,
    Control::Dry,
    Control::SyncSource,
    Control::SelectedLoopNum,
    Control::FadeStep,
    Control::LongPress,
    Control::Pulse,
];

impl Control {
    /// The name in messages and texts.
    pub fn name(self) -> &'static str
        ensures { result.now ≡ control_name self }
    {
        match self {
            Control::Feedback => "feedback",
            Control::Wet => "wet",
            Control::Round => "round",
            Control::Quantize => "quantize",
            Control::RecThresh => "rec_thresh",
            Control::State => "state",
            Control::LoopLen => "loop_len",
            Control::LoopPos => "loop_pos",
            Control::CycleLen => "cycle_len",
            Control::Waiting => "waiting",
            Control::Layers => "layers",
            Control::RedoLayers => "redo_layers",
            Control::Refused => "refused",
            Control::Reversed => "reversed",
            Control::FreeTime => "free_time",
            Control::Dry => "dry",
            Control::SyncSource => "sync_source",
            Control::SelectedLoopNum => "selected_loop_num",
            Control::FadeStep => "fade_step",
            Control::LongPress => "long_press",
            Control::Pulse => "pulse",
        }
    }

    /// The control is one of each loop, and not of the looper.
    pub fn is_of_loop(self) -> bool
        ensures { result ≡ is_of_loop self }
    {
        !matches!(
            self,
            Control::Dry
                | Control::SyncSource
                | Control::SelectedLoopNum
                | Control::FadeStep
                | Control::LongPress
                | Control::Pulse
        )
    }

    /// What it may be set to.
    pub fn range(self) -> Range
        ensures { result ≡ (control_row self).range }
    {
        match self {
            Control::Feedback => Range::Between(0, 1000, 1000),
            Control::Wet => Range::Between(0, 1000, 1000),
            Control::Round => Range::Between(0, 1, 0),
            Control::Quantize => Range::Between(0, 3, 0),
            Control::RecThresh => Range::Between(0, 8388607, 0),
            Control::Dry => Range::Between(0, 1000, 0),
            Control::SyncSource => Range::Source,
            Control::SelectedLoopNum => Range::LoopIndex,
            Control::FadeStep => Range::Between(1, 1000, 20),
            Control::LongPress => Range::Between(0, MAX_LIST_FRAMES, 24000),
            Control::Pulse => Range::Between(1, MAX_LIST_FRAMES, 24000),
            _ => Range::ReadOnly,
        }
    }

    /// It can be set at all.
    pub fn can_be_set(self) -> bool
        ensures { result ≡ can_be_set self }
    {
        !matches!(self.range(), Range::ReadOnly)
    }

    /// The value that it begins with, 0 for one that is read alone.
    pub fn default_value(self) -> u32
        ensures { result ≡ default_of self }
    {
        match self.range() {
            Range::Between(_, _, first) => first,
            _ => 0,
        }
    }
}

/// The control can be set to this value, where there are so many loops.
pub fn in_range(control: Control, value: i32, loops: u8) -> bool
    ensures { result ≡ is_in_range control value loops }
{
    is_in_range(control, value as i64, loops)
}

/// The same for any number.
pub(crate) fn is_in_range(control: Control, value: i64, loops: u8) -> bool
    ensures { result ≡ is_in_range control value loops }
{
    match control.range() {
        Range::ReadOnly => false,
        Range::Between(least, greatest, _) => least as i64 <= value && value <= greatest as i64,
        Range::Source => value == -3 || 0 <= value && value <= loops as i64,
        Range::LoopIndex => 0 <= value && value < loops as i64,
    }
}

fn is_named(control: Control, bytes: &[u8]) -> bool
    ensures { result ≡ has_control_name bytes.now control }
{
    control.name().as_bytes() == bytes
}

fn first_named(bytes: &[u8]) -> Option<Control>
    ensures { result ≡ find (has_control_name bytes.now) controls }
{
    CONTROLS
        .iter()
        .copied()
        .find(|control| is_named(*control, bytes))
}

/// The control that has these bytes as its name.
pub fn control_of(bytes: &[u8]) -> Option<Control>
    ensures found { IfSome result (λ control. bytes.now ≡ control_name control) }
    ensures only { IfNone result ((control : Control) → bytes.now ≢ control_name control) }
{
    first_named(bytes)
}
