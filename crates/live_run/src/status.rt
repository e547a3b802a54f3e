//! Which status a session ends with, where its journal or the console has one too.

ghost use Rattle.std.specs.Prelude.{◌≡◌};
ghost use Rattle.live_run.specs.Statuses.{rank, first_of, live_line};

use live_core::LiveStatus;

/// Where a status stands in the order of the rules.
fn rank(status: LiveStatus) -> u8
    ensures { result ≡ rank status }
{
    match status {
        LiveStatus::Memory => 0,
        LiveStatus::ReadFault => 1,
        LiveStatus::WriteFault => 2,
        LiveStatus::Torn => 3,
        LiveStatus::LongInput => 4,
        LiveStatus::LinkFault => 5,
        LiveStatus::Done => 6,
    }
}

/// The first of two statuses in the order of the rules.
pub fn first_of(one: LiveStatus, other: LiveStatus) -> LiveStatus
    ensures { result ≡ first_of one other }
{
    if rank(one) <= rank(other) { one } else { other }
}

/// The last line of what the console is told.
pub fn line_of(status: LiveStatus) -> &'static str
    ensures { result.now ≡ live_line status }
{
    match status {
        LiveStatus::Done => "status 0\n",
        LiveStatus::ReadFault => "status 4\n",
        LiveStatus::WriteFault => "status 5\n",
        LiveStatus::Torn => "status 6\n",
        LiveStatus::LinkFault => "status 7\n",
        LiveStatus::Memory => "status 8\n",
        LiveStatus::LongInput => "status 10\n",
    }
}
