//! Why the files of a run aren't read.

ghost use Rattle.console_lines.specs.Faults.{PassesFiles};

use crate::status::RunFault;
use run_files::FilesFault;

/// Why files aren't those of a run, as the fault of the run.
pub fn fault_of(fault: FilesFault) -> RunFault
    ensures { PassesFiles fault result }
{
    match fault {
        FilesFault::File(name, kind, line) => RunFault::BadFile(name, kind, line),
        FilesFault::Read => RunFault::Reading,
        FilesFault::Memory => RunFault::Memory,
        FilesFault::Limit => RunFault::Limit,
    }
}
