//! How a run ends, and why it isn't done.

ghost use Rattle.std.specs.Prelude.{◌≡◌};
ghost use Rattle.console_lines.specs.Statuses.{status_number, status_line, status_of};

use sl_base::Name;

/// How a run ends.
#[derive(Clone, Copy, Debug, PartialEq, Eq)]
pub enum Status {
    /// All was done.
    Done,
    /// The words aren't in the grammar.
    Words,
    /// A named file is missing or not in its form.
    BadFile,
    /// A file could not be read.
    ReadFault,
    /// A file or the console could not be written.
    WriteFault,
    /// Out of memory.
    Memory,
    /// The input is too long, or there are too few chunks.
    Limit,
}

/// Why a run isn't done.
#[derive(Drop)]
pub enum RunFault {
    /// The file of this name is missing or not in its form: the number of what is wrong, and the
    /// line that it is on, or 0.
    BadFile(Name, u8, u32),
    /// A limit is exceeded.
    Limit,
    /// A file could not be read.
    Reading,
    /// A file could not be written.
    Writing,
    /// Out of memory.
    Memory,
}

impl Status {
    /// The exit status.
    pub fn number(self) -> u8
        ensures { result ≡ status_number self }
    {
        match self {
            Status::Done => 0,
            Status::Words => 2,
            Status::BadFile => 3,
            Status::ReadFault => 4,
            Status::WriteFault => 5,
            Status::Memory => 8,
            Status::Limit => 9,
        }
    }

    /// The last line of what the console is told.
    pub fn line(self) -> &'static str
        ensures { result.now ≡ status_line self }
    {
        match self {
            Status::Done => "status 0\n",
            Status::Words => "status 2\n",
            Status::BadFile => "status 3\n",
            Status::ReadFault => "status 4\n",
            Status::WriteFault => "status 5\n",
            Status::Memory => "status 8\n",
            Status::Limit => "status 9\n",
        }
    }
}

impl RunFault {
    /// The status of a run that isn't done for this.
    pub fn status(&self) -> Status
        ensures { result ≡ status_of self.now }
    {
        match self {
            RunFault::BadFile(_, _, _) => Status::BadFile,
            RunFault::Limit => Status::Limit,
            RunFault::Reading => Status::ReadFault,
            RunFault::Writing => Status::WriteFault,
            RunFault::Memory => Status::Memory,
        }
    }
}
