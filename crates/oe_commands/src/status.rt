//! The status of a run.

ghost use Rattle.std.specs.Prelude.{◌≡◌};
ghost use Rattle.oe_commands.specs.Statuses.{number_of, refused_by, served_status, status_of, table_name};

use desk_service::ServiceEnd;
use filing_desk::OpenRefusal;
use grid_exact::Text;
use oe_http::Ended;
use oe_keeper::Table;
use std::fmt;

/// How a run ended.
#[derive(Debug, Drop)]
pub enum Status {
    /// The input was read to its end, and every reply was written, that to a last way too; or every worker ended; or the generator's line was
    /// written.
    Done,
    /// The words are no command.
    Usage,
    /// The input failed.
    ReadFault,
    /// The output failed.
    WriteFault,
    /// The keeper failed, and no desk was opened.
    KeeperFault,
    /// The first row of the stored tables, in order of table and key, that is bad or missing.
    BadRow { table: Table, key: Text },
    /// Memory ran out.
    NoMemory,
    /// 2^40 bytes of the input were read.
    InputLong,
    /// The gate or a port failed.
    GateFault,
}

impl Status {
    /// The exit code of the program.
    pub fn number(&self) -> u8
        ensures { result ≡ number_of self.now }
    {
        match self {
            Status::Done => 0,
            Status::Usage => 2,
            Status::ReadFault => 3,
            Status::WriteFault => 4,
            Status::KeeperFault => 5,
            Status::BadRow { .. } => 6,
            Status::NoMemory => 7,
            Status::InputLong => 8,
            Status::GateFault => 9,
        }
    }
}

/// The name of a table.
fn name(table: Table) -> &'static str
    ensures { result.now ≡ table_name table }
{
    match table {
        Table::Airfield => "airfield",
        Table::Runway => "runway",
        Table::Desk => "desk",
        Table::Filing => "filing",
        Table::Receipt => "receipt",
    }
}

/// The line on standard error; empty for `Done`.
impl fmt::Display for Status {
    ghost use Rattle.std.specs.Prelude.{Some};
    ghost use Rattle.oe_commands.specs.Statuses.{line_of};

    ghost output = { λ s. Some (line_of s) };

    fn fmt<W: fmt::Write>(&self, f: &mut fmt::Formatter<W>) -> fmt::Result {
        match self {
            Status::Done => Ok(()),
            Status::Usage => f.write_str("oe: usage"),
            Status::ReadFault => f.write_str("oe: read fault"),
            Status::WriteFault => f.write_str("oe: write fault"),
            Status::KeeperFault => f.write_str("oe: keeper fault"),
            Status::BadRow { table, key } => {
                let table = name(*table);
                let key = key.as_str();
                write!(f, "oe: bad row {table} {key}")
            }
            Status::NoMemory => f.write_str("oe: no memory"),
            Status::InputLong => f.write_str("oe: input too long"),
            Status::GateFault => f.write_str("oe: gate fault"),
        }
    }
}

/// The status of a run whose desk could not be opened.
pub(crate) fn refused_status(refusal: OpenRefusal) -> Status
    ensures { result ≡ refused_by refusal }
{
    match refusal {
        OpenRefusal::KeeperFault => Status::KeeperFault,
        OpenRefusal::BadRow { table, key } => Status::BadRow { table, key },
        OpenRefusal::NoMemory => Status::NoMemory,
    }
}

/// The status of a run by how its session ended.
pub(crate) fn ended_status(ended: Ended) -> Status
    ensures { result ≡ status_of ended }
{
    match ended {
        Ended::Closed => Status::Done,
        // not in a session over lines
        Ended::Truncated => Status::Done,
        Ended::Refused(_) => Status::Done,
        Ended::ReadFault => Status::ReadFault,
        Ended::WriteFault => Status::WriteFault,
        Ended::Long => Status::InputLong,
        Ended::NoMemory => Status::NoMemory,
    }
}

/// The status of a run by how its service of links ended.
pub(crate) fn service_status(end: ServiceEnd) -> Status
    ensures { result ≡ served_status end }
{
    match end {
        ServiceEnd::Done => Status::Done,
        ServiceEnd::GateFault => Status::GateFault,
        ServiceEnd::WriteFault => Status::WriteFault,
        ServiceEnd::NoMemory => Status::NoMemory,
    }
}
