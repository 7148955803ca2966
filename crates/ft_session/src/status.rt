ghost use Rattle.std.specs.Prelude.{◌≡◌};
ghost use Rattle.ft_session.specs.Status.{exit_number, error_line};

/// How a run ended.
#[derive(Clone, Copy, PartialEq, Eq)]
pub enum Status {
    /// The session was read to its end, all replies were written, and none is a refusal.
    Done,
    /// The same, but some reply is a refusal.
    SomeRefused,
    /// The words of the call name no session's file. Nothing was read or written.
    Usage,
    /// The session's file could not be read.
    ReadFault,
    /// A reply could not be written.
    WriteFault,
    /// There was not enough memory.
    Memory,
    /// The session has more than `MAX_SESSION_BYTES` bytes.
    TooLong,
}

/// The exit number of a status, from 0 to 6.
pub fn exit_of(status: &Status) -> u8
    ensures { result ≡ exit_number status.now }
{
    match status {
        Status::Done => 0,
        Status::SomeRefused => 1,
        Status::Usage => 2,
        Status::ReadFault => 3,
        Status::WriteFault => 4,
        Status::Memory => 5,
        Status::TooLong => 6,
    }
}

/// The line that is said of a status on standard error, without a line end; nothing for the first two.
pub fn line_of(status: &Status) -> &str
    ensures { result.now ≡ error_line status.now }
{
    match status {
        Status::Done | Status::SomeRefused => "",
        Status::Usage => "usage: ftq SESSION | ftq --make N",
        Status::ReadFault => "ftq: read fault",
        Status::WriteFault => "ftq: write fault",
        Status::Memory => "ftq: out of memory",
        Status::TooLong => "ftq: session too long",
    }
}
