//! The ways in which the program ends, each with its exit status.
ghost use Rattle.std.specs.Prelude.{◌≡◌, ◌≢◌, ℕ, IsOk};
ghost use Rattle.std.specs.IoError.{error_kind};
ghost use Rattle.registryd.specs.Ending.{IsSaved, IsUnmade, IsUnread, end_of_load, end_of_run, status_of};
ghost use Rattle.registryd.specs.declared.fault.FileFault.{FileFault};

use crate::fault::FileFault;
use answers::RunFault;
use journals::LoadFault;
use std::io;
use std::io::ErrorKind;

/// How the program ends.
#[derive(Drop)]
pub enum End {
    /// Everything was read and written.
    Done,
    /// A read failed.
    Input,
    /// A write failed.
    Output,
    /// A journal was refused at the line of this number, counted from 1.
    Journal(usize),
    /// Something is the matter with the file that the session's journal is kept in.
    Kept(FileFault),
    /// No memory was there before the first line.
    Memory,
    /// The words of the command line don't parse.
    Words,
}

impl From<RunFault> for End {
    ghost from_gives = { λ fault end. end ≡ end_of_run fault };

    fn from(fault: RunFault) -> End {
        match fault {
            RunFault::Input => End::Input,
            RunFault::Output => End::Output,
            RunFault::Memory => End::Memory,
        }
    }
}

impl From<LoadFault> for End {
    ghost from_gives = { λ fault end. end ≡ end_of_load fault };

    fn from(fault: LoadFault) -> End {
        match fault {
            LoadFault::Line(line) => End::Journal(line),
            LoadFault::Memory => End::Memory,
            LoadFault::Input => End::Input,
        }
    }
}

/// How the program ends where a file can't be read: lack of memory is told apart.
pub fn end_of_read(e: &io::Error) -> End
    ensures memory { error_kind e.now ≡ ErrorKind.OutOfMemory → result ≡ End.Memory }
    ensures input { error_kind e.now ≢ ErrorKind.OutOfMemory → result ≡ End.Input }
    ensures unread { IsUnread result }
{
    match e.kind() {
        ErrorKind::OutOfMemory => End::Memory,
        _ => End::Input,
    }
}

/// How the program ends where the file that a session is to leave can't be made: lack of memory is told apart.
pub fn end_of_making(e: &io::Error) -> End
    ensures memory { error_kind e.now ≡ ErrorKind.OutOfMemory → result ≡ End.Memory }
    ensures output { error_kind e.now ≢ ErrorKind.OutOfMemory → result ≡ End.Output }
    ensures unmade { IsUnmade result }
{
    match end_of_read(e) {
        End::Memory => End::Memory,
        _ => End::Output,
    }
}

/// How the program ends where a journal was written, or could not be.
pub fn end_of_saving(saved: io::Result<()>) -> End
    ensures done { result ≡ End.Done → IsOk saved }
    ensures saved { IsOk saved → result ≡ End.Done }
    ensures kind { IsSaved result }
    ensures input { result ≢ End.Input }
    ensures memory { result ≢ End.Memory }
    ensures words { result ≢ End.Words }
    ensures journal { (line : ℕ) → result ≢ End.Journal line }
    ensures kept { (fault : FileFault) → result ≢ End.Kept fault }
{
    match saved {
        Ok(()) => End::Done,
        Err(_) => End::Output,
    }
}

impl End {
    /// The exit status.
    pub fn status(&self) -> u8
        ensures { result ≡ status_of self.now }
    {
        match self {
            End::Done => 0,
            End::Input | End::Output | End::Journal(_) | End::Kept(_) | End::Memory => 1,
            End::Words => 2,
        }
    }
}
