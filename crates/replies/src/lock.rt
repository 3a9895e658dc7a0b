//! Lock lists, by which a build stays at the versions that it has.
ghost use Rattle.std.specs.Prelude.{◌≡◌, ◌≢◌, IfErr, IsPermutation, IsSorted};
ghost use Rattle.std.specs.IoError.{error_kind};
ghost use Rattle.lines.specs.Texts.{Puts, Writes};
ghost use Rattle.replies.specs.Locks.{by_name, lock_text};

use crate::selection::put_selected;
use lines::Outbox;
use std::alloc::Global;
use std::cmp::Ordering;
use std::io;
use std::io::{ErrorKind, Write};
use versions::{Name, Published};

/// Writes a lock list with these packages and versions, in the byte order of the names, into which it puts them.
///
/// It takes room for 65,536 bytes once, and no more memory, however many they are. The cost grows with n log n.
pub fn write_lock<W: Write>(
    alloc: Global,
    lines: &mut [(Name, Published)],
    writer: &mut W,
) -> io::Result<()>
    ensures moved { IsPermutation lines.old lines.new }
    ensures sorted { IsSorted by_name lines.new }
    // The whole text, or after an `Err` a beginning of it.
    ensures written { Writes (W.contents writer.old) (W.contents writer.new) result (lock_text lines.new) }
    ensures retried { IfErr result (λ e. error_kind e ≢ ErrorKind.Interrupted) }
{
    sort_by_name(lines);
    let mut outbox = Outbox::new(alloc)?;
    put_lock(&mut outbox, writer, lines)?;
    outbox.send(writer)
}

/// How two lines compare by their names.
fn compare_names(a: &(Name, Published), b: &(Name, Published)) -> Ordering
    ensures { result ≡ by_name a.now b.now }
{
    a.0.text().cmp(b.0.text())
}

/// Puts lines into the byte order of their names. It takes no memory.
fn sort_by_name(lines: &mut [(Name, Published)])
    ensures moved { IsPermutation lines.old lines.new }
    ensures sorted { IsSorted by_name lines.new }
{
    lines.sort_unstable_by(|a, b| compare_names(a, b));
}

fn put_lock<W: Write>(
    outbox: &mut Outbox,
    writer: &mut W,
    lines: &[(Name, Published)],
) -> io::Result<()>
    ensures text { Puts (W.contents writer.old) (W.contents writer.new) outbox.old outbox.new result (lock_text lines.now) }
    ensures retried { IfErr result (λ e. error_kind e ≢ ErrorKind.Interrupted) }
{
    outbox.put(writer, b"[")?;
    put_selected(outbox, writer, lines)?;
    outbox.put(writer, b"]\n")
}
