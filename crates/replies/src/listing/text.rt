//! The text of a listing, put in parts.
ghost use Rattle.std.specs.Prelude.{◌≡◌, ◌≢◌, ◌++◌, [], map, IfErr, OnErr};
ghost use Rattle.std.specs.IoError.{error_kind};
ghost use Rattle.lines.specs.Texts.{Puts};
ghost use Rattle.registry.specs.Lawful.{IsRegistry};
ghost use Rattle.registry.specs.Registry.{package_at, versions_or_none};
ghost use Rattle.serde_json.specs.Data.{array};
ghost use Rattle.serde_json.specs.View.{items_of};
ghost use Rattle.serde_json.specs.Written.{comma_if, compact_text};
ghost use Rattle.replies.specs.Entries.{entry_json, publication_json};
ghost use Rattle.replies.specs.Joined.{Waits, closing, joined};
ghost use Rattle.replies.specs.Replies.{row_json, version_json};

use super::{Listing, ListingEntry};
use crate::parts::{opening, put_parts};
use lines::Outbox;
use registry::{Pkg, Registry};
use std::io;
use std::io::{ErrorKind, Write};
use versions::Published;

/// Puts the packages of a listing as JSON. It takes no memory, however many they are.
pub fn put_packages<W: Write>(
    outbox: &mut Outbox,
    writer: &mut W,
    listing: &Listing<'_>,
) -> io::Result<()>
    ensures text { Puts (W.contents writer.old) (W.contents writer.new) outbox.old outbox.new result
        (compact_text (array (items_of (map row_json listing.now)))) }
    ensures waits { Waits outbox.old outbox.new result
        (compact_text (array (items_of (map row_json listing.now)))) }
    ensures err { OnErr result (outbox.new ≡ []) }
    ensures retried { IfErr result (λ e. error_kind e ≢ ErrorKind.Interrupted) }
{
    outbox.put(writer, b"[")?;
    put_rows(outbox, writer, listing.registry, listing.entries.as_slice())?;
    outbox.put(writer, b"]")
}

/// Puts rows, with commas between.
fn put_rows<W: Write>(
    outbox: &mut Outbox,
    writer: &mut W,
    registry: &Registry,
    entries: &[ListingEntry<'_>],
) -> io::Result<()>
    requires { IsRegistry registry.now.packages }
    ensures text { Puts (W.contents writer.old) (W.contents writer.new) outbox.old outbox.new result
        (joined (map (entry_json registry.now.packages) entries.now)) }
    ensures waits { Waits outbox.old outbox.new result
        (joined (map (entry_json registry.now.packages) entries.now)) }
    ensures err { OnErr result (outbox.new ≡ []) }
    ensures retried { IfErr result (λ e. error_kind e ≢ ErrorKind.Interrupted) }
{
    for (place, entry) in entries.iter().enumerate() {
        put_row(outbox, writer, registry, entry, place > 0)?;
    }
    Ok(())
}

/// Puts a row, after a comma where it is not the first.
fn put_row<W: Write>(
    outbox: &mut Outbox,
    writer: &mut W,
    registry: &Registry,
    entry: &ListingEntry<'_>,
    later: bool,
) -> io::Result<()>
    requires { IsRegistry registry.now.packages }
    ensures text { Puts (W.contents writer.old) (W.contents writer.new) outbox.old outbox.new result
        (comma_if later ++ compact_text (entry_json registry.now.packages entry.now)) }
    ensures waits { Waits outbox.old outbox.new result
        (comma_if later ++ compact_text (entry_json registry.now.packages entry.now)) }
    ensures err { OnErr result (outbox.new ≡ []) }
    ensures retried { IfErr result (λ e. error_kind e ≢ ErrorKind.Interrupted) }
{
    put_parts(outbox, writer, opening(later), entry.name.text(), "\",[")?;
    put_versions(outbox, writer, registry, entry.number)?;
    outbox.put(writer, b"]]")
}

/// Puts the versions of a package, with commas between.
fn put_versions<W: Write>(
    outbox: &mut Outbox,
    writer: &mut W,
    registry: &Registry,
    number: Pkg,
) -> io::Result<()>
    requires { IsRegistry registry.now.packages }
    ensures text { Puts (W.contents writer.old) (W.contents writer.new) outbox.old outbox.new result
        (joined (map publication_json (versions_or_none (package_at registry.now.packages number)))) }
    ensures waits { Waits outbox.old outbox.new result
        (joined (map publication_json (versions_or_none (package_at registry.now.packages number)))) }
    ensures err { OnErr result (outbox.new ≡ []) }
    ensures retried { IfErr result (λ e. error_kind e ≢ ErrorKind.Interrupted) }
{
    let count = registry.version_count(number);
    for ordinal in 0..count {
        let facts = registry.facts(number, ordinal);
        put_version(outbox, writer, facts.version, facts.yanked, ordinal > 0)?;
    }
    Ok(())
}

/// Puts a version and its yank, after a comma where it is not the first.
fn put_version<W: Write>(
    outbox: &mut Outbox,
    writer: &mut W,
    version: &Published,
    yanked: bool,
    later: bool,
) -> io::Result<()>
    ensures text { Puts (W.contents writer.old) (W.contents writer.new) outbox.old outbox.new result
        (comma_if later ++ compact_text (version_json (version.now, yanked))) }
    ensures waits { Waits outbox.old outbox.new result
        (comma_if later ++ compact_text (version_json (version.now, yanked))) }
    ensures err { OnErr result (outbox.new ≡ []) }
    ensures retried { IfErr result (λ e. error_kind e ≢ ErrorKind.Interrupted) }
{
    put_parts(
        outbox,
        writer,
        opening(later),
        version.text(),
        closing(yanked),
    )
}

/// What ends a version's pair, after its text.
fn closing(yanked: bool) -> &'static str
    ensures { result.now ≡ closing yanked }
{
    if yanked { "\",true]" } else { "\",false]" }
}
