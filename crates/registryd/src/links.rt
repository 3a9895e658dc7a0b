//! Where the name of a file leads.

use crate::folder::folder_of;
use std::alloc::Global;
use std::fs::Metadata;
use std::io::ErrorKind;
use std::os::unix::fs::MetadataExt;
use std::path::Path;
use std::rt::Files;
use std::{fs, io};

/// How many links lead from one to another at most, as Linux has it.
const MOST_SYMBOLIC_LINKS: usize = 40;

/// Whether what was found twice is one file, whatever it was found by.
pub fn is_same_file(one: &Metadata, other: &Metadata) -> bool {
    one.ino() == other.ino() && one.dev() == other.dev()
}

/// The name of what a name stands for at last, where links lead from one to another.
pub fn without_links<H: Files>(rt: &H, alloc: Global, name: &str) -> io::Result<String> {
    let mut path = String::from_str(alloc, name)?;
    for _ in 0..MOST_SYMBOLIC_LINKS {
        match fs::symlink_metadata(rt, path.as_str()) {
            Ok(found) if found.is_symlink() => path = led_from(rt, alloc, path.as_str())?,
            _ => return Ok(path),
        }
    }
    Err(io::Error::from(ErrorKind::FilesystemLoop))
}

/// Where a link leads.
fn led_from<H: Files>(rt: &H, alloc: Global, link: &str) -> io::Result<String> {
    let to = rt.read_link(alloc, link)?;
    let path = Path::new(folder_of(link)).join(alloc, to.as_str())?;
    Ok(String::from_str(alloc, path.as_str())?)
}
