//! One release.

use versions::Published;

/// A version as it was published, and whether it is yanked.
#[derive(Drop)]
pub struct Release {
    pub version: Published,
    pub yanked: bool,
}
