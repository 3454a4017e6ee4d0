//! The pages of a zone. A zone has a landmark for each of its pages.

ghost use Rattle.std.specs.Prelude.{◌≤◌, ◌<◌};

use crate::landmark::GROUP;
use raw_region::Part;
use zone_bytes::SoundPart;

/// The greatest number of landmarks of a zone, one for each of its pages. Each change walks over
/// the blocks of a page.
pub const LANDMARKS: usize = 8192;

/// The greatest number of groups of landmarks of a zone. The search for room goes over all of them.
const GROUPS: usize = LANDMARKS / GROUP;

/// The least size of a page in bytes.
pub const LEAST_PAGE: u32 = 1024;

/// Returns the size of a page in bytes. A zone has no more pages than landmarks.
pub fn page_bytes(sound: &SoundPart) -> u32
    ensures { 0 < result }
{
    LEAST_PAGE.max((sound.part.len() as u32) / LANDMARKS as u32 + 1)
}

/// Returns the number of groups in which the landmarks of a zone are.
pub fn groups_of(part: &Part) -> usize
    ensures { (0 < result) × (result ≤ GROUPS) }
{
    GROUPS.min(part.len() / (LEAST_PAGE as usize * GROUP) + 1)
}

/// Returns the number of landmarks for which a zone has room.
pub fn landmarks_of(part: &Part) -> usize {
    groups_of(part) * GROUP
}

/// Returns the place at which the page of an index ends; `u32::MAX` for a page that no zone has.
pub fn page_end(index: usize, page: u32) -> u32 {
    match u32::try_from(index) {
        Ok(index) => index.saturating_add(1).saturating_mul(page),
        Err(_) => u32::MAX,
    }
}
