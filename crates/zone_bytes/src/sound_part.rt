//! A part in which a zone is laid out lawfully.

ghost use Rattle.zone_bytes.specs.Lawful.{IsSound};
ghost use Rattle.zone_bytes.specs.OneLayout.{sound-prop};

use raw_region::Part;

/// A part whose bytes are those of a zone, laid out lawfully: the first of the zone's unused slots
/// is at the place `first` (0 if there is none), and `unused` slots are unused.
///
/// *Inside Macintosh: Memory*, chapter 2, "Organization of Memory".
pub struct SoundPart {
    pub part: Part,
    pub first: u32,
    pub unused: u32,
    pub ghost sound: { IsSound part.bytes first unused } by { sound-prop part.bytes first unused },
}
