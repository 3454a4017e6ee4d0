//! A store of blocks in the bytes of a part.
#![tactic(auto)]

mod region_zones;
mod zone;

pub use region_zones::RegionZones;
pub use zone::RawZone;
