//! Heap zones as a real Macintosh lays them, read from the bytes of a memory dump and checked block
//! by block.
#![tactic(auto)]

mod block;
mod blocks;
mod checking;
mod fault;
mod finding;
mod form;
mod header;
mod judging;
mod masters;
mod numbers;
mod reading;
mod resource_map;
mod resources;
mod rules;
mod walk;
mod zone;
mod zone_record;

pub use block::{Block, Kind, Master};
pub use checking::check_zone;
pub use fault::{Damage, Rule, ZoneFault};
pub use finding::{FoundZone, ZoneGlobal, find_zones, form_of, global_of, zone_size};
pub use form::Form;
pub use judging::judged_form;
pub use reading::{laid_zone, read_zone};
pub use resource_map::Resource;
pub use resources::resources_of;
pub use walk::Blocks;
pub use zone::{LaidZone, RealZone};
pub use zone_record::ZoneRecord;
