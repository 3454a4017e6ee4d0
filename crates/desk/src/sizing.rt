//! The sizes of the partition that a launch asks for.

ghost use Rattle.std.specs.Prelude.{◌≡◌, ◌≤◌, ◌%◌, length, option_map};
ghost use Rattle.desk.specs.Sizes as sizes;
ghost use Rattle.desk.specs.Ready.{sizes_seen};

use crate::sizes::PartitionSizes;
use byteorder::{BigEndian, ByteOrder};
use mac_words::OsType;
use res_calls::Resources;

/// The type of the resource that holds the sizes.
const SIZE: OsType = OsType(*b"SIZE");
/// The ID of the resource that holds the sizes.
const SIZE_ID: i16 = -1;
/// The place of the preferred size in the resource.
const PREFERRED_AT: usize = 2;
/// The place of the minimum size in the resource.
const MINIMUM_AT: usize = 6;
/// The least number of bytes of a resource that holds the sizes.
const LEAST_BYTES: usize = 10;
/// The size of a partition if no resource holds one: 512 kilobytes.
const USUAL_SIZE: u32 = 524288;
/// The least size of a partition.
const LEAST_SIZE: u32 = 512;

/// Rounds a size to that of a partition: down to a multiple of 16, but to at least 512.
fn rounded(size: u32) -> u32
    ensures value { result ≡ sizes.rounded size }
    ensures whole { result % 16 ≡ 0 }
    ensures least { 512 ≤ result }
{
    if size < LEAST_SIZE {
        LEAST_SIZE
    } else {
        size - size % 16
    }
}

/// Reads the sizes in the stored data of a 'SIZE' resource.
fn read_sizes(datum: &[u8]) -> PartitionSizes
    requires { 10 ≤ length datum.now }
    ensures { sizes_seen result ≡ sizes.sizes_read datum.now }
{
    let preferred = rounded(BigEndian::read_u32(&datum[PREFERRED_AT..]));
    let least = rounded(BigEndian::read_u32(&datum[MINIMUM_AT..]));
    let minimum = preferred.min(least);
    PartitionSizes { preferred, minimum }
}

/// Reads the sizes in the stored data of a 'SIZE' resource; returns the usual sizes if there is
/// none, or it is too short.
fn sizes_in(datum: Option<&[u8]>) -> PartitionSizes
    ensures { sizes_seen result ≡ sizes.sizes_in (option_map (λ b. b.now) datum.entry) }
{
    match datum {
        Some(datum) if datum.len() >= LEAST_BYTES => read_sizes(datum),
        _ => PartitionSizes {
            preferred: USUAL_SIZE,
            minimum: USUAL_SIZE,
        },
    }
}

impl PartitionSizes {
    /// Returns the sizes that an application asks for: those of its 'SIZE' -1.
    fn of(resources: &Resources) -> PartitionSizes
        ensures { sizes_seen result ≡ sizes.sizes_of resources.now }
    {
        sizes_in(resources.own_datum(SIZE, SIZE_ID))
    }

    /// Returns the sizes of a partition for which just one size is given.
    fn just(size: u32) -> PartitionSizes
        ensures { sizes_seen result ≡ sizes.just size }
    {
        let size = rounded(size);
        PartitionSizes {
            preferred: size,
            minimum: size,
        }
    }

    /// Returns the sizes that a launch asks for: just the size that is given for the application,
    /// or else those of its 'SIZE' -1.
    pub(crate) fn asked(size: Option<u32>, resources: &Resources) -> PartitionSizes
        ensures { sizes_seen result ≡ sizes.sizes_asked size resources.now }
    {
        match size {
            Some(size) => PartitionSizes::just(size),
            None => PartitionSizes::of(resources),
        }
    }
}
