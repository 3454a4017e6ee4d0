//! The size of a partition, as it is given on the command line.

ghost use Rattle.std.specs.Prelude.{◌≡◌, ◌≤◌, ◌%◌};
ghost use Rattle.std.specs.List.{list_all};
ghost use Rattle.std.specs.Option.{option_map};
ghost use Rattle.std.specs.Char.{is_ascii_digit};
ghost use Rattle.job_tasks.specs.Size.{partition_size, within_limits};
ghost use Rattle.block_store.specs.declared.measures.TheConstants.{GREATEST_ZONE, LEAST_ZONE};

use block_store::{GREATEST_ZONE, LEAST_ZONE};

/// The size of a partition in bytes: a multiple of 16 within the limits.
#[derive(Clone, Copy)]
pub struct PartitionSize {
    pub bytes: u32,
    ghost even: { bytes % 16 ≡ 0 },
    ghost low: { LEAST_ZONE ≤ bytes },
    ghost high: { bytes ≤ GREATEST_ZONE },
}

/// Reports whether a text has no other characters than decimal digits.
fn has_digits_only(text: &str) -> bool
    ensures { result ≡ list_all is_ascii_digit text.now }
{
    text.as_bytes().iter().all(|b| b.is_ascii_digit())
}

impl PartitionSize {
    /// Returns a number of bytes rounded down to a multiple of 16, if the number is within the
    /// limits.
    fn within_limits(size: u32) -> Option<PartitionSize>
        ensures { option_map (λ s. s.bytes) result ≡ within_limits size }
    {
        if LEAST_ZONE <= size && size <= GREATEST_ZONE {
            Some(PartitionSize {
                bytes: size - size % 16,
            })
        } else {
            None
        }
    }

    /// Reads the size in a text of decimal digits, rounded down to a multiple of 16.
    pub fn read(text: &str) -> Option<PartitionSize>
        ensures { option_map (λ s. s.bytes) result ≡ partition_size text.now }
    {
        if !has_digits_only(text) {
            return None;
        }
        match text.parse::<u32>() {
            Ok(size) => PartitionSize::within_limits(size),
            Err(_) => None,
        }
    }
}
