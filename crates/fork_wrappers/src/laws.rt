//! Laws of what files hold.

ghost use Rattle.std.specs.Prelude.{◌≡◌, ◌≢◌, ℕ, ◌+◌, ◌-◌, ◌<◌, ◌^◌, ◌++◌, true, false, List};
ghost use Rattle.std.specs.Prelude.{length, take, drop, set, Ok};
ghost use Rattle.std.specs.List.{AllByRecursion};
ghost use Rattle.fork_format.specs.Canonical.{canon};
ghost use Rattle.fork_format.specs.Content.{Content};
ghost use Rattle.fork_format.specs.Fork.{part};
ghost use Rattle.fork_wrappers.specs.Entries.{entry_count, entries_end, entry_places};
ghost use Rattle.fork_wrappers.specs.MacBinary.{is_first, padded, data_length, data_place};
ghost use Rattle.fork_wrappers.specs.MacBinary.{fork_length, fork_place};
ghost use Rattle.fork_wrappers.specs.Made.{apple_single, apple_double, mac_binary, TellsForks};
ghost use Rattle.fork_wrappers.specs.Made.{IsChecked};
ghost use Rattle.fork_wrappers.specs.Rewrapped.{AreBytes, fork_span, rewrapped, IsKept};
ghost use Rattle.fork_wrappers.specs.Rewrapped.{has_entries};
ghost use Rattle.fork_wrappers.specs.Unwrapped.{unwrapped, wrapping_of, is_mac_binary};
ghost use Rattle.fork_wrappers.specs.declared.wrapping.Wrapping.TheVariants as wrapping;

/// States that a resource fork that is written into an AppleSingle file, or into the header file of
/// AppleDouble, is found there again.
///
/// *AppleSingle/AppleDouble Formats for Foreign Files*, Developer's Note (1990).
pub fn a_fork_among_entries_is_found()
    ensures single { (info fork : List ℕ) → 50 + length info + length fork < 2 ^ 32
        → unwrapped (apple_single info fork) ≡ Ok fork }
    ensures double { (info fork : List ℕ) → 50 + length info + length fork < 2 ^ 32
        → unwrapped (apple_double info fork) ≡ Ok fork }
{}

/// States that a resource fork after a MacBinary header that gives its length, and after the padded
/// data fork, is found there again: in MacBinary II and III where the checksum is right and a
/// reader of MacBinary III is enough.
///
/// MacBinary II Standard (1987), "The Binary Transfer Format".
pub fn a_fork_behind_a_header_is_found()
    ensures first { (header contents fork : List ℕ) → TellsForks header contents fork
        → wrapping_of (mac_binary header contents fork) ≡ wrapping.MacBinaryI
        → unwrapped (mac_binary header contents fork) ≡ Ok fork }
    ensures second { (header contents fork : List ℕ) → TellsForks header contents fork
        → IsChecked header
        → wrapping_of (mac_binary header contents fork) ≡ wrapping.MacBinaryII
        → unwrapped (mac_binary header contents fork) ≡ Ok fork }
    ensures third { (header contents fork : List ℕ) → TellsForks header contents fork
        → IsChecked header
        → wrapping_of (mac_binary header contents fork) ≡ wrapping.MacBinaryIII
        → unwrapped (mac_binary header contents fork) ≡ Ok fork }
{}

/// States that a canonical fork of which one byte was changed is never taken for a file of
/// MacBinary I.
pub fn a_damaged_fork_is_no_old_mac_binary()
    ensures { (c : Content) (at byte : ℕ) → is_first (set (canon c) at byte) ≡ false }
{}

/// States that a file that was given another fork is wrapped as it was, and that just this fork is
/// found in it.
pub fn a_rewrapped_fork_is_found()
    ensures wrapping { (file fork new : List ℕ) → rewrapped file fork ≡ Ok new
        → wrapping_of new ≡ wrapping_of file }
    ensures fork { (file fork new : List ℕ) → AreBytes file → rewrapped file fork ≡ Ok new
        → unwrapped new ≡ Ok fork }
{}

/// States that a file that is given the fork that it holds stays as it is.
pub fn a_file_with_its_own_fork_stays()
    ensures { (file fork : List ℕ) → unwrapped file ≡ Ok fork → rewrapped file fork ≡ Ok file }
{}

/// States what stays in a file of AppleSingle or AppleDouble that was given another fork.
///
/// *AppleSingle/AppleDouble Formats for Foreign Files*, Developer's Note (1990).
pub fn all_other_entries_stay()
    // The magic number, the version and the filler; and each entry has the ID that it had, and but
    // for the one of the fork names the bytes that it named.
    ensures head { (file fork new : List ℕ) → has_entries (wrapping_of file) ≡ true
        → rewrapped file fork ≡ Ok new
        → take 24 new ≡ take 24 file }
    ensures entries { (file fork new : List ℕ) → has_entries (wrapping_of file) ≡ true
        → rewrapped file fork ≡ Ok new
        → AllByRecursion (IsKept file new) (entry_places file) }

    // There are as many entries as before, and one more if none was of the fork. After them stand
    // the bytes that stood there, with this fork in the place of the other.
    ensures count { (file fork new : List ℕ) → has_entries (wrapping_of file) ≡ true
        → rewrapped file fork ≡ Ok new
        → new ≢ file → entry_count new ≡ entry_count file + (fork_span file).more }
    ensures rest { (file fork new : List ℕ) → has_entries (wrapping_of file) ≡ true
        → rewrapped file fork ≡ Ok new
        → new ≢ file → drop (entries_end new) new
        ≡ part ((fork_span file).at - entries_end file) (entries_end file) file ++ fork
        ++ drop ((fork_span file).at + (fork_span file).len) file }
{}

/// States what stays in a file of MacBinary that was given another fork.
///
/// MacBinary II Standard (1987), "The Binary Transfer Format".
pub fn all_else_of_mac_binary_stays()
    // The name, the Finder's information, the dates and the length of the data fork; and the
    // header's other fields, up to the checksum.
    ensures head { (file fork new : List ℕ) → is_mac_binary (wrapping_of file) ≡ true
        → rewrapped file fork ≡ Ok new
        → take 87 new ≡ take 87 file }
    ensures fields { (file fork new : List ℕ) → is_mac_binary (wrapping_of file) ≡ true
        → rewrapped file fork ≡ Ok new
        → part 33 91 new ≡ part 33 91 file }

    // The data fork.
    ensures contents { (file fork new : List ℕ) → is_mac_binary (wrapping_of file) ≡ true
        → rewrapped file fork ≡ Ok new
        → part (data_length file) (data_place file) new
        ≡ part (data_length file) (data_place file) file }

    // What follows the padded resource fork, as the comment.
    ensures rest { (file fork new : List ℕ) → is_mac_binary (wrapping_of file) ≡ true
        → rewrapped file fork ≡ Ok new
        → drop (fork_place new + padded (fork_length new)) new
        ≡ drop (fork_place file + padded (fork_length file)) file }
{}
