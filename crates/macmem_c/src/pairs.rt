//! Two files: a resource is set in a fork, and two forks are compared.

ghost use Rattle.std.specs.Prelude.{◌≡◌, ◌≢◌, length, IfOk, IfErr};
ghost use Rattle.mac_words.specs.Codes.{noErr};
ghost use Rattle.mac_roman.specs.declared.charset.Charset.TheVariants.{Utf8};
ghost use Rattle.fork_commands.specs.Pairs.{combined};
ghost use Rattle.fork_commands.specs.declared.pair.PairWork.TheVariants.{Set, Diff};
ghost use Rattle.fork_commands.specs.declared.work.ResourceKey.{ResourceKey};
ghost use Rattle.macmem_c.specs.Delivered.{laid_over};
ghost use Rattle.macmem_c.specs.Faults.{TellsPair};
ghost use Rattle.macmem_c.specs.Handed.{Hands};
ghost use Rattle.macmem_c.specs.Keys.{IsKey, packaging_of};
ghost use Rattle.macmem_c.specs.Paired.{setting_of, IsPaired, IsUnpaired, Combines};

use crate::delivering::deliver;
use crate::faults::{Fault, tell_pair};
use crate::keys::{key_of, packaging_of};
use fork_commands::{PairFault, PairNames, PairOutput, PairWork, Setting, combined};
use mac_roman::Charset;
use std::alloc::Global;

/// The names of the two files, which nothing prints.
pub const NO_NAMES: PairNames<'static> = PairNames {
    first: "",
    second: "",
};

/// Hands over what was made of two files, and whether they differ, or why nothing was made, and
/// returns the code.
pub fn hand_over_pair(
    made: Result<PairOutput, PairFault>,
    out: &mut [u8],
    len: &mut usize,
    differs: &mut bool,
    fault: &mut Fault,
) -> i32
    ensures handed { IfOk made (λ m. (result ≡ noErr) × (out.new ≡ laid_over m.out.items out.old)
        × (len.new ≡ length m.out.items) × (differs.new ≡ m.differs) × (fault.new ≡ fault.old)) }
    ensures stopped { IfErr made (λ f. TellsPair f fault.old fault.new result × (out.new ≡ out.old)
        × (len.new ≡ len.old) × (differs.new ≡ differs.old)) }
{
    match made {
        Ok(made) => {
            *differs = made.differs;
            *len = deliver(made.out.as_slice(), out);
            0
        }
        Err(stopped) => tell_pair(stopped, fault),
    }
}

/// Compares the contents of two resource forks: gives the lines of their differences, in UTF-8, and
/// whether there are any.
#[unsafe(no_mangle)]
pub extern "C" fn macmem_fork_diff(
    alloc: Global,
    first: &[u8],
    second: &[u8],
    out: &mut [u8],
    len: &mut usize,
    differs: &mut bool,
    fault: &mut Fault,
) -> i32
    ensures made { Hands (IsPaired (combined (Diff Utf8) first.now second.now) differs.new)
        (IsUnpaired (combined (Diff Utf8) first.now second.now))
        out.old len.old fault.old out.new len.new fault.new result }
    ensures differs { result ≢ noErr → differs.new ≡ differs.old }
{
    let made = combined(
        alloc,
        PairWork::Diff(Charset::Utf8),
        NO_NAMES,
        first,
        second,
    );
    hand_over_pair(made, out, len, differs, fault)
}

/// Makes the canonical fork of the content of a resource fork with a resource set to bytes, alone
/// or in the wrapper of its file. A resource that is there keeps its name and its attributes.
#[unsafe(no_mangle)]
pub extern "C" fn macmem_fork_set(
    alloc: Global,
    file: &[u8],
    kind: u32,
    id: i16,
    bytes: &[u8],
    wrapped: bool,
    out: &mut [u8],
    len: &mut usize,
    fault: &mut Fault,
) -> i32
    ensures { (key : ResourceKey) × IsKey kind id key
        × Combines (combined (Set (setting_of key) (packaging_of wrapped)) file.now bytes.now)
        out.old len.old fault.old out.new len.new fault.new result }
{
    let setting = Setting {
        key: key_of(kind, id),
        name: None,
        attrs: None,
    };
    let work = PairWork::Set(setting, packaging_of(wrapped));
    let mut differs = false;
    let made = combined(alloc, work, NO_NAMES, file, bytes);
    hand_over_pair(made, out, len, &mut differs, fault)
}
