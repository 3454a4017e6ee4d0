//! One resource of a fork as source of Rez, and back.

ghost use Rattle.std.specs.Prelude.{◌≡◌, IfOk, IfErr, Ok};
ghost use Rattle.fork_commands.specs.BuiltIn.{built_in};
ghost use Rattle.fork_commands.specs.Faults.{Stops};
ghost use Rattle.fork_commands.specs.Pairs.{combined};
ghost use Rattle.fork_commands.specs.Sources.{printed};
ghost use Rattle.fork_commands.specs.declared.pair.PairWork.TheVariants.{SetStated};
ghost use Rattle.fork_commands.specs.declared.selecting.Selection.TheVariants.{One};
ghost use Rattle.fork_commands.specs.declared.work.ResourceKey.{ResourceKey};
ghost use Rattle.macmem_c.specs.Handed.{HandsOver};
ghost use Rattle.macmem_c.specs.Keys.{IsKey, packaging_of};
ghost use Rattle.macmem_c.specs.Paired.{setting_of, Combines};
ghost use Rattle.macmem_c.specs.Sources.{form_of};

use crate::delivering::hand_over;
use crate::faults::Fault;
use crate::keys::{key_of, packaging_of};
use crate::pairs::{NO_NAMES, hand_over_pair};
use crate::sources::form_of;
use fork_commands::{
    PairWork, ResourceKey, Selection, Setting, WorkFault, built_in, combined, printed,
};
use std::alloc::Global;

/// Returns the resources of a type and an ID as source of Rez, by the types of the table.
fn statement_of(
    alloc: Global,
    key: ResourceKey,
    typed: bool,
    file: &[u8],
) -> Result<Vec<u8>, WorkFault>
    ensures made { IfOk result (λ out.
        printed (form_of typed) (One key) built_in file.now ≡ Ok out.items) }
    ensures fault { IfErr result (λ fault.
        Stops fault (printed (form_of typed) (One key) built_in file.now)) }
{
    let types = built_in(alloc)?;
    printed(alloc, form_of(typed), Selection::One(key), types, file)
}

/// Prints the resources of a type, whose four bytes are `kind`, and an ID as source of Rez: with
/// statements that the types of the table and the fork's own templates declare, or as data alone.
#[unsafe(no_mangle)]
pub extern "C" fn macmem_fork_show(
    alloc: Global,
    file: &[u8],
    kind: u32,
    id: i16,
    typed: bool,
    out: &mut [u8],
    len: &mut usize,
    fault: &mut Fault,
) -> i32
    ensures { (key : ResourceKey) × IsKey kind id key
        × HandsOver (printed (form_of typed) (One key) built_in file.now)
        out.old len.old fault.old out.new len.new fault.new result }
{
    hand_over(
        statement_of(alloc, key_of(kind, id), typed, file),
        out,
        len,
        fault,
    )
}

/// Makes the canonical fork of the content of a resource fork with a resource set to the one of its
/// type and ID that a source of Rez states: to its bytes, name and attributes. The fork stands
/// alone, or in the wrapper of its file.
#[unsafe(no_mangle)]
pub extern "C" fn macmem_fork_state(
    alloc: Global,
    file: &[u8],
    kind: u32,
    id: i16,
    source: &[u8],
    wrapped: bool,
    out: &mut [u8],
    len: &mut usize,
    fault: &mut Fault,
) -> i32
    ensures { (key : ResourceKey) × IsKey kind id key
        × Combines
        (combined (SetStated (setting_of key) (packaging_of wrapped)) file.now source.now)
        out.old len.old fault.old out.new len.new fault.new result }
{
    let setting = Setting {
        key: key_of(kind, id),
        name: None,
        attrs: None,
    };
    let work = PairWork::SetStated(setting, packaging_of(wrapped));
    let mut differs = false;
    let made = combined(alloc, work, NO_NAMES, file, source);
    hand_over_pair(made, out, len, &mut differs, fault)
}
