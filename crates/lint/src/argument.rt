//! Whether a token is an argument of a kind.

ghost use Rattle.std.specs.Prelude.{◌≡◌, is_some, IfOk};
ghost use Rattle.script_text.specs.Argument.{value};
ghost use Rattle.lint.specs.Roles.{kind};
ghost use Rattle.lint.specs.declared.role.Role.TheVariants as role;

use crate::role::Role;
use mac_words::{FileName, Label, Name, OsType, Replacement, Target};
use script_text::{Argument, path_in};
use std::alloc::{AllocError, Global};

/// Reports whether a token is an argument of a type.
fn spells<A: Argument + Drop>(alloc: Global, token: &[u8]) -> Result<bool, AllocError>
    ensures { IfOk result (λ found. found ≡ is_some (value A.kind token.now)) }
{
    let found = A::find(alloc, token)?;
    Ok(found.is_some())
}

fn is_path(token: &[u8]) -> bool
    ensures { result ≡ is_some (value (kind role.System) token.now) }
{
    path_in(token).is_some()
}

/// Reports whether a token is an argument that stands for this.
pub fn is_value(alloc: Global, role: Role, token: &[u8]) -> Result<bool, AllocError>
    ensures { IfOk result (λ found. found ≡ is_some (value (kind role) token.now)) }
{
    match role {
        Role::Handle
        | Role::Source
        | Role::Target
        | Role::Pointer
        | Role::Variable
        | Role::From
        | Role::Into
        | Role::GrowZone
        | Role::Application => spells::<Label>(alloc, token),
        Role::Size | Role::Offset | Role::Count | Role::Place | Role::Number | Role::Memory =>
            spells::<u32>(alloc, token),
        Role::Id => spells::<i16>(alloc, token),
        Role::Byte => spells::<u8>(alloc, token),
        Role::Type => spells::<OsType>(alloc, token),
        Role::Bytes => spells::<Vec<u8>>(alloc, token),
        Role::Old => spells::<Target>(alloc, token),
        Role::New => spells::<Replacement>(alloc, token),
        Role::File => spells::<FileName>(alloc, token),
        Role::Text => spells::<Name>(alloc, token),
        Role::Switch => spells::<bool>(alloc, token),
        Role::System | Role::Fork | Role::Script => Ok(is_path(token)),
    }
}
