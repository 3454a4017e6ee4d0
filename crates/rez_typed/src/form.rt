//! Forms of a type: its declarations, as text.

ghost use Rattle.std.specs.Prelude.{◌≡◌, ◌++◌, IfOk, OnOk, map, option_map};
ghost use Rattle.std.specs.List.{flat_map};
ghost use Rattle.byteorder.specs.Endian.{big_number};
ghost use Rattle.rez_types.specs.View.{declaration_of};
ghost use Rattle.rez_statements.specs.View.{said_by, types_of, declared_of};
ghost use Rattle.rez_statements.specs.Types.{declares};
ghost use Rattle.rez_typed.specs.Forms as spec;
ghost use Rattle.rez_typed.specs.View.{form_in, forms_in};

use byteorder::{BigEndian, ByteOrder};
use rez_declarations::TypeStated;
use rez_printing::{declaration_text, tailed_declaration_text};
use rez_statements::{DeclaredType, DeclaringStatement, Types, TypesFault, read_declaring};
use rez_text::{Scope, ends_last};
use rez_types::Declaration;
use std::alloc::{AllocError, Global};

/// What a form has after the fields of a declaration.
#[derive(Clone, Copy)]
pub(crate) enum Tail {
    /// Nothing.
    None,
    /// A string of the bytes that follow: 1 to 16 bytes.
    Short,
}

/// A form of a type.
#[derive(Drop)]
pub(crate) struct Form {
    /// The text of a statement that declares the type.
    pub text: Vec<u8>,
    /// The declaration as which this text is read.
    pub declaration: Declaration,
    /// What it has after the fields of a declaration of the type.
    pub tail: Tail,
}

/// Reports whether a text goes on, after the word `type`, to its last byte, the semicolon.
fn is_statement(text: &[u8]) -> bool
    ensures { result ≡ spec.is_statement text.now }
{
    match text.get(5..) {
        Some(rest) => ends_last(b';', 0, Scope::OUTSIDE, rest),
        None => false,
    }
}

/// Returns the declaration of a type by fields of its own.
fn own(ty: [u8; 4], statement: DeclaringStatement) -> Option<Declaration>
    ensures { option_map declaration_of result ≡ spec.own (big_number 4 ty) (said_by statement) }
{
    let other = statement.ty;
    match statement.stated {
        TypeStated::Declared(declaration) => {
            if BigEndian::read_u32(&other) == BigEndian::read_u32(&ty) {
                Some(declaration)
            } else {
                None
            }
        }
        TypeStated::As(_) => None,
    }
}

/// Returns what a text declares of a type.
fn declared_by(alloc: Global, ty: [u8; 4], text: &[u8]) -> Result<Option<Declaration>, AllocError>
    ensures { IfOk result (λ declaration. option_map declaration_of declaration
        ≡ spec.own_of (big_number 4 ty) (declares text.now)) }
{
    match read_declaring(alloc, text) {
        Ok(statement) => Ok(own(ty, statement)),
        Err(TypesFault::Wrong(_)) => Ok(None),
        Err(TypesFault::HostMemory) => Err(AllocError),
    }
}

/// Returns the form of a declaration by the text of a statement, if that declares the type.
fn form_declared(
    alloc: Global,
    tail: Tail,
    ty: [u8; 4],
    text: Vec<u8>,
) -> Result<Option<Form>, AllocError>
    ensures { IfOk result (λ form. option_map form_in form
        ≡ spec.form_declared tail text.items
        (spec.own_of (big_number 4 ty) (declares text.items))) }
{
    match declared_by(alloc, ty, text.as_slice())? {
        Some(declaration) => Ok(Some(Form {
            text,
            declaration,
            tail,
        })),
        None => Ok(None),
    }
}

/// Returns the form of a declaration by its text, if that is one statement that declares the type.
fn form_by(
    alloc: Global,
    tail: Tail,
    ty: [u8; 4],
    text: Vec<u8>,
) -> Result<Option<Form>, AllocError>
    ensures { IfOk result (λ form. option_map form_in form
        ≡ spec.form_by tail (big_number 4 ty) text.items) }
{
    if is_statement(text.as_slice()) {
        form_declared(alloc, tail, ty, text)
    } else {
        Ok(None)
    }
}

/// Returns the text of a declaration with a tail.
fn text_with(
    alloc: Global,
    tail: Tail,
    ty: [u8; 4],
    declaration: &Declaration,
) -> Result<Vec<u8>, AllocError>
    ensures { IfOk result (λ text. text.items
        ≡ spec.text_with tail (big_number 4 ty) (declaration_of declaration.now)) }
{
    match tail {
        Tail::None => declaration_text(alloc, ty, declaration),
        Tail::Short => tailed_declaration_text(alloc, ty, declaration),
    }
}

/// Returns the form of a declaration with a tail, if its text is one statement that declares the
/// type.
#[tactic(auto, unfolding(crate::specs::Forms::form_of))]
fn form_of(
    alloc: Global,
    tail: Tail,
    ty: [u8; 4],
    declaration: &Declaration,
) -> Result<Option<Form>, AllocError>
    ensures { IfOk result (λ form. option_map form_in form
        ≡ spec.form_of tail (big_number 4 ty) (declaration_of declaration.now)) }
{
    let text = text_with(alloc, tail, ty, declaration)?;
    form_by(alloc, tail, ty, text)
}

/// Adds the form of a declared type with a tail, if it is the type that is looked for.
fn add_form(
    alloc: Global,
    forms: &mut Vec<Form>,
    tail: Tail,
    ty: [u8; 4],
    declared: &DeclaredType,
) -> Result<(), AllocError>
    ensures { OnOk result (forms_in forms.new.items
        ≡ forms_in forms.old.items
        ++ spec.forms_with tail (big_number 4 ty) (declared_of declared.now)) }
{
    if declared.kind == BigEndian::read_u32(&ty) {
        if let Some(form) = form_of(alloc, tail, ty, &*declared.declaration)? {
            forms.push(form)?;
        }
    }
    Ok(())
}

/// Adds the forms of a type with a tail, in the order of its declarations.
fn add_forms(
    alloc: Global,
    forms: &mut Vec<Form>,
    tail: Tail,
    ty: [u8; 4],
    list: &[DeclaredType],
) -> Result<(), AllocError>
    ensures { OnOk result (forms_in forms.new.items
        ≡ forms_in forms.old.items
        ++ flat_map (spec.forms_with tail (big_number 4 ty)) (map declared_of list.now)) }
{
    for declared in list {
        add_form(alloc, forms, tail, ty, declared)?;
    }
    Ok(())
}

/// Returns the forms of a type, of which the last is tried first: those with a tail, and then the
/// others.
pub(crate) fn forms_of(alloc: Global, types: &Types, ty: [u8; 4]) -> Result<Vec<Form>, AllocError>
    ensures { IfOk result (λ forms. forms_in forms.items
        ≡ spec.forms_of (big_number 4 ty) (types_of types.now)) }
{
    let mut forms = Vec::new(alloc);
    add_forms(alloc, &mut forms, Tail::Short, ty, types.list())?;
    add_forms(alloc, &mut forms, Tail::None, ty, types.list())?;
    Ok(forms)
}
