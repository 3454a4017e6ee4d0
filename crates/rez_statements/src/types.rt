//! Declaring types, and resources of declared types.

ghost use Rattle.std.specs.Prelude.{◌≡◌, ℕ, [], ◌∷◌, ◌++◌, IfOk, OnOk, OnErr, map};
ghost use Rattle.std.specs.Option.{option_map};
ghost use Rattle.byteorder.specs.Endian.{big_number};
ghost use Rattle.rez_declarations.specs.Parses.{stated_of};
ghost use Rattle.rez_statements.specs.Places.{last_place};
ghost use Rattle.rez_statements.specs.Types as spec;
ghost use Rattle.rez_statements.specs.View.{Gives, LeadsTo, bytes_in, types_of, declared_of};
ghost use Rattle.rez_statements.specs.View.{shared, lent};

use crate::datum::datum_by;
use crate::fault::{StatementFault, TypeName, TypesFault};
use crate::statement::{read_declaring, wrong};
use crate::table::{DeclaredType, Types};
use byteorder::{BigEndian, ByteOrder};
use rez_declarations::TypeStated;
use rez_types::Declaration;
use std::alloc::{AllocError, Global};
use std::collections::BTreeMap;
use std::rc::Rc;

impl Types {
    /// Makes types of which none is declared.
    pub fn new(alloc: Global) -> Types
        ensures { types_of result ≡ [] }
    {
        Types {
            alloc,
            list: Vec::new(alloc),
            places: BTreeMap::new(alloc),
        }
    }

    /// Returns the types that are declared, in the order of their declarations.
    pub fn list(&self) -> &[DeclaredType]
        ensures { map declared_of result.now ≡ types_of self.now }
    {
        self.list.as_slice()
    }

    /// Returns the place of the declaration of a type that is in force.
    fn place_of(&self, kind: u32) -> Option<usize>
        ensures { result ≡ last_place kind self.now.list.items }
    {
        self.places.get(&kind).copied()
    }

    /// Returns the declaration of a type that is in force.
    fn in_force(&self, kind: u32) -> Option<&Rc<Declaration>>
        ensures { option_map lent result ≡ spec.in_force kind (types_of self.now) }
    {
        match self.place_of(kind) {
            Some(place) => match self.list.get(place) {
                Some(declared) => Some(&declared.declaration),
                None => None,
            },
            None => None,
        }
    }

    /// Reports whether a type is declared.
    pub fn is_declared(&self, ty: [u8; 4]) -> bool
        ensures { result ≡ spec.is_declared (big_number 4 ty) (types_of self.now) }
    {
        self.in_force(BigEndian::read_u32(&ty)).is_some()
    }

    /// Returns the declaration of a type that is in force. The type has to be declared.
    fn needed(&self, kind: u32) -> Result<&Rc<Declaration>, TypesFault>
        ensures { Gives lent result (spec.needed kind (spec.in_force kind (types_of self.now))) }
    {
        match self.in_force(kind) {
            Some(declaration) => Ok(declaration),
            None => Err(wrong(1, StatementFault::Undeclared(TypeName { number: kind }))),
        }
    }

    /// Returns the declaration that a statement gives: its own, or that of another type.
    fn given_by(&self, stated: TypeStated) -> Result<Rc<Declaration>, TypesFault>
        ensures { Gives shared result (spec.given_by (stated_of stated) (types_of self.now)) }
    {
        match stated {
            TypeStated::Declared(declaration) => Ok(Rc::new(self.alloc, declaration)?),
            TypeStated::As(other) => Ok(self.needed(BigEndian::read_u32(&other))?.clone()?),
        }
    }

    /// Adds a declaration of a type after all others.
    fn add(&mut self, kind: u32, declaration: Rc<Declaration>) -> Result<(), AllocError>
        ensures added { OnOk result (types_of self.new
            ≡ types_of self.old ++ record { kind = kind; declaration = shared declaration } ∷ []) }
        ensures kept { OnErr result (types_of self.new ≡ types_of self.old) }
    {
        let place = self.list.len();
        self.list.push(DeclaredType { kind, declaration })?;
        match self.places.insert(kind, place) {
            Ok(_) => Ok(()),
            Err(_) => {
                self.list.truncate(place);
                Err(AllocError)
            }
        }
    }

    /// Returns a copy of the types, which shares their declarations.
    pub fn copied(&self) -> Result<Types, AllocError>
        ensures { IfOk result (λ copy. types_of copy ≡ types_of self.now) }
    {
        let mut copy = Types::new(self.alloc);
        for declared in &self.list {
            copy.add(declared.kind, declared.declaration.clone()?)?;
        }
        Ok(copy)
    }

    /// Declares a type by the text of a statement `type`, from the word `type` to the semicolon.
    ///
    /// # Errors
    ///
    /// Returns the line in the text where it can't go on, and what is wrong there, or `Undeclared`
    /// where it names a type that is not declared; `HostMemory` where the host is out of memory.
    /// The types are then as they were.
    #[tactic(auto, unfolding(crate::specs::Types::with_type))]
    pub fn declare(&mut self, text: &[u8]) -> Result<(), TypesFault>
        ensures declared { LeadsTo result (types_of self.new)
            (spec.with_type text.now (types_of self.old)) }
        ensures kept { OnErr result (types_of self.new ≡ types_of self.old) }
    {
        let statement = read_declaring(self.alloc, text)?;
        let declaration = self.given_by(statement.stated)?;
        self.add(BigEndian::read_u32(&statement.ty), declaration)?;
        Ok(())
    }

    /// Returns the bytes of the resource of a type that the text between the braces of a statement
    /// `resource` states.
    ///
    /// # Errors
    ///
    /// Returns `Undeclared` where the type is not declared, else the line in the text where it
    /// can't go on, and what is wrong there, or `NotEncoded` where the values have no bytes;
    /// `HostMemory` where the host is out of memory.
    #[tactic(auto, unfolding(crate::specs::Types::datum_stated))]
    pub fn datum(&self, ty: [u8; 4], text: &[u8]) -> Result<Vec<u8>, TypesFault>
        ensures { Gives bytes_in result
            (spec.datum_stated (big_number 4 ty) text.now (types_of self.now)) }
    {
        let declaration = self.needed(BigEndian::read_u32(&ty))?;
        datum_by(self.alloc, declaration, text)
    }
}
