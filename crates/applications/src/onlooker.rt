//! What is seen inside a step.

ghost use Rattle.std.specs.Prelude.{List, [], ◌∷◌, ◌++◌, OnOk};
ghost use Rattle.applications.specs.Inside.{Glance};

use crate::application::Application;
use block_store::BlockStore;
use mac_words::OsErr;
use script_text::Line;
use std::alloc::AllocError;

/// An onlooker, who sees an application inside a step.
pub trait Onlooker {
    /// The onlooker has seen this, in order.
    ghost saw: { Self → List Glance → Type 0 };

    /// Looks at an application after a try of the call of a line: a call that found no room, or one
    /// of a grow-zone script. `code` is that of the reply.
    ///
    /// # Errors
    ///
    /// The host is out of memory.
    fn look<S: BlockStore>(
        &mut self,
        application: &Application<'_, S>,
        grown: bool,
        line: &Line,
        code: OsErr,
    ) -> Result<(), AllocError>
        ensures saw { OnOk result ((before : List Glance)
            → saw self.old before → saw self.new (before
            ++ record { grown = grown; line = line.now; code = code; after = application.now }
            ∷ [])) };
}

/// An onlooker who does not look.
#[derive(Clone, Copy, Debug)]
pub struct Unseen;

impl Onlooker for Unseen {
    ghost saw = { λ _ _. Unit {0} };

    fn look<S: BlockStore>(
        &mut self,
        _application: &Application<'_, S>,
        _grown: bool,
        _line: &Line,
        _code: OsErr,
    ) -> Result<(), AllocError> {
        Ok(())
    }
}
