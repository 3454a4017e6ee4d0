//! Why a template is no declaration.

ghost use Rattle.std.specs.Prelude.{◌≡◌};
ghost use Rattle.rez_templates.specs.declared.fault.TemplateFault.TheVariants.{HostMemory};

use std::alloc::{AllocError, AllocFailed};

/// The reason why a template has no text as a declaration.
#[derive(Clone, Copy)]
pub(crate) enum TemplateFault {
    /// The template can't be stated as a declaration.
    Unstated,
    /// The host is out of memory. This fault says nothing about the template.
    HostMemory,
}

impl From<AllocError> for TemplateFault {
    ghost from_gives = { λ _ e. e ≡ HostMemory };

    fn from(_e: AllocError) -> TemplateFault {
        TemplateFault::HostMemory
    }
}

impl<T: Drop> From<AllocFailed<T>> for TemplateFault {
    ghost from_gives = { λ _ e. e ≡ HostMemory };

    fn from(_e: AllocFailed<T>) -> TemplateFault {
        TemplateFault::HostMemory
    }
}
