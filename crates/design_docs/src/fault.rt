//! Why a document has no design.

ghost use Rattle.std.specs.Prelude.{◌≡◌};
ghost use Rattle.design_docs.specs.declared.fault.DesignFault.TheVariants.{NoMemory as OutOfMemory};

use json_terms::{Chars, NoMemory};
use thiserror::Error;

/// Why a document has no design. A document with several faults has the first that is met: its language, that its views are no
/// object, its options, and then view by view, in byte order of name, the view, its options and its reduce.
#[derive(Debug, Drop, Error)]
pub enum DesignFault {
    /// The `views` are no object.
    #[error("views")]
    BadViews,
    /// The view with this name is no object, has no text `map`, has a `reduce` that is no text, is named `lib`, or is the 33rd.
    #[error("view")]
    BadView(Chars),
    /// The option with this name isn't one that may be given, or has another value; or it is `options`, and these are no object.
    #[error("option")]
    BadOption(Chars),
    /// The view with this name has a reduce that begins with an underscore and isn't built in.
    #[error("builtin")]
    UnknownBuiltin(Chars),
    /// The `language` is no text, or an empty one.
    #[error("language")]
    BadLanguage,
    /// Memory ran out.
    #[error("out of memory")]
    NoMemory,
}

impl From<NoMemory> for DesignFault {
    ghost from_gives = { λ _ e. e ≡ OutOfMemory };

    fn from(_fault: NoMemory) -> DesignFault {
        DesignFault::NoMemory
    }
}
