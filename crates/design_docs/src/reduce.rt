//! Reduces that are built in.

ghost use Rattle.std.specs.Prelude.{◌≡◌};
ghost use Rattle.design_docs.specs.Reduces.{builtin_of};

use crate::design::Builtin;

/// The built-in reduce with this name.
pub fn read_builtin(name: &str) -> Option<Builtin>
    ensures { result ≡ builtin_of name.now }
{
    match name {
        "_sum" => Some(Builtin::Sum),
        "_count" => Some(Builtin::Count),
        "_stats" => Some(Builtin::Stats),
        _ => None,
    }
}
