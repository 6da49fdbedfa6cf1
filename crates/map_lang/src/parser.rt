//! The parser: programs from sources.

ghost use Rattle.std.specs.Prelude.{◌≡◌, IfOk};
ghost use Rattle.map_lang.specs.Syntax.{Stmts};
ghost use Rattle.map_lang.specs.Grammar.{Compiles};
ghost use Rattle.map_lang.specs.Refusing.{IfRefused};

use crate::fault::ParseFault;
use crate::lex::lex;
use crate::statements::block;
use crate::syntax::Program;
use json_terms::Chars;
use std::alloc::Global;

// How deep blocks and arrays may nest.
const NESTING: u32 = 16;

/// The program that a source spells. Want of memory aside, `Refused` comes exactly where the source compiles as no
/// program: it has another form, a variable stands outside the `for` that binds it, a `for` binds a name that is bound, or
/// blocks and arrays nest more than 16 deep.
pub fn parse(alloc: Global, source: &str) -> Result<Program, ParseFault>
    ensures found { IfOk result (λ program. Compiles source.now program) }
    ensures refused { IfRefused result ((program : Stmts) → Compiles source.now program → ⊥) }
{
    let mut tokens = lex(alloc, source)?;
    let mut bound = Vec::new(alloc);
    bound.push(Chars::from_text(alloc, "doc")?)?;
    let statements = block(alloc, &mut bound, &mut tokens, NESTING)?;
    if !tokens.is_empty() {
        return Err(ParseFault::Refused);
    }
    Ok(Program::new(statements))
}
