//! Reading statements.

ghost use Rattle.std.specs.Prelude.{◌≡◌, ◌∷◌, List, IfOk, OnOk};
ghost use Rattle.map_lang.specs.declared.token.Token.{Token};
ghost use Rattle.map_lang.specs.declared.token.Keyword.TheVariants as keyword;
ghost use Rattle.map_lang.specs.Syntax.{Stmt, Stmts, stmts_of};
ghost use Rattle.map_lang.specs.SeenStatements.{stmt_of};
ghost use Rattle.map_lang.specs.Grammar.{word};
ghost use Rattle.map_lang.specs.Readings.{ReadsStmt, ReadsStmts, ReadsBlock};
ghost use Rattle.map_lang.specs.Refusing.{IfRefused, ReadsNone};

use crate::cursor::{ends_block, take, take_keyword, take_name};
use crate::expressions::{expression, is_among};
use crate::fault::ParseFault;
use crate::syntax::{Block, Statement};
use crate::token::{Keyword, Mark, Token};
use json_terms::Chars;
use std::alloc::Global;
use std::collections::VecDeque;

/// Reads the statements up to the end of the block, in which blocks and arrays may nest `room` deep.
#[cycle(nest)]
pub fn block(
    alloc: Global,
    bound: &mut Vec<Chars>,
    tokens: &mut VecDeque<Token>,
    room: u32,
) -> Result<Block, ParseFault>
    ensures found { IfOk result (λ b. ReadsStmts bound.old.items room tokens.old.items
        (stmts_of b) tokens.new.items) }
    ensures refused { IfRefused result
        (ReadsNone (ReadsStmts bound.old.items room tokens.old.items)) }
    ensures bound { OnOk result (bound.new.items ≡ bound.old.items) }
{
    let mut statements = Block::new(alloc);
    'statements: while !ends_block(tokens) {
        let next = statement(alloc, bound, tokens, room)?;
        statements.push(next)?;
    }
    Ok(statements)
}

// Reads a statement.
#[cycle(nest)]
fn statement(
    alloc: Global,
    bound: &mut Vec<Chars>,
    tokens: &mut VecDeque<Token>,
    room: u32,
) -> Result<Statement, ParseFault>
    ensures found { IfOk result (λ s. ReadsStmt bound.old.items room tokens.old.items
        (stmt_of s) tokens.new.items) }
    ensures refused { IfRefused result
        (ReadsNone (ReadsStmt bound.old.items room tokens.old.items)) }
    ensures bound { OnOk result (bound.new.items ≡ bound.old.items) }
{
    if take_keyword(tokens, Keyword::Emit) {
        return emission(alloc, bound, tokens, room);
    }
    if take_keyword(tokens, Keyword::If) {
        return condition(alloc, bound, tokens, room);
    }
    if take_keyword(tokens, Keyword::For) {
        return repetition(alloc, bound, tokens, room);
    }
    Err(ParseFault::Refused)
}

// Reads an `emit` behind its keyword.
fn emission(
    alloc: Global,
    bound: &[Chars],
    tokens: &mut VecDeque<Token>,
    room: u32,
) -> Result<Statement, ParseFault>
    ensures found { IfOk result (λ s. ReadsStmt bound.now room
        (word keyword.Emit ∷ tokens.old.items) (stmt_of s) tokens.new.items) }
    ensures refused { IfRefused result
        (ReadsNone (ReadsStmt bound.now room (word keyword.Emit ∷ tokens.old.items))) }
{
    let key = expression(alloc, bound, tokens, room)?;
    if !take(tokens, Mark::Comma) {
        return Err(ParseFault::Refused);
    }
    let value = expression(alloc, bound, tokens, room)?;
    Ok(Statement::Emit(key, value))
}

// Reads an `if` behind its keyword.
#[cycle(nest)]
fn condition(
    alloc: Global,
    bound: &mut Vec<Chars>,
    tokens: &mut VecDeque<Token>,
    room: u32,
) -> Result<Statement, ParseFault>
    ensures found { IfOk result (λ s. ReadsStmt bound.old.items room
        (word keyword.If ∷ tokens.old.items) (stmt_of s) tokens.new.items) }
    ensures refused { IfRefused result
        (ReadsNone (ReadsStmt bound.old.items room (word keyword.If ∷ tokens.old.items))) }
    ensures bound { OnOk result (bound.new.items ≡ bound.old.items) }
{
    let left = expression(alloc, bound, tokens, room)?;
    if !take(tokens, Mark::Equals) {
        return Err(ParseFault::Refused);
    }
    let right = expression(alloc, bound, tokens, room)?;
    if room == 0 {
        return Err(ParseFault::Refused);
    }
    let inner = braced(alloc, bound, tokens, room - 1)?;
    Ok(Statement::If(left, right, inner))
}

// Reads a `for` behind its keyword. The name is bound in the block alone.
#[cycle(nest)]
fn repetition(
    alloc: Global,
    bound: &mut Vec<Chars>,
    tokens: &mut VecDeque<Token>,
    room: u32,
) -> Result<Statement, ParseFault>
    ensures found { IfOk result (λ s. ReadsStmt bound.old.items room
        (word keyword.For ∷ tokens.old.items) (stmt_of s) tokens.new.items) }
    ensures refused { IfRefused result
        (ReadsNone (ReadsStmt bound.old.items room (word keyword.For ∷ tokens.old.items))) }
    ensures bound { OnOk result (bound.new.items ≡ bound.old.items) }
{
    let Some(name) = take_name(tokens) else {
        return Err(ParseFault::Refused);
    };
    if is_among(name.as_str(), bound) {
        return Err(ParseFault::Refused);
    }
    if !take_keyword(tokens, Keyword::In) {
        return Err(ParseFault::Refused);
    }
    let source = expression(alloc, bound, tokens, room)?;
    if room == 0 {
        return Err(ParseFault::Refused);
    }
    bound.push(name.copy(alloc)?)?;
    let inner = braced(alloc, bound, tokens, room - 1)?;
    let _ = bound.pop();
    Ok(Statement::For(name, source, inner))
}

// Reads a block in braces.
#[cycle(nest)]
fn braced(
    alloc: Global,
    bound: &mut Vec<Chars>,
    tokens: &mut VecDeque<Token>,
    room: u32,
) -> Result<Block, ParseFault>
    ensures found { IfOk result (λ b. ReadsBlock bound.old.items room tokens.old.items
        (stmts_of b) tokens.new.items) }
    ensures refused { IfRefused result
        (ReadsNone (ReadsBlock bound.old.items room tokens.old.items)) }
    ensures bound { OnOk result (bound.new.items ≡ bound.old.items) }
{
    if !take(tokens, Mark::OpenBrace) {
        return Err(ParseFault::Refused);
    }
    let inner = block(alloc, bound, tokens, room)?;
    if !take(tokens, Mark::CloseBrace) {
        return Err(ParseFault::Refused);
    }
    Ok(inner)
}
