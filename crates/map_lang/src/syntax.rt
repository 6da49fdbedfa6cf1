//! The syntax of programs.

ghost use Rattle.std.specs.Prelude.{◌≡◌, ◌++◌, ◌∷◌, [], List, map, OnOk};

use json_terms::{Chars, NoMemory};
use std::alloc::Global;
use std::marker::Model;

/// A step of a path, from a value into it.
#[derive(Drop)]
pub enum Step {
    /// `.name`: the member with this name.
    Member(Chars),
    /// `[3]`: the element at this place, counted from 0.
    Element(i64),
    /// `['name']`: the member with this name.
    Key(Chars),
}

/// A value that is written out.
#[derive(Drop)]
pub enum Literal {
    Integer(i64),
    Text(Chars),
    True,
    False,
    Null,
}

/// What a value is made by.
#[cycle(expression)]
#[derive(Drop)]
pub enum Expression {
    /// The value of a variable, and steps into it.
    Path(Chars, Vec<Step>),
    /// A value that is written out.
    Literal(Literal),
    /// An array of the values of its parts.
    Array(Expressions),
}

/// The parts of an array, seen by contracts as the list of them.
#[cycle(expression)]
#[derive(Drop)]
pub struct Expressions {
    items: Vec<Expression>,
}

impl Model for Expressions {
    ghost use Rattle.std.specs.Prelude.{List, map, suc};
    ghost use Rattle.std.specs.Coded.{coded_list};
    ghost use Rattle.map_lang.specs.Syntax.{Expr, exprs_of, exprs_nesting};
    ghost use Rattle.map_lang.specs.Code.{coded_expr};

    ghost Value = { List Expr };

    ghost coded = { coded_list coded_expr };

    ghost use Rattle.map_lang.specs.SeenExpressions.{expr_of};

    ghost view = { λ es. map expr_of es.items.items };

    ghost size = { λ es. suc (exprs_nesting (exprs_of es)) };

    ghost use Rattle.std.proofs.Common.{arith};
    ghost use Rattle.map_lang.specs.FallsExpressions.{most_le-exprs_nesting};

    ghost size_decreases = { λ a h. Prim.omega (arith, most_le-exprs_nesting a.items.items) };
}

/// What a program does.
#[cycle(statement)]
#[derive(Drop)]
pub enum Statement {
    /// Gives a row with a key and a value, where both are there.
    Emit(Expression, Expression),
    /// Does the block where both values are there and are equal.
    If(Expression, Expression, Block),
    /// Does the block for each element of an array, which the variable names.
    For(Chars, Expression, Block),
}

/// Statements that are done in turn, seen by contracts as the list of them.
#[cycle(statement)]
#[derive(Drop)]
pub struct Block {
    statements: Vec<Statement>,
}

impl Model for Block {
    ghost use Rattle.std.specs.Prelude.{List, map, suc};
    ghost use Rattle.std.specs.Coded.{coded_list};
    ghost use Rattle.map_lang.specs.Syntax.{Stmt, stmts_of, stmts_nesting};
    ghost use Rattle.map_lang.specs.Code.{coded_stmt};

    ghost Value = { List Stmt };

    ghost coded = { coded_list coded_stmt };

    ghost use Rattle.map_lang.specs.SeenStatements.{stmt_of};

    ghost view = { λ b. map stmt_of b.statements.items };

    ghost size = { λ b. suc (stmts_nesting (stmts_of b)) };

    ghost use Rattle.std.proofs.Common.{arith};
    ghost use Rattle.map_lang.specs.FallsStatements.{most_le-stmts_nesting};

    ghost size_decreases = { λ a h. Prim.omega (arith, most_le-stmts_nesting a.statements.items) };
}

/// A program of the language, seen by contracts as its statements.
#[derive(Drop)]
pub struct Program {
    block: Block,
}

impl Model for Program {
    ghost use Rattle.map_lang.specs.Syntax.{Stmts, stmts_of};
    ghost use Rattle.map_lang.specs.Code.{coded_stmts};

    ghost Value = { Stmts };

    ghost coded = { coded_stmts };

    ghost view = { λ p. stmts_of p.block };
}

impl Expressions {
    ghost use Rattle.map_lang.specs.SeenExpressions.{expr_of};

    pub fn new(alloc: Global) -> Expressions
        ensures { result ≡ [] }
    {
        Expressions {
            items: Vec::new(alloc),
        }
    }

    /// Adds a part at the end. The one error is want of memory.
    pub fn push(&mut self, expression: Expression) -> Result<(), NoMemory>
        ensures { OnOk result (self.new ≡ self.old ++ expr_of expression ∷ []) }
    {
        self.items.push(expression)?;
        Ok(())
    }

    pub fn as_slice(&self) -> &[Expression]
        ensures { map expr_of result.now ≡ self.now }
    {
        self.items.as_slice()
    }
}

impl Block {
    ghost use Rattle.map_lang.specs.SeenStatements.{stmt_of};

    pub fn new(alloc: Global) -> Block
        ensures { result ≡ [] }
    {
        Block {
            statements: Vec::new(alloc),
        }
    }

    /// Adds a statement at the end. The one error is want of memory.
    pub fn push(&mut self, statement: Statement) -> Result<(), NoMemory>
        ensures { OnOk result (self.new ≡ self.old ++ stmt_of statement ∷ []) }
    {
        self.statements.push(statement)?;
        Ok(())
    }

    pub fn as_slice(&self) -> &[Statement]
        ensures { map stmt_of result.now ≡ self.now }
    {
        self.statements.as_slice()
    }
}

impl Program {
    ghost use Rattle.map_lang.specs.Syntax.{stmts_of};

    pub fn new(block: Block) -> Program
        ensures { result ≡ stmts_of block }
    {
        Program { block }
    }

    pub fn block(&self) -> &Block
        ensures { stmts_of result.now ≡ self.now }
    {
        &self.block
    }
}
