ghost use Rattle.std.specs.Prelude.{◌≡◌, ◌++◌, IfOk, OnOk, decimal};
ghost use Rattle.std.specs.Fmt.{signed_decimal};
ghost use Rattle.src_tree.specs.Printed.{spaced, line_of_token, in_braces, op_sign, cmp_sign, label_keyword, tree_text, test_text, statement_text, block_text, size_text, decl_text, decls_text, source_text};
ghost use Rattle.src_tree.specs.Trees.{expr_tree, test_of, statement_of, block_of_all, source_of};

use crate::trees::{Decl, Expr, Guard, Program, Stmt};
use gr_base::Memory;
use gr_word::{Cmp, Label, Op};
use itoa::Buffer;
use std::alloc::Global;

// Adds a token and a space.
fn put(out: &mut Vec<u8>, token: &[u8]) -> Result<(), Memory>
    ensures { OnOk result (out.new.items ≡ out.old.items ++ spaced token.now) }
{
    out.extend_from_slice(token)?;
    out.push(b' ')?;
    Ok(())
}

// Adds a token and a line feed.
fn put_line(out: &mut Vec<u8>, token: &[u8]) -> Result<(), Memory>
    ensures { OnOk result (out.new.items ≡ out.old.items ++ line_of_token token.now) }
{
    out.extend_from_slice(token)?;
    out.push(b'\n')?;
    Ok(())
}

fn sign(op: Op) -> &'static [u8]
    ensures { result.now ≡ op_sign op }
{
    match op {
        Op::Add => b"+",
        Op::Sub => b"-",
        Op::Mul => b"*",
        Op::Div => b"/",
        Op::Rem => b"%",
        Op::Remu => b"remu",
        Op::And => b"&",
        Op::Or => b"|",
        Op::Xor => b"^",
        Op::Shl => b"<<",
        Op::Shr => b">>",
    }
}

fn comparison(cmp: Cmp) -> &'static [u8]
    ensures { result.now ≡ cmp_sign cmp }
{
    match cmp {
        Cmp::Eq => b"==",
        Cmp::Ne => b"!=",
        Cmp::Lt => b"<",
        Cmp::Le => b"<=",
        Cmp::Gt => b">",
        Cmp::Ge => b">=",
    }
}

fn keyword(label: Label) -> &'static [u8]
    ensures { result.now ≡ label_keyword label }
{
    match label {
        Label::Public => b"public",
        Label::Secret => b"secret",
    }
}

fn put_value(out: &mut Vec<u8>, value: i64) -> Result<(), Memory>
    ensures { OnOk result (out.new.items ≡ out.old.items ++ spaced (signed_decimal value)) }
{
    let mut buffer = Buffer::new();
    put(out, buffer.format(value).as_bytes())
}

fn put_expression(out: &mut Vec<u8>, e: &Expr) -> Result<(), Memory>
    ensures { OnOk result (out.new.items ≡ out.old.items ++ tree_text (expr_tree e.now)) }
{
    match e {
        Expr::Num(value) => put_value(out, *value),
        Expr::Var(name) => put(out, name.bytes()),
        Expr::Item(name, index) => {
            put(out, name.bytes())?;
            put(out, b"[")?;
            put_expression(out, index)?;
            put(out, b"]")
        }
        Expr::Bin(op, left, right) => {
            put(out, b"(")?;
            put_expression(out, left)?;
            put(out, sign(*op))?;
            put_expression(out, right)?;
            put(out, b")")
        }
    }
}

fn put_guard(out: &mut Vec<u8>, guard: &Guard) -> Result<(), Memory>
    ensures { OnOk result (out.new.items ≡ out.old.items ++ test_text (test_of guard.now)) }
{
    put(out, b"(")?;
    put_expression(out, &guard.left)?;
    put(out, comparison(guard.cmp))?;
    put_expression(out, &guard.right)?;
    put(out, b")")
}

#[cycle(put_statements)]
fn put_statement(out: &mut Vec<u8>, s: &Stmt) -> Result<(), Memory>
    ensures { OnOk result (out.new.items ≡ out.old.items ++ statement_text (statement_of s.now)) }
{
    match s {
        Stmt::Set(name, value) => {
            put(out, name.bytes())?;
            put(out, b"=")?;
            put_expression(out, value)?;
            put_line(out, b";")
        }
        Stmt::Put(name, index, value) => {
            put(out, name.bytes())?;
            put(out, b"[")?;
            put_expression(out, index)?;
            put(out, b"]")?;
            put(out, b"=")?;
            put_expression(out, value)?;
            put_line(out, b";")
        }
        Stmt::If(guard, first, second) => {
            put(out, b"if")?;
            put_guard(out, guard)?;
            put_body(out, first.as_slice())?;
            put(out, b"else")?;
            put_body(out, second.as_slice())
        }
        Stmt::While(guard, body) => {
            put(out, b"while")?;
            put_guard(out, guard)?;
            put_body(out, body.as_slice())
        }
    }
}

// Adds a block between braces.
#[cycle(put_statements)]
fn put_body(out: &mut Vec<u8>, statements: &[Stmt]) -> Result<(), Memory>
    ensures { OnOk result (out.new.items ≡ out.old.items ++ in_braces (block_text (block_of_all statements.now))) }
{
    put_line(out, b"{")?;
    put_block(out, statements)?;
    put_line(out, b"}")
}

#[cycle(put_statements)]
fn put_block(out: &mut Vec<u8>, statements: &[Stmt]) -> Result<(), Memory>
    ensures { OnOk result (out.new.items ≡ out.old.items ++ block_text (block_of_all statements.now)) }
{
    for statement in statements {
        put_statement(out, statement)?;
    }
    Ok(())
}

fn put_length(out: &mut Vec<u8>, length: u64) -> Result<(), Memory>
    ensures { OnOk result (out.new.items ≡ out.old.items ++ spaced (decimal length)) }
{
    let mut buffer = Buffer::new();
    put(out, buffer.format(length).as_bytes())
}

fn put_size(out: &mut Vec<u8>, size: Option<u64>) -> Result<(), Memory>
    ensures { OnOk result (out.new.items ≡ out.old.items ++ size_text size) }
{
    match size {
        None => Ok(()),
        Some(length) => {
            put(out, b"[")?;
            put_length(out, length)?;
            put(out, b"]")
        }
    }
}

fn put_declaration(out: &mut Vec<u8>, decl: &Decl) -> Result<(), Memory>
    ensures { OnOk result (out.new.items ≡ out.old.items ++ decl_text decl.now) }
{
    put(out, keyword(decl.label))?;
    put(out, b"int")?;
    put(out, decl.name.bytes())?;
    put_size(out, decl.length)?;
    put_line(out, b";")
}

fn put_declarations(out: &mut Vec<u8>, decls: &[Decl]) -> Result<(), Memory>
    ensures { OnOk result (out.new.items ≡ out.old.items ++ decls_text decls.now) }
{
    for decl in decls {
        put_declaration(out, decl)?;
    }
    Ok(())
}

/// The canonical text of a program: each operation is in parentheses, each `if` has a second block, a line feed follows
/// each `;`, `{` and `}`, and a space follows each other token.
pub fn print(alloc: Global, p: &Program) -> Result<Vec<u8>, Memory>
    ensures { IfOk result (λ text. text.items ≡ source_text (source_of p.now)) }
{
    let mut out = Vec::new(alloc);
    put_declarations(&mut out, p.decls.as_slice())?;
    put_block(&mut out, p.body.as_slice())?;
    Ok(out)
}
