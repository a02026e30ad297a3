ghost use Rattle.std.specs.Prelude.{◌≡◌, ◌<◌, ◌+◌, ◌-◌, ◌^◌, ◌∷◌, [], IfOk, pos, option_map};
ghost use Rattle.src_tree.specs.Prelude.{expr_tree, Operation, Number, Element};
ghost use Rattle.gr_word.specs.declared.operations.Op.TheVariants.{Sub};
ghost use Rattle.src_lexer.specs.declared.tokens.Kind.TheVariants.{Num, LParen, LBracket, Minus};
ghost use Rattle.src_parser.specs.Grammar.{limits, level_of, operator_of};
ghost use Rattle.src_parser.specs.Operands.{tree_joined, wanting, pending, closing, having, naming, reads, whole, Moves, Stops, At, Joins, Wanted, Given, Open, Index};
ghost use Rattle.src_parser.specs.Seen.{joint_of, stack_of, step_of, reading_of, frame_of};

use crate::putting::{push, put};
use crate::readings::{
    Joint, MAX_BRACKETS, MAX_OPERATORS, OperandState, Reading, TokenStep, Waiting,
};
use gr_base::Memory;
use gr_word::{Name, Op};
use src_lexer::Kind;
use src_tree::Expr;
use std::alloc::Global;
use std::mem;

// The operation of a sign between two operands.
pub(crate) fn operator(kind: &Kind) -> Option<Op>
    ensures { result ≡ operator_of kind.now }
{
    match kind {
        Kind::Plus => Some(Op::Add),
        Kind::Minus => Some(Op::Sub),
        Kind::Star => Some(Op::Mul),
        Kind::Slash => Some(Op::Div),
        Kind::Percent => Some(Op::Rem),
        Kind::Amp => Some(Op::And),
        Kind::Bar => Some(Op::Or),
        Kind::Caret => Some(Op::Xor),
        Kind::Shl => Some(Op::Shl),
        Kind::Shr => Some(Op::Shr),
        _ => None,
    }
}

// How tightly an operator binds its operands.
pub(crate) fn level(op: Op) -> u32
    ensures { result ≡ level_of op }
{
    match op {
        Op::Or => 0,
        Op::Xor => 1,
        Op::And => 2,
        Op::Shl | Op::Shr => 3,
        Op::Add | Op::Sub => 4,
        Op::Mul | Op::Div | Op::Rem | Op::Remu => 5,
    }
}

// An operation on two expressions.
fn operation(alloc: Global, op: Op, left: Expr, right: Expr) -> Result<Expr, Memory>
    ensures { IfOk result (λ e. expr_tree e ≡ Operation op (expr_tree left) (expr_tree right)) }
{
    Ok(Expr::Bin(op, Box::new(alloc, left)?, Box::new(alloc, right)?))
}

// The negative of an expression.
fn negated(alloc: Global, tree: Expr) -> Result<Expr, Memory>
    ensures { IfOk result (λ e. expr_tree e ≡ Operation Sub (Number (pos 0)) (expr_tree tree)) }
{
    operation(alloc, Op::Sub, Expr::Num(0), tree)
}

// Pushes the last waiting item again.
fn put_back(mut stack: Vec<Waiting>, last: Waiting, tree: Expr, depth: u32) -> Result<Joint, Memory>
    ensures { IfOk result (λ j. joint_of j ≡ Joins (frame_of last ∷ stack_of stack.items) (expr_tree tree) depth) }
{
    push(&mut stack, last)?;
    Ok(Joint { stack, tree, depth })
}

// Completes all operations and signs that wait for an operand and bind at this level or tighter: each takes what
// follows it as its operand, from the last on.
fn join(
    alloc: Global,
    least: u32,
    mut stack: Vec<Waiting>,
    mut tree: Expr,
    mut depth: u32,
) -> Result<Joint, Memory>
    ensures { IfOk result (λ j. joint_of j ≡ tree_joined least (stack_of stack.items) (expr_tree tree) depth) }
{
    while let Some(frame) = stack.pop() {
        match frame {
            Waiting::Sign(before) => {
                tree = negated(alloc, tree)?;
                depth = before;
            }
            Waiting::Pending(left, op) => {
                if least > level(op) {
                    return put_back(stack, Waiting::Pending(left, op), tree, depth);
                }
                tree = operation(alloc, op, left, tree)?;
            }
            Waiting::Open(before) => {
                return put_back(stack, Waiting::Open(before), tree, depth);
            }
            Waiting::Index(before, name) => {
                return put_back(stack, Waiting::Index(before, name), tree, depth);
            }
        }
    }
    Ok(Joint { stack, tree, depth })
}

// Opens a bracket, an index or a sign, if one more may be open.
fn opened(reading: &mut Reading, frame: Waiting, used: u32) -> Result<TokenStep, Memory>
    requires { reading.old.depth < 2 ^ 32 - 1 }
    ensures { IfOk result (λ s. step_of s (reading_of reading.new)
        ≡ Moves (At (frame_of frame ∷ stack_of reading.old.stack.items) (reading.old.depth + 1) used Wanted)) }
{
    push(&mut reading.stack, frame)?;
    reading.depth += 1;
    reading.used = used;
    put(&mut reading.operand, OperandState::Wanted);
    Ok(TokenStep::Moves)
}

fn bracket(reading: &mut Reading) -> Result<TokenStep, Memory>
    ensures { IfOk result (λ s. step_of s (reading_of reading.new)
        ≡ wanting limits (stack_of reading.old.stack.items) reading.old.depth reading.old.used LParen) }
{
    let (depth, used) = (reading.depth, reading.used);
    if depth >= MAX_BRACKETS {
        return Ok(TokenStep::Deep);
    }
    opened(reading, Waiting::Open(depth), used)
}

fn sign(reading: &mut Reading) -> Result<TokenStep, Memory>
    ensures { IfOk result (λ s. step_of s (reading_of reading.new)
        ≡ wanting limits (stack_of reading.old.stack.items) reading.old.depth reading.old.used Minus) }
{
    let (depth, used) = (reading.depth, reading.used);
    if depth >= MAX_BRACKETS {
        return Ok(TokenStep::Deep);
    }
    if used >= MAX_OPERATORS {
        return Ok(TokenStep::Deep);
    }
    opened(reading, Waiting::Sign(depth), used + 1)
}

fn number(reading: &mut Reading, value: i64) -> TokenStep
    ensures { step_of result (reading_of reading.new)
        ≡ wanting limits (stack_of reading.old.stack.items) reading.old.depth reading.old.used (Num value) }
{
    if value < 0 {
        put(&mut reading.operand, OperandState::Wanted);
        return TokenStep::Stops;
    }
    put(&mut reading.operand, OperandState::Given(Expr::Num(value)));
    TokenStep::Moves
}

// Reads a token where an operand is expected.
fn want(alloc: Global, reading: &mut Reading, kind: &Kind) -> Result<TokenStep, Memory>
    ensures { IfOk result (λ s. step_of s (reading_of reading.new)
        ≡ wanting limits (stack_of reading.old.stack.items) reading.old.depth reading.old.used kind.now) }
{
    match kind {
        Kind::Num(value) => Ok(number(reading, *value)),
        Kind::Word(name) => {
            let name = name.copy(alloc)?;
            put(&mut reading.operand, OperandState::Named(name));
            Ok(TokenStep::Moves)
        }
        Kind::LParen => bracket(reading),
        Kind::Minus => sign(reading),
        _ => {
            put(&mut reading.operand, OperandState::Wanted);
            Ok(TokenStep::Stops)
        }
    }
}

// Reads an operator after an operand.
fn pend(reading: &mut Reading, op: Op, joint: Joint) -> Result<TokenStep, Memory>
    ensures { IfOk result (λ s. step_of s (reading_of reading.new)
        ≡ pending limits op reading.old.used (joint_of joint)) }
{
    if reading.used >= MAX_OPERATORS {
        drop(joint);
        return Ok(TokenStep::Deep);
    }
    let Joint {
        mut stack,
        tree,
        depth,
    } = joint;
    push(&mut stack, Waiting::Pending(tree, op))?;
    reading.stack = stack;
    reading.depth = depth;
    reading.used += 1;
    put(&mut reading.operand, OperandState::Wanted);
    Ok(TokenStep::Moves)
}

// Stores the operand that was read.
fn give(reading: &mut Reading, stack: Vec<Waiting>, depth: u32, tree: Expr)
    ensures { reading_of reading.new ≡ At (stack_of stack.items) depth reading.old.used (Given (expr_tree tree)) }
{
    reading.stack = stack;
    reading.depth = depth;
    put(&mut reading.operand, OperandState::Given(tree));
}

// Pushes the last waiting item again; the expression ends before the token.
fn stay(
    reading: &mut Reading,
    mut stack: Vec<Waiting>,
    last: Waiting,
    depth: u32,
    tree: Expr,
) -> Result<TokenStep, Memory>
    ensures { IfOk result (λ s. step_of s (reading_of reading.new)
        ≡ Stops (At (frame_of last ∷ stack_of stack.items) depth reading.old.used (Given (expr_tree tree)))) }
{
    push(&mut stack, last)?;
    give(reading, stack, depth, tree);
    Ok(TokenStep::Stops)
}

fn element(alloc: Global, name: Name, index: Expr) -> Result<Expr, Memory>
    ensures { IfOk result (λ e. expr_tree e ≡ Element name (expr_tree index)) }
{
    Ok(Expr::Item(name, Box::new(alloc, index)?))
}

// Reads a token that isn't an operator after an operand in a bracket.
fn close_bracket(
    reading: &mut Reading,
    kind: &Kind,
    stack: Vec<Waiting>,
    before: u32,
    depth: u32,
    tree: Expr,
) -> Result<TokenStep, Memory>
    ensures { IfOk result (λ s. step_of s (reading_of reading.new)
        ≡ closing reading.old.used kind.now (Joins (Open before ∷ stack_of stack.items) (expr_tree tree) depth)) }
{
    match kind {
        Kind::RParen => {
            give(reading, stack, before, tree);
            Ok(TokenStep::Moves)
        }
        _ => stay(reading, stack, Waiting::Open(before), depth, tree),
    }
}

// Reads a token that isn't an operator after an operand in the index of an element.
fn close_index(
    alloc: Global,
    reading: &mut Reading,
    kind: &Kind,
    stack: Vec<Waiting>,
    before: u32,
    name: Name,
    depth: u32,
    tree: Expr,
) -> Result<TokenStep, Memory>
    ensures { IfOk result (λ s. step_of s (reading_of reading.new)
        ≡ closing reading.old.used kind.now (Joins (Index before name ∷ stack_of stack.items) (expr_tree tree) depth)) }
{
    match kind {
        Kind::RBracket => {
            give(reading, stack, before, element(alloc, name, tree)?);
            Ok(TokenStep::Moves)
        }
        _ => stay(reading, stack, Waiting::Index(before, name), depth, tree),
    }
}

// Reads a token that isn't an operator after an operand.
fn close(
    alloc: Global,
    reading: &mut Reading,
    kind: &Kind,
    joint: Joint,
) -> Result<TokenStep, Memory>
    ensures { IfOk result (λ s. step_of s (reading_of reading.new)
        ≡ closing reading.old.used kind.now (joint_of joint)) }
{
    let Joint {
        mut stack,
        tree,
        depth,
    } = joint;
    match stack.pop() {
        None => {
            give(reading, stack, depth, tree);
            Ok(TokenStep::Stops)
        }
        Some(Waiting::Open(before)) => close_bracket(reading, kind, stack, before, depth, tree),
        Some(Waiting::Index(before, name)) => {
            close_index(alloc, reading, kind, stack, before, name, depth, tree)
        }
        Some(Waiting::Sign(before)) => stay(reading, stack, Waiting::Sign(before), depth, tree),
        Some(Waiting::Pending(left, op)) => {
            stay(reading, stack, Waiting::Pending(left, op), depth, tree)
        }
    }
}

// Reads an operator after an operand, with everything that binds at least as tightly as the operator joined before it.
fn operate(alloc: Global, reading: &mut Reading, tree: Expr, op: Op) -> Result<TokenStep, Memory>
    ensures { IfOk result (λ s. step_of s (reading_of reading.new)
        ≡ pending limits op reading.old.used
        (tree_joined (level_of op) (stack_of reading.old.stack.items) (expr_tree tree) reading.old.depth)) }
{
    let stack = mem::replace(&mut reading.stack, Vec::new(alloc));
    let joint = join(alloc, level(op), stack, tree, reading.depth)?;
    pend(reading, op, joint)
}

// Reads a token after an operand that isn't an operator, with everything that waits for the operand joined before it.
#[tactic(auto, using(crate::proofs::PartRead::stops_whole))]
fn conclude(
    alloc: Global,
    reading: &mut Reading,
    tree: Expr,
    kind: &Kind,
) -> Result<TokenStep, Memory>
    ensures { IfOk result (λ s. step_of s (reading_of reading.new)
        ≡ closing reading.old.used kind.now
        (tree_joined 0 (stack_of reading.old.stack.items) (expr_tree tree) reading.old.depth)) }
{
    if reading.stack.is_empty() {
        put(&mut reading.operand, OperandState::Given(tree));
        return Ok(TokenStep::Stops);
    }
    let stack = mem::replace(&mut reading.stack, Vec::new(alloc));
    let joint = join(alloc, 0, stack, tree, reading.depth)?;
    close(alloc, reading, kind, joint)
}

// Reads a token after an operand.
fn have(alloc: Global, reading: &mut Reading, tree: Expr, kind: &Kind) -> Result<TokenStep, Memory>
    ensures { IfOk result (λ s. step_of s (reading_of reading.new)
        ≡ having limits (stack_of reading.old.stack.items) reading.old.depth reading.old.used (expr_tree tree) kind.now
        (operator_of kind.now)) }
{
    match operator(kind) {
        Some(op) => operate(alloc, reading, tree, op),
        None => conclude(alloc, reading, tree, kind),
    }
}

fn index(reading: &mut Reading, name: Name) -> Result<TokenStep, Memory>
    ensures { IfOk result (λ s. step_of s (reading_of reading.new)
        ≡ naming limits (stack_of reading.old.stack.items) reading.old.depth reading.old.used name LBracket) }
{
    let (depth, used) = (reading.depth, reading.used);
    if depth >= MAX_BRACKETS {
        return Ok(TokenStep::Deep);
    }
    opened(reading, Waiting::Index(depth, name), used)
}

// Reads a token after a name.
fn behind_name(
    alloc: Global,
    reading: &mut Reading,
    name: Name,
    kind: &Kind,
) -> Result<TokenStep, Memory>
    ensures { IfOk result (λ s. step_of s (reading_of reading.new)
        ≡ naming limits (stack_of reading.old.stack.items) reading.old.depth reading.old.used name kind.now) }
{
    match kind {
        Kind::LBracket => index(reading, name),
        _ => have(alloc, reading, Expr::Var(name), kind),
    }
}

/// The reading of an expression before its first token, as if it were inside `depth` open brackets and signs of its
/// statement, and after `used` of the statement's operators and signs.
pub fn fresh(alloc: Global, depth: u32, used: u32) -> Reading
    ensures { reading_of result ≡ At [] depth used Wanted }
{
    Reading {
        stack: Vec::new(alloc),
        depth,
        used,
        operand: OperandState::Wanted,
    }
}

/// Reads the next token of an expression. The token is read, or the expression ends before it, or it exceeds a limit of
/// nesting. After a limit was exceeded the reading is of no use; nor is it after `Memory`, which says nothing about the
/// tokens.
pub fn read(alloc: Global, reading: &mut Reading, kind: &Kind) -> Result<TokenStep, Memory>
    ensures { IfOk result (λ s. step_of s (reading_of reading.new) ≡ reads limits (reading_of reading.old) kind.now) }
{
    match mem::replace(&mut reading.operand, OperandState::Wanted) {
        OperandState::Wanted => want(alloc, reading, kind),
        OperandState::Named(name) => behind_name(alloc, reading, name, kind),
        OperandState::Given(tree) => have(alloc, reading, tree, kind),
    }
}

/// Takes the complete expression out of the reading, or returns `None` if it has none.
pub fn finish(reading: &mut Reading) -> Option<Expr>
    ensures { option_map expr_tree result ≡ whole (reading_of reading.old) }
{
    if !reading.stack.is_empty() {
        return None;
    }
    match mem::replace(&mut reading.operand, OperandState::Wanted) {
        OperandState::Given(tree) => Some(tree),
        OperandState::Named(_name) => None,
        OperandState::Wanted => None,
    }
}
