ghost use Rattle.std.specs.Prelude.{◌≡◌, ◌-◌, ◌^◌, ◌<◌, ◌≤◌, IfOk, IfErr, drop, length, option_map};
ghost use Rattle.gr_base.specs.Prelude.{IfFault};
ghost use Rattle.src_tree.specs.Prelude.{expr_tree};
ghost use Rattle.src_parser.specs.Expressions.{FoundExpression, ExplainsExpression};
ghost use Rattle.src_parser.specs.Fails.{fail_of};
ghost use Rattle.src_parser.specs.Grammar.{limits};
ghost use Rattle.src_parser.specs.ReadTokens.{ended};
ghost use Rattle.src_parser.specs.Seen.{reading_of};

use crate::errors::{ParseError, ParseFault};
use crate::expressions::{finish, fresh, read};
use crate::readings::{Reading, TokenStep};
use gr_base::{Fail, Memory};
use src_lexer::{Kind, Token};
use src_tree::Expr;
use std::alloc::Global;

// The expression that was read, if it ends here.
fn last(alloc: Global, reading: &mut Reading) -> Result<Option<Expr>, Memory>
    ensures { IfOk result (λ e. option_map expr_tree e ≡ ended limits (reading_of reading.old)) }
{
    match read(alloc, reading, &Kind::Semi)? {
        TokenStep::Moves => Ok(None),
        TokenStep::Stops => Ok(finish(reading)),
        TokenStep::Deep => Ok(None),
    }
}

// Only this function drops the reading.
fn end(alloc: Global, mut reading: Reading) -> Result<Option<Expr>, Memory>
    ensures { IfOk result (λ e. option_map expr_tree e ≡ ended limits (reading_of reading)) }
{
    last(alloc, &mut reading)
}

// The expression at the beginning of the tokens, and its number of tokens.
pub(crate) fn expression(
    alloc: Global,
    tokens: &[Token],
    opened: u32,
    used: u32,
) -> Result<(Expr, usize), Fail<ParseFault>>
    requires { used ≤ 256 }
    ensures found { IfOk result (λ r. FoundExpression tokens.now opened used (expr_tree r.0) r.1) }
    ensures within { IfOk result (λ r. r.1 ≤ length tokens.now) }
    ensures refused { IfErr result (IfFault (λ fault. ExplainsExpression fault tokens.now opened used)) }
{
    let mut reading = fresh(alloc, opened, used);
    for (i, token) in tokens.iter().enumerate() {
        let Ok(step) = read(alloc, &mut reading, &token.kind) else {
            drop(reading);
            return Err(Fail::Memory);
        };
        match step {
            TokenStep::Moves => {}
            TokenStep::Stops => {
                let tree = finish(&mut reading);
                drop(reading);
                match tree {
                    Some(tree) => return Ok((tree, i)),
                    None => return Err(Fail::Fault(ParseFault::Unexpected(token.start))),
                }
            }
            TokenStep::Deep => {
                drop(reading);
                return Err(Fail::Fault(ParseFault::TooDeep(token.start)));
            }
        }
    }
    match end(alloc, reading)? {
        Some(tree) => Ok((tree, tokens.len())),
        None => Err(Fail::Fault(ParseFault::EndOfText)),
    }
}

/// The expression that begins with token number `from`, and the number of the token after it. It extends as far as the
/// tokens begin an expression, as if it were inside `opened` open brackets and signs of its statement, and after `used`
/// of the statement's operators and signs.
///
/// `TooDeep` names the first token that exceeds a limit of nesting. `Unexpected` names the first token with which no
/// expression can continue, if the tokens before it aren't one. `EndOfText` means that all tokens begin an expression
/// but aren't one. `Memory` says nothing about the tokens.
pub fn expr_at(
    alloc: Global,
    tokens: &[Token],
    from: u32,
    opened: u32,
    used: u32,
) -> Result<(Expr, u32), ParseError>
    requires few { length tokens.now < 2 ^ 32 }
    requires within { from ≤ length tokens.now }
    requires opened { opened ≤ 32 }
    requires used { used ≤ 256 }
    ensures behind { IfOk result (λ r. from ≤ r.1) }
    ensures found { IfOk result (λ r.
        FoundExpression (drop from tokens.now) opened used (expr_tree r.0) (r.1 - from)) }
    ensures refused { IfErr result (λ e.
        IfFault (λ fault. ExplainsExpression fault (drop from tokens.now) opened used) (fail_of e)) }
{
    let (_, rest) = tokens.split_at(from as usize);
    match expression(alloc, rest, opened, used) {
        Ok((tree, count)) => Ok((tree, from + count as u32)),
        Err(fail) => Err(ParseError::from(fail)),
    }
}
