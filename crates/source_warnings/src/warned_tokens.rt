//! The tokens that the warnings of an accepted source need: its first ones, or all.
//!
//! The first tokens have all declarations. If they also have the uses of the variables that matter, only a number that
//! is out of range can give one more warning. The rest of the text is searched for one, which is faster than its tokens.

use crate::warnings::variables_of;
use fault_texts::piece;
use gr_base::Memory;
use source_tokens::{Procedures, SOURCE_BYTES, Tokens};
use src_lexer::{Lexer, Token};
use std::alloc::Global;

// The most tokens of a warning of a number: `[`, a minus, the number, and `]`.
const NUMBER_TOKENS: usize = 4;

/// The tokens of an accepted source, without those after its first ones if these can't matter to a warning.
pub(crate) fn tokens_to_warn(alloc: Global, name: &str, text: &[u8]) -> Result<Vec<Token>, Memory> {
    if text.len() > SOURCE_BYTES {
        return Err(Memory);
    }
    let mut lexer = Lexer::new(alloc, text);
    let mut tokens = more_tokens(alloc, &mut lexer)?;
    let all = tokens.as_slice();
    if !needs_others(alloc, Tokens { name, text, all })? {
        return Ok(tokens);
    }
    for _ in text {
        let more = more_tokens(alloc, &mut lexer)?;
        if more.is_empty() {
            break;
        }
        for token in more {
            tokens.push(token)?;
        }
    }
    Ok(tokens)
}

fn more_tokens(alloc: Global, lexer: &mut Lexer<'_>) -> Result<Vec<Token>, Memory> {
    match lexer.next(alloc) {
        Ok(tokens) => Ok(tokens),
        Err(_) => Err(Memory),
    }
}

// Whether the tokens after these may matter to a warning. Errs on the side of a warning.
fn needs_others(alloc: Global, tokens: Tokens<'_>) -> Result<bool, Memory> {
    let main = tokens.end_of_declarations();
    let seen = tokens.all.len().saturating_sub(NUMBER_TOKENS);
    if seen <= main || tokens.begins_procedure(main) {
        return Ok(true);
    }
    let variables = variables_of(alloc, &Procedures::of(alloc, tokens)?)?;
    if !variables.are_settled() {
        return Ok(true);
    }
    let rest = piece(tokens.text, tokens.start(seen), tokens.text.len());
    Ok(may_warn(rest, variables.least_length(tokens)))
}

// Whether a number in a part of an accepted source may be out of its range. `length` is the least of an array.
fn may_warn(text: &[u8], length: u64) -> bool {
    let mut is_comment = false;
    for (at, byte) in text.iter().enumerate() {
        if is_comment {
            is_comment = *byte != b'\n';
        } else if matches!(*byte, b'/' | b'%' | b'<' | b'>' | b'[') {
            let rest = piece(text, at, text.len());
            is_comment = matches!(rest, [b'/', b'/', ..]);
            if !is_comment && sign_may_warn(rest, length) {
                return true;
            }
        }
    }
    false
}

// The same for the sign at the beginning of a text: a division by 0, a shift by more than 63, or an index.
fn sign_may_warn(text: &[u8], length: u64) -> bool {
    match text {
        [b'/' | b'%', operand @ ..] => may_be(operand, 0, 0),
        [b'<', b'<', operand @ ..] => may_be(operand, 64, u64::MAX),
        [b'>', b'>', operand @ ..] => may_be(operand, 64, u64::MAX),
        [b'[', operand @ ..] => may_be(operand, length, u64::MAX),
        _ => false,
    }
}

// Whether an operand is a number of a range. It may be one after a minus or a comment.
fn may_be(operand: &[u8], least: u64, most: u64) -> bool {
    let blank = operand
        .iter()
        .take_while(|byte| matches!(**byte, b' ' | b'\t' | b'\r' | b'\n'))
        .count();
    let operand = piece(operand, blank, operand.len());
    match operand.first() {
        Some(b'-' | b'/') => true,
        Some(byte) if byte.is_ascii_digit() => {
            let number = number_at(operand);
            least <= number && number <= most
        }
        _ => false,
    }
}

// The number at the beginning of a text.
fn number_at(text: &[u8]) -> u64 {
    let mut number = 0u64;
    for byte in text {
        if !byte.is_ascii_digit() {
            break;
        }
        number = number
            .saturating_mul(10)
            .saturating_add(u64::from(byte.saturating_sub(b'0')));
    }
    number
}
