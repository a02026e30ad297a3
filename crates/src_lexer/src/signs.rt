ghost use Rattle.std.specs.Prelude.{◌≡◌};
ghost use Rattle.src_lexer.specs.Pieces.{sign_of, pair_of};
ghost use Rattle.src_lexer.specs.Seen.{pair_seen};

use crate::tokens::Kind;

// Two bytes together: a sign, the start of a comment, or neither.
#[derive(Drop)]
pub(crate) enum Pair {
    Two(Kind),
    Slashes,
    Apart,
}

// The sign that consists of this byte.
#[tactic(auto, unfolding(crate::specs::Pieces::sign_of))]
pub(crate) fn single(byte: u8) -> Option<Kind>
    ensures { result ≡ sign_of byte }
{
    match byte {
        b'(' => Some(Kind::LParen),
        b')' => Some(Kind::RParen),
        b'[' => Some(Kind::LBracket),
        b']' => Some(Kind::RBracket),
        b'{' => Some(Kind::LBrace),
        b'}' => Some(Kind::RBrace),
        b';' => Some(Kind::Semi),
        b'=' => Some(Kind::Assign),
        b'<' => Some(Kind::Lt),
        b'>' => Some(Kind::Gt),
        b'+' => Some(Kind::Plus),
        b'-' => Some(Kind::Minus),
        b'*' => Some(Kind::Star),
        b'/' => Some(Kind::Slash),
        b'%' => Some(Kind::Percent),
        b'&' => Some(Kind::Amp),
        b'|' => Some(Kind::Bar),
        b'^' => Some(Kind::Caret),
        _ => None,
    }
}

// Classifies two bytes together.
#[tactic(auto, unfolding(crate::specs::Pieces::pair_of))]
pub(crate) fn together(first: u8, second: u8) -> Pair
    ensures { pair_seen result ≡ pair_of first second }
{
    if second == b'=' {
        return match first {
            b'=' => Pair::Two(Kind::Eq),
            b'!' => Pair::Two(Kind::Ne),
            b'<' => Pair::Two(Kind::Le),
            b'>' => Pair::Two(Kind::Ge),
            _ => Pair::Apart,
        };
    }
    if first != second {
        return Pair::Apart;
    }
    match first {
        b'<' => Pair::Two(Kind::Shl),
        b'>' => Pair::Two(Kind::Shr),
        b'/' => Pair::Slashes,
        _ => Pair::Apart,
    }
}
