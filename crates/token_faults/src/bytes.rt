//! Bytes that begin no token, and what is meant by them, as one table.

use fault_texts::{Source, Words, is_word_of, piece, spot_at};
use gr_base::Memory;
use source_tokens::hints::{FOR, LISTS, OUTPUT, PRINTING, PROCEDURE, SWITCH};
use source_tokens::{Tokens, tokens_of};
use std::alloc::Global;

/// What is meant by some texts: the first words of the statement and the token before it, each one of some words, or
/// any if there is no word; the texts, of which the file continues with one; and how to write it here.
type Text = [&'static str; 4];

/// The first words of functions of C.
const TYPES: &str =
    "int void public secret char long short unsigned signed float double bool static";

const TEXTS: &[Text] = &[
    ["for", "", "", FOR],
    ["def fn func function", "", ":", PROCEDURE],
    [PRINTING, "", "\" ' .", OUTPUT],
    ["", "", ":=", "An assignment is written with `=`: `x = 1;`."],
    [
        "if while for elif else",
        "",
        ":",
        "A condition is in parentheses, and a block in braces: `if (x > 0) { x = 1; }`.",
    ],
    ["switch case default", "", ":", SWITCH],
    ["", "", ":", "There are no labels and no jumps."],
    [
        "",
        "",
        "?",
        "There is no `? :`: write `if (..) { x = 1; } else { x = 2; }`.",
    ],
    [
        "",
        "",
        "#define #undef",
        "There is no preprocessor: write the number in place of its name.",
    ],
    [
        "",
        "",
        "#include #if #ifdef #ifndef #else #endif #pragma",
        "There is no preprocessor: delete this line.",
    ],
    [
        "",
        "",
        "#",
        "A comment begins with `//` and ends with its line.",
    ],
    [
        "",
        "",
        "!",
        "There is no `!`: compare with `!=`, or swap the two blocks of the `if`.",
    ],
    [
        "public secret int",
        "",
        ",",
        "There is no comma: declare each variable separately, `public int x; public int y;`.",
    ],
    [
        "",
        "",
        ",",
        "There is no comma: write separate statements, `x = 1; y = 2;`.",
    ],
    [
        "",
        "",
        ".",
        "Numbers are integers, and there are no structures.",
    ],
    [
        "",
        "",
        "\" ' \u{201c} \u{201d} \u{2018} \u{2019}",
        "There are no characters and no strings: write the number.",
    ],
    ["", "", "~", "There is no `~`: write `-x - 1`."],
    ["", "0", "x X", "Numbers are decimal: write 31 for `0x1f`."],
    [
        "",
        "0",
        "b B o O",
        "Numbers are decimal: write 3 for `0b11`.",
    ],
    [
        "",
        "",
        "\u{2212} \u{2013} \u{2014}",
        "This dash isn't ASCII: write `-`.",
    ],
    [
        "",
        "",
        "\u{2264} \u{2265} \u{2260}",
        "Comparisons are written `<=`, `>=` and `!=`.",
    ],
    [
        "",
        "",
        "\u{feff}",
        "This is a byte order mark, which isn't allowed: remove it, with `tail -c +4`.",
    ],
    [
        "",
        "",
        "\u{a0} \u{3000} \u{200b}",
        "This space isn't ASCII: write a plain space.",
    ],
];

// What is meant where no text of the table is found.
fn of_byte(byte: u8) -> &'static str {
    match byte {
        b'a'..=b'z' | b'A'..=b'Z' | b'_' => {
            "A letter directly follows a number: numbers are decimal, and names begin with a letter or `_`."
        }
        128..=255 => "A source is ASCII. Other characters are only allowed in comments.",
        _ => "This character is only allowed in comments.",
    }
}

fn is_among(words: &str, token: &[u8]) -> bool {
    words.is_empty() || is_word_of(words, token)
}

// Whether a text begins with one of some words.
fn begins_with(words: &str, text: &[u8]) -> bool {
    for word in words.split(" ") {
        if piece(text, 0, word.len()) == word.as_bytes() {
            return true;
        }
    }
    false
}

// What is meant by the rest of a text, after the tokens before it.
fn said_of(alloc: Global, tokens: Tokens<'_>, rest: &[u8]) -> Result<&'static str, Memory> {
    let end = tokens.all.len();
    if begins_with(",", rest)
        && let Some(open) = tokens.innermost(alloc, end)?
    {
        if tokens.before(open) == b"=".as_slice() {
            return Ok(LISTS);
        }
        if tokens.is(open, "(") && is_among(TYPES, tokens.word(tokens.first_of(open))) {
            return Ok(PROCEDURE);
        }
        if tokens.is(open, "(") && !is_among(PRINTING, tokens.before(open)) {
            return Ok(
                "There is no comma: parameters and arguments are separated by `;`, as in `f(x; y);`.",
            );
        }
    }
    let first = tokens.word(tokens.first_of(end));
    for text in TEXTS {
        let [begins, before, starts, sentence] = *text;
        if is_among(begins, first)
            && is_among(before, tokens.before(end))
            && begins_with(starts, rest)
        {
            return Ok(sentence);
        }
    }
    Ok(of_byte(rest.first().copied().unwrap_or(0)))
}

/// Explains a byte that begins no token.
pub fn explain_byte(alloc: Global, source: Source<'_>, at: usize, out: &mut Words) {
    let Source { name, text } = source;
    let front = piece(text, 0, at);
    let rest = piece(text, at, text.len());
    let Ok(all) = tokens_of(alloc, front) else {
        return out.starve();
    };
    let tokens = Tokens {
        name,
        text: front,
        all: all.as_slice(),
    };
    match said_of(alloc, tokens, rest) {
        Ok(sentence) => put_byte(source, at, sentence, out),
        Err(_) => out.starve(),
    }
}

// The place of a byte, the character that begins there, and how to fix it.
fn put_byte(source: Source<'_>, at: usize, hint: &str, out: &mut Words) {
    let spot = spot_at(source.text, at);
    out.put_place(source.name, spot);
    match character_of(piece(source.text, at, 4)) {
        Some(c) if ' ' <= c && c <= '~' => {
            out.say("unexpected `");
            out.quote(&[c as u8]);
            out.say("`");
        }
        Some(c) => out.escape("unexpected character U+", u32::from(c), 4, ""),
        None => {
            let byte = source.text.get(at).copied().unwrap_or(0);
            out.escape("unexpected byte 0x", u32::from(byte), 2, "");
        }
    }
    out.put_line(source.text, spot);
    out.line(hint);
}

// The character that begins some bytes, if they begin with one.
fn character_of(bytes: &[u8]) -> Option<char> {
    for size in 1..5usize {
        if let Ok(text) = std::str::from_utf8(piece(bytes, 0, size)) {
            return text.chars().next();
        }
    }
    None
}
