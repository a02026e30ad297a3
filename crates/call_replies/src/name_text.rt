ghost use Rattle.std.specs.Prelude.{◌≡◌, ◌<◌, ◌≤◌, ◌++◌, ◌∷◌, [], IfOk, OnOk, string_bytes};
ghost use Rattle.std.specs.Char.{digit_char};
ghost use Rattle.call_replies.specs.NameText.{escaped_char, escaped_unit, is_hidden, shown_char, without_hidden};

use std::alloc::{AllocError, Global};

/// A text in which each character that acts on a terminal or can't be seen is a JSON escape, as `\u202e`.
pub fn without_hidden(alloc: Global, text: &str) -> Result<String, AllocError>
    ensures { IfOk result (λ shown. string_bytes shown ≡ without_hidden text.now) }
{
    let mut shown = String::new(alloc);
    for letter in text.chars() {
        push_shown(letter, &mut shown)?;
    }
    Ok(shown)
}

fn push_shown(letter: char, shown: &mut String) -> Result<(), AllocError>
    ensures { OnOk result (string_bytes shown.new ≡ string_bytes shown.old ++ shown_char letter) }
{
    if is_hidden(letter) {
        push_escaped(letter as u32, shown)
    } else {
        shown.push(letter)
    }
}

// Whether a character acts on a terminal or can't be seen.
fn is_hidden(letter: char) -> bool
    ensures { result ≡ is_hidden letter }
{
    let code = letter as u32;
    let ranges: [(u32, u32); 19] = [
        (0, 31),
        (127, 159),
        (173, 173),
        (847, 847),
        (1564, 1564),
        (4447, 4448),
        (6068, 6069),
        (6155, 6159),
        (8203, 8207),
        (8232, 8238),
        (8288, 8303),
        (12644, 12644),
        (65024, 65039),
        (65279, 65279),
        (65440, 65440),
        (65520, 65531),
        (113824, 113827),
        (119155, 119162),
        (917504, 921599),
    ];
    ranges
        .iter()
        .any(|range| range.0 <= code && code <= range.1)
}

// Adds the JSON escape of a character: one unit of UTF-16, or two.
fn push_escaped(code: u32, shown: &mut String) -> Result<(), AllocError>
    requires { code < 1114112 }
    ensures { OnOk result (string_bytes shown.new ≡ string_bytes shown.old ++ escaped_char code) }
{
    if code <= 65535 {
        return push_unit(code, shown);
    }
    let above = code - 65536;
    push_unit(55296 + above / 1024, shown)?;
    push_unit(56320 + above % 1024, shown)
}

fn push_unit(unit: u32, shown: &mut String) -> Result<(), AllocError>
    requires { unit ≤ 65535 }
    ensures { OnOk result (string_bytes shown.new ≡ string_bytes shown.old ++ escaped_unit unit) }
{
    shown.push_str("\\u")?;
    push_digit(unit / 4096, shown)?;
    push_digit(unit / 256 % 16, shown)?;
    push_digit(unit / 16 % 16, shown)?;
    push_digit(unit % 16, shown)
}

fn push_digit(digit: u32, shown: &mut String) -> Result<(), AllocError>
    requires { digit < 16 }
    ensures { OnOk result (string_bytes shown.new ≡ string_bytes shown.old ++ digit_char digit ∷ []) }
{
    match char::from_digit(digit, 16) {
        Some(letter) => shown.push(letter),
        None => Ok(()),
    }
}
