ghost use Rattle.std.specs.Prelude.{◌≡◌, ◌≤◌, ◌<◌, map, take, ◌==◌, ◌∷◌, [], length, true, false, IfSome, MatchOption, not};
ghost use Rattle.std.specs.List.{prefix_len};
ghost use Rattle.lt_assembler.specs.Lines.{is_blank, is_ascii_line};
ghost use Rattle.lt_assembler.specs.LineParts.{first_line, line_words, behind_line, is_part, is_comment};

use crate::numbers::but_first;

/// How many bytes come before the first line feed.
fn line_len(text: &[u8]) -> usize
    ensures { result ≡ prefix_len (λ byte. not (byte == 10)) text.now }
{
    text.iter().take_while(|byte| **byte != b'\n').count()
}

/// The text after the first line.
pub fn behind_line(text: &[u8]) -> &[u8]
    ensures { result.now ≡ behind_line text.now }
{
    let (_, rest) = text.split_at(line_len(text));
    but_first(rest)
}

fn is_blank(byte: u8) -> bool
    ensures { result ≡ is_blank byte }
{
    byte == b' ' || byte == b'\t'
}

/// Whether a byte is ASCII and neither separates words nor ends them.
fn is_part(byte: u8) -> bool
    ensures { result ≡ is_part byte }
{
    !is_blank(byte) && byte != b';' && byte != b'\n' && byte.is_ascii()
}

/// Whether a byte is ASCII and doesn't end the line.
fn is_comment(byte: u8) -> bool
    ensures { result ≡ is_comment byte }
{
    byte != b'\n' && byte.is_ascii()
}

fn blank_len(text: &[u8]) -> usize
    ensures { result ≡ prefix_len is_blank text.now }
{
    text.iter().take_while(|byte| is_blank(**byte)).count()
}

fn part_len(text: &[u8]) -> usize
    ensures { result ≡ prefix_len is_part text.now }
{
    text.iter().take_while(|byte| is_part(**byte)).count()
}

fn comment_len(text: &[u8]) -> usize
    ensures { result ≡ prefix_len is_comment text.now }
{
    text.iter().take_while(|byte| is_comment(**byte)).count()
}

/// The next word of the first line of a text, and the text after the word.
fn next_word(text: &[u8]) -> Option<(&[u8], &[u8])>
    ensures words { is_ascii_line (first_line text.now) ≡ true →
        MatchOption result (line_words text.now ≡ []) (λ x. line_words text.now ≡ x.0.now ∷ line_words x.1.now) }
    ensures ascii { IfSome result (λ x. is_ascii_line (first_line text.now) ≡ is_ascii_line (first_line x.1.now)) }
    ensures behind { IfSome result (λ x. behind_line text.now ≡ behind_line x.1.now) }
    ensures less { IfSome result (λ x. length x.1.now < length text.now) }
{
    let (_, words) = text.split_at(blank_len(text));
    let len = part_len(words);
    if len == 0 {
        return None;
    }
    Some(words.split_at(len))
}

/// The text after the first line, if that line is ASCII.
fn behind_ascii(text: &[u8]) -> Option<&[u8]>
    ensures { MatchOption result (is_ascii_line (first_line text.now) ≡ false)
        (λ x. (is_ascii_line (first_line text.now) ≡ true) × (behind_line text.now ≡ x.now)) }
{
    let (_, end) = text.split_at(comment_len(text));
    match end {
        [] => Some(end),
        [first, behind @ ..] => { if *first == b'\n' { Some(behind) } else { None } }
    }
}

/// The most words of a line that has a form.
pub const MOST_WORDS: usize = 10;

/// Splits the first line of a text into words, in one pass. Returns how many there are and the text after the line, or
/// `None` if the line isn't ASCII or has more than ten words.
pub fn split_line<'a>(
    text: &'a [u8],
    list: &mut [&'a [u8]; MOST_WORDS],
) -> Option<(usize, &'a [u8])>
    ensures split { MatchOption result
        (is_ascii_line (first_line text.now) ≡ true → 10 < length (line_words text.now))
        (λ x. (is_ascii_line (first_line text.now) ≡ true)
        × (map (λ w. w.now) (take x.0 list.new) ≡ line_words text.now)) }
    ensures few { IfSome result (λ x. x.0 ≤ 10) }
    ensures behind { IfSome result (λ x. x.1.now ≡ behind_line text.now) }
{
    let mut rest = text;
    let mut count = 0;
    while let Some((word, behind)) = next_word(rest) {
        if count == MOST_WORDS {
            return None;
        }
        list[count] = word;
        count += 1;
        rest = behind;
    }
    let behind = behind_ascii(rest)?;
    Some((count, behind))
}
