ghost use Rattle.std.specs.Prelude.{◌≡◌, ◌<◌, ◌≤◌, true, length, slice_index, bytes_eq, IfOk, IsTrue};
ghost use Rattle.std.specs.Char.{is_ascii_digit};
ghost use Rattle.std.specs.List.{prefix_len, list_all};
ghost use Rattle.gr_word.specs.Prelude.{is_name_byte, is_name};
ghost use Rattle.src_lexer.specs.Pieces.{number_run, word_run, letter_run_of, Is};
ghost use Rattle.src_lexer.specs.Seen.{run_seen, MixedWithin};

use crate::known_names::KnownNames;
use crate::tokens::Kind;
use gr_base::Memory;
use gr_base::numerals::number_capped;
use std::alloc::Global;

// A run of letters, digits and `_`, classified.
#[derive(Drop)]
pub(crate) enum Run {
    Is(Kind),
    Big,
    Long,
    Mixed(usize),
}

// The greatest number.
const MOST: u64 = 9_223_372_036_854_775_807;

// The most bytes of a name.
const NAME_BYTES: usize = 32;

// How many digits come first in a run.
fn digits(run: &[u8]) -> usize
    ensures { result ≡ prefix_len is_ascii_digit run.now }
{
    run.iter().take_while(|byte| byte.is_ascii_digit()).count()
}

// A run that starts with a digit.
#[tactic(auto, unfolding(crate::specs::Pieces::number_run))]
fn number(run: &[u8]) -> Run
    ensures value { run_seen result ≡ number_run run.now }
    ensures within { MixedWithin (length run.now) result }
{
    let count = digits(run);
    let value = number_capped(MOST + 1, &run[..count]);
    if value > MOST {
        return Run::Big;
    }
    if count == run.len() {
        return Run::Is(Kind::Num(value as i64));
    }
    Run::Mixed(count)
}

// A run of one digit, as most numbers are.
#[tactic(auto, using(crate::proofs::OneDigit::one_digit_run))]
fn one_digit(run: &[u8]) -> Run
    requires one { length run.now ≡ 1 }
    requires digit { is_ascii_digit (slice_index run.now 0) ≡ true }
    ensures value { run_seen result ≡ number_run run.now }
    ensures within { MixedWithin (length run.now) result }
{
    Run::Is(Kind::Num(i64::from(run[0] - b'0')))
}

// Whether two words are equal.
fn same(a: &[u8], b: &[u8]) -> bool
    ensures { result ≡ bytes_eq a.now b.now }
{
    a == b
}

// Any other run.
#[tactic(auto, unfolding(crate::specs::Pieces::word_run))]
fn word<'a>(alloc: Global, names: &mut KnownNames<'a>, run: &'a [u8]) -> Result<Run, Memory>
    requires { length run.now ≤ 32 → IsTrue (is_name run.now) }
    ensures value { IfOk result (λ r. run_seen r ≡ word_run run.now) }
    ensures within { IfOk result (MixedWithin (length run.now)) }
{
    if same(run, b"public") {
        return Ok(Run::Is(Kind::Public));
    }
    if same(run, b"secret") {
        return Ok(Run::Is(Kind::Secret));
    }
    if same(run, b"int") {
        return Ok(Run::Is(Kind::Int));
    }
    if same(run, b"if") {
        return Ok(Run::Is(Kind::If));
    }
    if same(run, b"else") {
        return Ok(Run::Is(Kind::Else));
    }
    if same(run, b"while") {
        return Ok(Run::Is(Kind::While));
    }
    if run.len() > NAME_BYTES {
        return Ok(Run::Long);
    }
    Ok(Run::Is(Kind::Word(names.name_of(alloc, run)?)))
}

// Classifies a run.
pub(crate) fn classify<'a>(
    alloc: Global,
    names: &mut KnownNames<'a>,
    run: &'a [u8],
) -> Result<Run, Memory>
    requires some { 0 < length run.now }
    requires each { list_all is_name_byte run.now ≡ true }
    ensures value { IfOk result (λ r. run_seen r ≡ letter_run_of run.now) }
    ensures within { IfOk result (MixedWithin (length run.now)) }
{
    if run[0].is_ascii_digit() {
        if run.len() == 1 {
            return Ok(one_digit(run));
        }
        return Ok(number(run));
    }
    word(alloc, names, run)
}
