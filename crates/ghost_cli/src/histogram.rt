ghost use Rattle.std.specs.Prelude.{◌≡◌, ◌<◌, ◌≤◌, IfErr, IfOk, false, length, map, pos, replicate, string_bytes};
ghost use Rattle.gr_base.specs.Prelude.{Within};
ghost use Rattle.gr_word.specs.Prelude.{AreWords, words_at};
ghost use Rattle.src_tree.specs.Prelude.{source_of};
ghost use Rattle.call_steps.specs.Prelude.{next_number, histogram_numbers, sample_inputs, sample_text, sample_words, sum_of, SpellsTyped};
ghost use Rattle.call_replies.specs.Prelude.{no_memory, said};

use call_replies::replies::Reply;
use call_steps::sources::source_in;
use flow_types::Typed;
use gr_base::Memory;
use gr_word::{Inputs, Want};
use std::alloc::Global;

/// The logarithm of a block's words in the machine that a sample is compiled for.
pub(crate) const SAMPLE_BLOCK_LOG: u8 = 9;

/// The most cycles of a sample's run, and the most turns of its program.
pub(crate) const SAMPLE_CYCLES: u32 = 4_294_967_295;

/// The number of the variable of the counts, in the order of declaration.
const COUNTS: usize = 2;

/// The sample's program for this many items, which counts how often each remainder by 16 occurs among them. The only
/// error is running out of memory.
pub(crate) fn sample_program<'a>(alloc: Global, items: u32) -> Result<Typed, Reply<'a>>
    requires { Within 1 65536 items }
    ensures spells { IfOk result (λ p. SpellsTyped false (sample_text items) (source_of p)) }
    ensures starved { IfErr result (λ reply. said reply ≡ no_memory) }
{
    let text = text_of(alloc, items)?;
    source_in(alloc, text.as_bytes(), false)
}

#[tactic(auto, unfolding(call_steps::specs::Histogram::sample_text))]
fn text_of(alloc: Global, items: u32) -> Result<String, Memory>
    ensures { IfOk result (λ text. string_bytes text ≡ sample_text items) }
{
    match format!(in alloc;
        "public int i;\nsecret int a[{items}];\nsecret int c[16];\nsecret int t;\ni = 0;\nwhile (i < {items}) {{ t = a[i] % 16; c[t] = c[t] + 1; i = i + 1; }}\n"
    ) {
        Ok(text) => Ok(text),
        Err(_) => Err(Memory),
    }
}

/// The sample's input for variables: numbers for the one that is named `a`, and zeros for every other.
pub(crate) fn sample_inputs(alloc: Global, wants: &[Want]) -> Result<Inputs, Memory>
    ensures { IfOk result (λ inputs. inputs ≡ sample_inputs wants.now) }
{
    let mut inputs = Inputs::new(alloc);
    for want in wants {
        inputs.push(words_for(alloc, want)?)?;
    }
    Ok(inputs)
}

fn words_for(alloc: Global, want: &Want) -> Result<Vec<i64>, Memory>
    ensures { IfOk result (λ words. words.items ≡ sample_words want.now) }
{
    if want.name.bytes() == b"a".as_slice() {
        return numbers(alloc, want.length);
    }
    Ok(vec![in alloc; 0; want.length as usize]?)
}

/// So many numbers, each made of the one before.
fn numbers(alloc: Global, count: u32) -> Result<Vec<i64>, Memory>
    ensures { IfOk result (λ words. words.items ≡ histogram_numbers count) }
{
    let mut words = Vec::with_capacity(alloc, count as usize)?;
    let mut last = 1;
    for _ in 0..count {
        last = next_number(last);
        words.push(i64::from(last))?;
    }
    Ok(words)
}

/// The number that another makes.
fn next_number(last: u32) -> u32
    requires { last < 2147483648 }
    ensures value { result ≡ next_number last }
    ensures small { result < 2147483648 }
{
    ((u64::from(last) * 1_103_515_245 + 12_345) % (1 << 31)) as u32
}

/// The sum of the counts that the sample's program leaves in its variables.
pub(crate) fn sum_of_counts(values: &Inputs) -> i128
    requires counts { 2 < length values.now }
    requires short { length (words_at values.now 2) ≤ 65536 }
    requires words { AreWords (words_at values.now 2) }
    ensures { result ≡ sum_of (words_at values.now 2) }
{
    let mut sum = 0;
    for count in values.words(COUNTS) {
        sum += i128::from(*count);
    }
    sum
}
