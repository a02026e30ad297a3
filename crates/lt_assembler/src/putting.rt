ghost use Rattle.std.specs.Prelude.{◌≡◌, ◌<◌, ◌∷◌, ◌++◌, flat_map, OnOk, decimal, codes};
ghost use Rattle.std.specs.Fmt.{signed_decimal};
ghost use Rattle.lt_isa.specs.Prelude.{op_word, cmp_word};
ghost use Rattle.lt_assembler.specs.Words.{label_word, shape_word, register_word, bank_word, claim_word, hex_digit, hex_word, offset_word};

use gr_word::{Label, Memory, Shape};
use itoa::Buffer;
use lt_isa::ranges::ANY_BANK;
use lt_isa::{BankKind, bank_kind};

/// The word of a label.
pub fn label_word(label: Label) -> &'static [u8]
    ensures { result.now ≡ label_word label }
{
    match label {
        Label::Public => b"public",
        Label::Secret => b"secret",
    }
}

/// The word of a shape.
pub fn shape_word(shape: Shape) -> &'static [u8]
    ensures { result.now ≡ shape_word shape }
{
    match shape {
        Shape::Scalar => b"scalar",
        Shape::Array => b"array",
    }
}

/// Adds bytes.
pub fn put(out: &mut Vec<u8>, bytes: &[u8]) -> Result<(), Memory>
    ensures { OnOk result (out.new.items ≡ out.old.items ++ bytes.now) }
{
    out.extend_from_slice(bytes)?;
    Ok(())
}

/// Adds a space and a word.
pub fn put_word(out: &mut Vec<u8>, word: &[u8]) -> Result<(), Memory>
    ensures { OnOk result (out.new.items ≡ out.old.items ++ 32 ∷ word.now) }
{
    out.push(b' ')?;
    put(out, word)
}

/// Adds a space and a number.
pub fn put_number(out: &mut Vec<u8>, number: u32) -> Result<(), Memory>
    ensures { OnOk result (out.new.items ≡ out.old.items ++ 32 ∷ decimal number) }
{
    let mut buffer = Buffer::new();
    put_word(out, buffer.format(number).as_bytes())
}

/// Adds numbers, each after a space.
pub fn put_numbers(out: &mut Vec<u8>, numbers: &[u32]) -> Result<(), Memory>
    ensures { OnOk result (out.new.items ≡ out.old.items ++ flat_map (λ number. 32 ∷ decimal number) numbers.now) }
{
    for number in numbers {
        put_number(out, *number)?;
    }
    Ok(())
}

/// Adds a space and a constant.
pub fn put_constant(out: &mut Vec<u8>, value: i64) -> Result<(), Memory>
    ensures { OnOk result (out.new.items ≡ out.old.items ++ 32 ∷ signed_decimal value) }
{
    let mut buffer = Buffer::new();
    put_word(out, buffer.format(value).as_bytes())
}

/// Adds a space and a register.
pub fn put_register(out: &mut Vec<u8>, number: u8) -> Result<(), Memory>
    ensures { OnOk result (out.new.items ≡ out.old.items ++ 32 ∷ register_word number) }
{
    let mut buffer = Buffer::new();
    put(out, b" r")?;
    put(out, buffer.format(number).as_bytes())
}

/// Adds a space and a bank as an operand.
pub fn put_bank_word(out: &mut Vec<u8>, bank: u8) -> Result<(), Memory>
    ensures { OnOk result (out.new.items ≡ out.old.items ++ 32 ∷ bank_word bank) }
{
    match bank_kind(bank) {
        BankKind::Plain => put(out, b" D"),
        BankKind::Encrypted => put(out, b" E"),
        BankKind::Oblivious => {
            let mut buffer = Buffer::new();
            put(out, b" O")?;
            put(out, buffer.format(bank).as_bytes())
        }
    }
}

/// Adds a space and a note's claim about a slot.
pub fn put_claim(out: &mut Vec<u8>, claim: u8) -> Result<(), Memory>
    ensures { OnOk result (out.new.items ≡ out.old.items ++ 32 ∷ claim_word claim) }
{
    if claim == ANY_BANK {
        put(out, b" -")
    } else {
        put_number(out, u32::from(claim))
    }
}

fn hex_digit(n: u8) -> u8
    requires { n < 16 }
    ensures { result ≡ hex_digit n }
{
    if n < 10 { b'0' + n } else { b'a' + (n - 10) }
}

/// Adds the lowest `count` hexadecimal digits of a number.
#[tactic(auto, unfolding(crate::specs::Words::hex_word))]
pub fn put_hex(out: &mut Vec<u8>, count: u8, number: u32) -> Result<(), Memory>
    ensures { OnOk result (out.new.items ≡ out.old.items ++ hex_word count number) }
{
    if count == 0 {
        return Ok(());
    }
    put_hex(out, count - 1, number / 16)?;
    out.push(hex_digit((number % 16) as u8))?;
    Ok(())
}

/// Adds an arrow and an offset.
pub fn put_target(out: &mut Vec<u8>, offset: i32) -> Result<(), Memory>
    ensures { OnOk result (out.new.items ≡ out.old.items ++ codes " -> " ++ offset_word offset) }
{
    let mut buffer = Buffer::new();
    if offset < 0 {
        put(out, b" -> ")?;
    } else {
        put(out, b" -> +")?;
    }
    put(out, buffer.format(offset).as_bytes())
}
