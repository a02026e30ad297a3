ghost use Rattle.std.specs.Prelude.{◌≡◌, ◌≤◌, IfOk, OnOk, length};
ghost use Rattle.std.specs.List.{position};
ghost use Rattle.held_registers.specs.Held.{held_scalars, is_number, is_scalar, register_of_number, register_of_scalar, takes_register, with_number};

use gr_base::Memory;
use src_tree::Decl;
use std::alloc::Global;

/// What a register holds for the whole run.
#[derive(Clone, Copy, Debug, PartialEq, Eq)]
pub enum Held {
    /// The number 0, as a secret: a sum with it is secret for the check.
    SecretZero,
    Number(i64),
    /// The scalar whose declaration has this number.
    Scalar(u32),
}

// Whether a declaration is of a scalar that gets a register if this many are taken.
fn takes_register(decl: &Decl, taken: usize) -> bool
    ensures { result ≡ takes_register decl.now taken }
{
    decl.length.is_none() && taken < 13
}

/// The zeros, and the first scalars, as many as there are registers. The only error is running out of memory.
pub fn held_scalars(alloc: Global, decls: &[Decl]) -> Result<Vec<Held>, Memory>
    requires few { length decls.now ≤ 256 }
    ensures { IfOk result (λ held. held.items ≡ held_scalars decls.now) }
{
    let mut held = Vec::new(alloc);
    held.push(Held::SecretZero)?;
    held.push(Held::Number(0))?;
    for (i, decl) in decls.iter().enumerate() {
        if takes_register(decl, held.len()) {
            held.push(Held::Scalar(i as u32))?;
        }
    }
    Ok(held)
}

fn is_number(held: Held, number: i64) -> bool
    ensures { result ≡ is_number number held }
{
    match held {
        Held::SecretZero => false,
        Held::Number(other) => other == number,
        Held::Scalar(_) => false,
    }
}

fn is_scalar(held: Held, number: u32) -> bool
    ensures { result ≡ is_scalar number held }
{
    match held {
        Held::SecretZero => false,
        Held::Number(_) => false,
        Held::Scalar(other) => other == number,
    }
}

// The place of a scalar among the held ones.
fn place_of_scalar(held: &[Held], number: u32) -> Option<usize>
    ensures { result ≡ position (λ one. is_scalar number one) held.now }
{
    held.iter().position(|one| is_scalar(*one, number))
}

// The place of a number.
fn place_of_number(held: &[Held], number: i64) -> Option<usize>
    ensures { result ≡ position (λ one. is_number number one) held.now }
{
    held.iter().position(|one| is_number(*one, number))
}

/// The register that holds a scalar for the whole run, `None` if none does.
pub fn register_of_scalar(held: &[Held], number: u32) -> Option<u8>
    requires few { length held.now ≤ 13 }
    ensures register { result ≡ register_of_scalar held.now number }
{
    match place_of_scalar(held, number) {
        Some(place) => Some(place as u8 + 19),
        None => None,
    }
}

/// The register that holds a number for the whole run, `None` if none does.
pub fn register_of_number(held: &[Held], number: i64) -> Option<u8>
    requires few { length held.now ≤ 13 }
    ensures register { result ≡ register_of_number held.now number }
{
    match place_of_number(held, number) {
        Some(place) => Some(place as u8 + 19),
        None => None,
    }
}

/// Gives a number a register if it has none and one is left. The only error is running out of memory.
pub fn hold_number(held: &mut Vec<Held>, number: i64) -> Result<(), Memory>
    requires few { length held.old.items ≤ 13 }
    ensures { OnOk result (held.new.items ≡ with_number held.old.items number) }
{
    if register_of_number(held.as_slice(), number).is_some() {
        return Ok(());
    }
    if held.len() < 13 {
        held.push(Held::Number(number))?;
    }
    Ok(())
}
