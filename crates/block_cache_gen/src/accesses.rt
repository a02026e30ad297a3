ghost use Rattle.std.specs.Prelude.{◌≡◌, ℕ, ◌+◌, ◌*◌, ◌/◌, ◌%◌, ◌^◌, ◌<◌, ◌≤◌, ◌&&◌, ◌==◌, [], ◌∷◌, ◌++◌, Some, None, not, false, pos, ◌+ℤ◌, OnOk, OnSome, length};
ghost use Rattle.std.specs.List.{list_any, range_with_len};
ghost use Rattle.gr_word.specs.Prelude.{unsigned_of};
ghost use Rattle.src_tree.specs.Prelude.{secret_label, expr_tree};
ghost use Rattle.block_cache_gen.specs.Codes.{access_by, placed_word, copy_code, compares, is_within_home, numbering, placed_code, has_offset, numbered_register, offset_code, shift_code, fixed_code, fixed_index, fixed_word, index_operand, is_cached, is_masked, is_power, may_skip_loads, literal, load_code, operand_register, scalar_code, skips};
ghost use Rattle.block_cache_gen.specs.declared.indexes.Numbering.TheVariants.{Reduced};
ghost use Rattle.block_cache_gen.specs.Indexed.{code_of_index, notes_of_index};
ghost use Rattle.block_cache_gen.specs.Notes.{access_mask, loaded_notes, marked_by, unmarked};
ghost use Rattle.block_cache_gen.specs.Emitted.{Appended, CodeGrows, EmitsFixed, EmitsFound, EmitsLoad, no_notes, notes_in};
ghost use Rattle.block_cache_gen.specs.TreeWords.{HasWords};
ghost use Rattle.block_cache_gen.specs.Variables.{home_in};

use crate::emitter::{Emitter, label_of};
use crate::frames::{CodeBuf, Mode, PutResult};
use crate::indexes::{
    Indexed, Numbering, numbered_register, put_applied, put_note_behind, put_numbered,
};
use crate::variables::Variable;
use gr_word::{Cmp, Label, Op};
use lt_isa::{BankKind, Instr, bank_kind};
use src_tree::Expr;

/// An access of an array: the first of the registers that its code overwrites, how the code is made, and which registers
/// may be secret in its notes.
#[derive(Clone, Copy, Debug)]
pub(crate) struct Access {
    pub array: Variable,
    pub to: u8,
    pub mode: Mode,
    pub mask: u32,
}

/// The mask without a register.
pub(crate) fn unmarked(mask: u32, register: u8) -> u32
    requires { register < 32 }
    ensures { result ≡ unmarked mask register }
{
    mask & !(1 << register)
}

/// The mask behind an expression of a label, whose value a register holds: bit r is set where register r may be secret.
pub(crate) fn marked_by(label: Label, mask: u32, register: u8) -> u32
    requires { register < 32 }
    ensures { result ≡ marked_by label mask register }
{
    match label {
        Label::Public => unmarked(mask, register),
        Label::Secret => mask,
    }
}

// The mask behind the load of an access, of which three registers are public.
fn access_mask(mask: u32, to: u8) -> u32
    requires { to + 2 < 28 }
    ensures { result ≡ access_mask mask to }
{
    unmarked(unmarked(unmarked(mask, to), to + 1), to + 2)
}

fn is_public(mode: Mode) -> bool
    ensures { result ≡ may_skip_loads mode }
{
    match mode {
        Mode::Public => true,
        Mode::Real => false,
        Mode::Mirrored => false,
    }
}

// Whether a variable lies in plain or encrypted memory, of which a slot may still hold the block.
pub(crate) fn is_cached(variable: Variable) -> bool
    ensures { result ≡ is_cached (home_in variable) }
{
    bank_kind(variable.place.bank) != BankKind::Oblivious
}

// Whether the load of a variable's block may be skipped.
fn skips(mode: Mode, variable: Variable) -> bool
    ensures { result ≡ skips mode (home_in variable) }
{
    is_public(mode) && is_cached(variable)
}

// Whether a number is one of the first powers of two.
fn is_among_powers(number: u32, count: u32) -> bool
    requires { count ≤ 32 }
    ensures { result ≡ list_any (λ k. 2 ^ k == number) (range_with_len 0 count) }
{
    for k in 0..count {
        if 1 << k == number {
            return true;
        }
    }
    false
}

// Whether a length is a power of two.
#[tactic(auto, unfolding(crate::specs::Codes::is_power))]
fn is_power(length: u32) -> bool
    ensures { result ≡ is_power length }
{
    is_among_powers(length, 21)
}

pub(crate) fn is_masked(array: Variable) -> bool
    ensures { result ≡ is_masked (home_in array) }
{
    is_cached(array) && is_power(array.place.length)
}

fn is_public_label(label: Label) -> bool
    ensures { result ≡ not (secret_label label) }
{
    match label {
        Label::Public => true,
        Label::Secret => false,
    }
}

/// Whether an index is known to be below the length of an array of plain or encrypted memory.
pub(crate) fn is_within_home(emitter: &Emitter<'_, '_, '_>, array: Variable, index: &Expr) -> bool
    ensures { result ≡ is_within_home emitter.now (home_in array) (expr_tree index.now) }
{
    emitter.reduces()
        && (is_cached(array) && emitter.is_within(index, u64::from(array.place.length)))
}

// Whether an index is compared with the length before the remainder is taken, if it may not be below it.
fn compares<'a>(emitter: &Emitter<'a, '_, '_>, mode: Mode, array: Variable, index: &'a Expr) -> bool
    ensures { result ≡ compares emitter.now mode (home_in array) (expr_tree index.now) }
{
    is_public(mode)
        && emitter.reduces()
        && !is_masked(array)
        && is_public_label(label_of(emitter, index))
}

/// How the number of a word is found of an index.
pub(crate) fn numbering<'a>(
    emitter: &Emitter<'a, '_, '_>,
    mode: Mode,
    array: Variable,
    index: &'a Expr,
) -> Numbering
    ensures { result ≡ numbering emitter.now mode (home_in array) (expr_tree index.now) }
{
    if is_within_home(emitter, array, index) {
        Numbering::Within
    } else if compares(emitter, mode, array, index) {
        Numbering::Compared
    } else {
        Numbering::Reduced
    }
}

// The number that an expression is, if it is one.
fn literal(e: &Expr) -> Option<i64>
    ensures literal { result ≡ literal (expr_tree e.now) }
    ensures words { OnSome result (HasWords (expr_tree e.now)) }
{
    match e {
        Expr::Num(value) => Some(*value),
        Expr::Var(_) => None,
        Expr::Item(_, _) => None,
        Expr::Bin(_, _, _) => None,
    }
}

/// An index of an array of plain or encrypted memory that is a number; none for any other index or array.
pub(crate) fn fixed_index(array: Variable, index: &Expr) -> Option<i64>
    ensures fixed { result ≡ fixed_index (home_in array) (expr_tree index.now) }
    ensures words { OnSome result (HasWords (expr_tree index.now)) }
{
    if is_cached(array) {
        literal(index)
    } else {
        None
    }
}

/// The number of an array's word that an index names which is a number.
pub(crate) fn fixed_word(array: Variable, index: i64) -> u64
    requires { 1 ≤ array.place.length }
    ensures word { result ≡ fixed_word (home_in array) index }
    ensures below { result < array.place.length }
{
    index.cast_unsigned() % u64::from(array.place.length)
}

/// Appends the copy of a value of a label: a sum with the zero of that label. The only error is running out of memory.
pub(crate) fn put_copy(out: &mut CodeBuf, label: Label, to: u8, from: u8) -> PutResult
    ensures appended { OnOk result (Appended out.old out.new (copy_code label to from) no_notes) }
    ensures grows { CodeGrows out.old out.new }
{
    let zero = match label {
        Label::Public => 20,
        Label::Secret => 19,
    };
    out.put(&[Instr::Alu {
        op: Op::Add,
        rd: to,
        ra: from,
        rb: zero,
    }])
}

/// Appends the load of a scalar's word into a register: a copy of the register that holds it, or a read of its slot.
/// The only error is running out of memory.
pub(crate) fn put_scalar(out: &mut CodeBuf, scalar: Variable, to: u8) -> PutResult
    ensures appended { OnOk result (Appended out.old out.new (scalar_code scalar.held (home_in scalar) to) no_notes) }
    ensures grows { CodeGrows out.old out.new }
{
    if let Some(register) = scalar.held {
        return put_copy(out, Label::Public, to, register);
    }
    out.put(&[
        Instr::Li {
            rd: to,
            value: i64::from(scalar.place.word),
        },
        Instr::Ldw {
            rd: to,
            slot: scalar.slot,
            off: to,
        },
    ])
}

// The code for an element whose index is a number: it leaves the number of the word in register `to` and that of its
// block in the next register.
fn fixed_code(emitter: &Emitter<'_, '_, '_>, array: Variable, index: i64, to: u8) -> [Instr; 2]
    requires length { 1 ≤ array.place.length }
    requires registers { to + 2 < 28 }
    ensures { result ≡ fixed_code emitter.now.profile.block_log (home_in array) to index }
{
    let word = fixed_word(array, index);
    let block = u64::from(array.place.block) + word / u64::from(emitter.block_words());
    [
        Instr::Li {
            rd: to,
            value: word as i64,
        },
        Instr::Li {
            rd: to + 1,
            value: block as i64,
        },
    ]
}

/// Whether a slot holds the variable's block for the whole run.
pub(crate) fn is_resident(variable: Variable) -> bool
    ensures { result ≡ (home_in variable).resident }
{
    variable.resident
}

// The number of a resident array's word in its block, where the index is a number.
fn put_placed_word(out: &mut CodeBuf, array: Variable, index: i64, to: u8) -> PutResult
    requires length { 1 ≤ array.place.length }
    ensures appended { OnOk result (Appended out.old out.new (placed_word (home_in array) to index) no_notes) }
    ensures grows { CodeGrows out.old out.new }
{
    let place = u64::from(array.place.word) + fixed_word(array, index);
    out.put(&[Instr::Li {
        rd: to,
        value: place as i64,
    }])
}

/// Whether a variable is a resident array that doesn't begin its block.
pub(crate) fn has_offset(array: Variable) -> bool
    ensures { result ≡ has_offset (home_in array) }
{
    is_resident(array) && array.place.word != 0
}

// The number of a resident array's first word is added to that of the word that an index names.
fn put_offset(emitter: &Emitter<'_, '_, '_>, out: &mut CodeBuf, index: Indexed) -> PutResult
    requires registers { index.to + 2 < 28 }
    ensures appended { OnOk result (Appended out.old out.new (offset_code emitter.now (home_in index.array) index.to
        (numbered_register index.numbering index.to index.from)) no_notes) }
    ensures grows { CodeGrows out.old out.new }
{
    if index.array.place.word == 0 {
        return out.put(&[]);
    }
    let from = numbered_register(index.numbering, index.to, index.from);
    let word = i64::from(index.array.place.word);
    put_applied(emitter, out, Op::Add, index.to, from, index.to + 1, word)
}

// Appends the load of the block that the next register names into the array's slot: in public code only where it isn't
// there, with a note. The only error is running out of memory.
fn put_load(emitter: &Emitter<'_, '_, '_>, out: &mut CodeBuf, access: Access) -> PutResult
    requires registers { access.to + 2 < 28 }
    requires room { length out.old.code.items + 3 < 2 ^ 32 }
    ensures appended { OnOk result
        (EmitsLoad emitter.now access.mode (home_in access.array) access.mask access.to out.old out.new) }
    ensures grows { CodeGrows out.old out.new }
{
    let Access { array, to, .. } = access;
    let load = Instr::Ldb {
        slot: array.slot,
        bank: array.place.bank,
        reg: to + 1,
    };
    if !skips(access.mode, array) {
        return out.put(&[load]);
    }
    out.put(&[
        Instr::Idb {
            rd: to + 2,
            slot: array.slot,
        },
        Instr::Br {
            cmp: Cmp::Eq,
            ra: to + 2,
            rb: to + 1,
            offset: 2,
        },
        load,
    ])?;
    put_note_behind(emitter, out, access_mask(access.mask, to))
}

// The number of the block of the word that a register names, in the next register.
fn put_block(emitter: &Emitter<'_, '_, '_>, out: &mut CodeBuf, array: Variable, to: u8) -> PutResult
    requires registers { to + 2 < 28 }
    ensures appended { OnOk result
        (Appended out.old out.new (shift_code emitter.now (home_in array) to) no_notes) }
    ensures grows { CodeGrows out.old out.new }
{
    put_applied(
        emitter,
        out,
        Op::Shr,
        to + 1,
        to,
        to + 1,
        i64::from(emitter.block_log()),
    )?;
    put_applied(
        emitter,
        out,
        Op::Add,
        to + 1,
        to + 1,
        to + 2,
        i64::from(array.place.block),
    )
}

/// Appends the code of an access whose index is a number. The only error is running out of memory.
pub(crate) fn put_fixed_access(
    emitter: &Emitter<'_, '_, '_>,
    out: &mut CodeBuf,
    access: Access,
    index: i64,
) -> PutResult
    requires length { 1 ≤ access.array.place.length }
    requires registers { access.to + 2 < 28 }
    requires room { length out.old.code.items + 6 < 2 ^ 32 }
    ensures appended { OnOk result
        (EmitsFixed emitter.now access.mode (home_in access.array) access.mask access.to index out.old out.new) }
    ensures grows { CodeGrows out.old out.new }
{
    let Access { array, to, .. } = access;
    if is_resident(array) {
        return put_placed_word(out, array, index, to);
    }
    out.put(&fixed_code(emitter, array, index, to))?;
    put_load(emitter, out, access)
}

/// Appends the part of the code of an access that follows the code of its index, which is in register `from`. The only
/// error is running out of memory.
pub(crate) fn put_found_access<'a>(
    emitter: &Emitter<'a, '_, '_>,
    out: &mut CodeBuf,
    access: Access,
    index: &'a Expr,
    from: u8,
) -> PutResult
    requires registers { access.to + 2 < 28 }
    requires from { from ≡ operand_register (index_operand emitter.now
        (numbering emitter.now access.mode (home_in access.array) (expr_tree index.now)) (home_in access.array)
        (expr_tree index.now)) access.to }
    requires room { length out.old.code.items + 16 < 2 ^ 32 }
    ensures appended { OnOk result (EmitsFound emitter.now access.mode (home_in access.array) access.mask access.to
        (expr_tree index.now) out.old out.new) }
    ensures grows { CodeGrows out.old out.new }
{
    let Access { array, to, .. } = access;
    let numbering = numbering(emitter, access.mode, array, index);
    let indexed = Indexed {
        array,
        numbering,
        from,
        to,
        mask: access.mask,
    };
    put_numbered(emitter, out, indexed)?;
    if is_resident(array) {
        return put_offset(emitter, out, indexed);
    }
    put_block(emitter, out, array, to)?;
    put_load(emitter, out, access)
}
