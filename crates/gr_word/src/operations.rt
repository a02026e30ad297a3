ghost use Rattle.std.specs.Prelude.{◌≡◌};
ghost use Rattle.gr_word.specs.Words.{applied, compared};

/// The operations of the machine on two words.
#[derive(Clone, Copy, Debug, PartialEq, Eq)]
pub enum Op {
    Add,
    Sub,
    Mul,
    Div,
    Rem,
    Remu,
    And,
    Or,
    Xor,
    Shl,
    Shr,
}

/// The comparisons of the machine, all of them signed.
#[derive(Clone, Copy, Debug, PartialEq, Eq)]
pub enum Cmp {
    Eq,
    Ne,
    Lt,
    Le,
    Gt,
    Ge,
}

/// The result of an operation on two words, which any two words have. Sums, differences and products are taken modulo
/// 2^64. Division follows the M extension of RISC-V: a quotient by 0 is -1, and a remainder by 0 is the dividend.
/// Shifts use the low six bits of `b`.
pub fn apply(op: Op, a: i64, b: i64) -> i64
    ensures { result ≡ applied op a b }
{
    match op {
        Op::Add => a.wrapping_add(b),
        Op::Sub => a.wrapping_sub(b),
        Op::Mul => a.wrapping_mul(b),
        Op::Div => quotient(a, b),
        Op::Rem => remainder(a, b),
        Op::Remu => unsigned_remainder(a, b),
        Op::And => a & b,
        Op::Or => a | b,
        Op::Xor => a ^ b,
        Op::Shl => a.wrapping_shl((b & 63) as u32),
        Op::Shr => a.wrapping_shr((b & 63) as u32),
    }
}

fn quotient(a: i64, b: i64) -> i64
    ensures { result ≡ applied Op.Div a b }
{
    if b == 0 { -1 } else { a.wrapping_div(b) }
}

fn remainder(a: i64, b: i64) -> i64
    ensures { result ≡ applied Op.Rem a b }
{
    if b == 0 { a } else { a.wrapping_rem(b) }
}

fn unsigned_remainder(a: i64, b: i64) -> i64
    ensures { result ≡ applied Op.Remu a b }
{
    if b == 0 {
        a
    } else {
        (a.cast_unsigned() % b.cast_unsigned()).cast_signed()
    }
}

/// Whether a comparison of two words is true.
pub fn holds(cmp: Cmp, a: i64, b: i64) -> bool
    ensures { result ≡ compared cmp a b }
{
    match cmp {
        Cmp::Eq => a == b,
        Cmp::Ne => a != b,
        Cmp::Lt => a < b,
        Cmp::Le => a <= b,
        Cmp::Gt => a > b,
        Cmp::Ge => a >= b,
    }
}
