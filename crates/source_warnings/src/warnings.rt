//! What a source that is accepted may not mean: an index, a divisor or a shift count that is a number out of its range, a
//! variable that isn't used, and an array that one index makes oblivious.

use crate::warned_tokens::tokens_to_warn;
use fault_texts::{WarningCount, Words, spot_at};
use gr_base::Memory;
use source_tokens::{Declared, Procedure, Procedures, Tokens};
use src_lexer::Kind;
use std::alloc::Global;
use std::collections::BTreeMap;

/// The least public indexes beside the one secret index of which a warning is given.
const PUBLIC_INDEXES: u64 = 2;

/// The indexes of an array in the file's own statements: how many are secret and how many public, and the array's name at
/// the first secret one.
#[derive(Clone, Copy)]
struct Indexes {
    secret: u64,
    public: u64,
    first: usize,
}

impl Indexes {
    const NONE: Indexes = Indexes {
        secret: 0,
        public: 0,
        first: 0,
    };
}

/// A variable of the file, whether the file's own statements name it, and the indexes of a secret array.
#[derive(Clone, Copy)]
struct Variable {
    declared: Declared,
    is_used: bool,
    indexes: Indexes,
}

impl Variable {
    fn is_secret_array(&self) -> bool {
        self.declared.is_secret && self.declared.is_array
    }

    // Whether no further use of it matters: it is used, and it can no longer be a secret array with one secret index.
    fn is_settled(&self) -> bool {
        let Indexes { secret, public, .. } = self.indexes;
        self.is_used && (!self.is_secret_array() || secret > 1 || public == u64::MAX)
    }
}

/// The variables of the file in the order of declaration, their numbers by their names, and how many of them aren't
/// settled.
#[derive(Drop)]
pub(crate) struct Variables<'a> {
    all: Vec<Variable>,
    numbers: BTreeMap<&'a [u8], usize>,
    unsettled: usize,
}

/// Warns of what a source that is accepted may not mean. With `--fast` an array with a secret index may be in the
/// scratchpad, so there is no warning of such an index.
pub fn warn_of_source(alloc: Global, name: &str, text: &[u8], is_fast: bool, out: &mut Words) {
    let put = warned(alloc, name, text, is_fast, out);
    out.starve_on(put);
}

fn warned(
    alloc: Global,
    name: &str,
    text: &[u8],
    is_fast: bool,
    out: &mut Words,
) -> Result<(), Memory> {
    let all = tokens_to_warn(alloc, name, text)?;
    let all = all.as_slice();
    let tokens = Tokens { name, text, all };
    let procedures = Procedures::of(alloc, tokens)?;
    let mut count = WarningCount::NONE;
    for at in tokens.end_of_declarations()..tokens.all.len() {
        warn_of_number(tokens, at, procedures.main <= at, &mut count, out);
    }
    let variables = variables_of(alloc, &procedures)?;
    warn_of_unused(alloc, &procedures, &variables, &mut count, out)?;
    if !is_fast {
        warn_of_secret_index(tokens, &variables, &mut count, out);
    }
    count.close(out);
    Ok(())
}

// Begins a warning at a token, and returns whether it is shown.
fn begin_warning(tokens: Tokens<'_>, at: usize, count: &mut WarningCount, out: &mut Words) -> bool {
    if !count.next() {
        return false;
    }
    out.put_warning(tokens.name, spot_at(tokens.text, tokens.start(at)));
    true
}

// Warns of a number that is out of its range as an index, a divisor or a shift count. `is_own` is true if the token
// is in the file's own statements.
fn warn_of_number(
    tokens: Tokens<'_>,
    at: usize,
    is_own: bool,
    count: &mut WarningCount,
    out: &mut Words,
) {
    let next = at.saturating_add(1);
    match tokens.kind(at) {
        Some(Kind::Slash) if tokens.number(next) == Some(0) => {
            if begin_warning(tokens, at, count, out) {
                out.line("a division by 0 gives -1");
            }
        }
        Some(Kind::Percent) if tokens.number(next) == Some(0) => {
            if begin_warning(tokens, at, count, out) {
                out.line("the remainder of a division by 0 is the dividend");
            }
        }
        Some(Kind::Shl | Kind::Shr) => warn_of_shift(tokens, at, count, out),
        Some(Kind::LBracket) if is_own => warn_of_index(tokens, at, count, out),
        _ => {}
    }
}

fn warn_of_shift(tokens: Tokens<'_>, at: usize, count: &mut WarningCount, out: &mut Words) {
    let Some(number) = tokens.number(at.saturating_add(1)) else {
        return;
    };
    let after = tokens.word(at.saturating_add(2));
    if number > 63
        && !matches!(after, b"+" | b"-" | b"*" | b"/" | b"%")
        && begin_warning(tokens, at, count, out)
    {
        out.fill(
            "a shift uses the low six bits of its count, so this one shifts by {}\n",
            &[number % 64],
        );
    }
}

// A number as the index of an array that is too great for it.
fn warn_of_index(tokens: Tokens<'_>, open: usize, count: &mut WarningCount, out: &mut Words) {
    let name = open.saturating_sub(1);
    let is_negative = tokens.is(open.saturating_add(1), "-");
    let at = open.saturating_add(if is_negative { 2 } else { 1 });
    let (Some(number), Some(length)) = (tokens.number(at), length_of(tokens, name)) else {
        return;
    };
    if !tokens.is(at.saturating_add(1), "]") {
        return;
    }
    let index = if is_negative && number > 0 {
        u64::MAX - (number - 1)
    } else {
        number
    };
    if index < length || !begin_warning(tokens, name, count, out) {
        return;
    }
    out.say("the index ");
    out.say(if is_negative { "-" } else { "" });
    out.fill("{} is out of range: ", &[number]);
    tokens.tell(name, " has ", out);
    out.counted(length, "word");
    out.say(", so this is ");
    tokens.tell(name, "[", out);
    out.fill("{}]\n", &[remainder(index, length)]);
}

// The length of the array whose name is at a token.
fn length_of(tokens: Tokens<'_>, name: usize) -> Option<u64> {
    let Declared { name, is_array, .. } = tokens.declaration_of(name)?;
    if is_array {
        tokens.number(name.saturating_add(2))
    } else {
        None
    }
}

// Warns of an array's only secret index, which makes the array oblivious, if no call has the array as an argument.
fn warn_of_secret_index<'a>(
    tokens: Tokens<'a>,
    variables: &Variables<'a>,
    count: &mut WarningCount,
    out: &mut Words,
) {
    for variable in &variables.all {
        let Indexes {
            secret,
            public,
            first,
        } = variable.indexes;
        if secret == 1
            && public >= PUBLIC_INDEXES
            && public < u64::MAX
            && begin_warning(tokens, first, count, out)
        {
            out.say("this is the only secret index of ");
            tokens.tell(
                variable.declared.name,
                ", and makes each access to it oblivious, which takes longer\n",
                out,
            );
        }
    }
}

// The names that occur from a token to an end, other than those of calls.
fn names_between<'a>(
    alloc: Global,
    tokens: Tokens<'a>,
    from: usize,
    end: usize,
) -> Result<BTreeMap<&'a [u8], usize>, Memory> {
    let mut names: BTreeMap<&'a [u8], usize> = BTreeMap::new(alloc);
    for at in from..end.max(from) {
        let is_called = tokens.is_call(at) && tokens.is_head(at);
        if tokens.is_name(at) && !is_called && names.insert(tokens.word(at), at).is_err() {
            return Err(Memory);
        }
    }
    Ok(names)
}

// The remainder of a division by a length, and 0 if the length is 0.
fn remainder(index: u64, length: u64) -> u64 {
    if length == 0 { 0 } else { index % length }
}

impl<'a> Variables<'a> {
    // The variables that are declared at the head of the file.
    fn of(alloc: Global, tokens: Tokens<'a>) -> Result<Variables<'a>, Memory> {
        let mut all = Vec::new(alloc);
        let mut numbers: BTreeMap<&'a [u8], usize> = BTreeMap::new(alloc);
        let declarations = tokens.declarations(alloc)?;
        for declared in &declarations {
            if numbers
                .insert(tokens.word(declared.name), all.len())
                .is_err()
            {
                return Err(Memory);
            }
            all.push(Variable {
                declared: *declared,
                is_used: false,
                indexes: Indexes::NONE,
            })?;
        }
        let unsettled = all.len();
        Ok(Variables {
            all,
            numbers,
            unsettled,
        })
    }

    /// Whether no further use of the variables matters to a warning.
    pub(crate) fn are_settled(&self) -> bool {
        self.unsettled == 0
    }

    /// The least length of an array, or the greatest number if nothing is an array.
    pub(crate) fn least_length(&self, tokens: Tokens<'a>) -> u64 {
        let mut least = u64::MAX;
        for variable in &self.all {
            let Declared { name, is_array, .. } = variable.declared;
            if is_array {
                least = least.min(tokens.number(name.saturating_add(2)).unwrap_or(0));
            }
        }
        least
    }

    // The variable of a name, and its number.
    fn find(&self, name: &'a [u8]) -> Option<(usize, Variable)> {
        let number = *self.numbers.get(&name)?;
        Some((number, *self.all.get(number)?))
    }

    // Notes a use of the variable whose name is at a token.
    fn note(&mut self, tokens: Tokens<'a>, at: usize, name: &'a [u8]) {
        let Some((number, variable)) = self.find(name) else {
            return;
        };
        if variable.is_settled() {
            return;
        }
        let indexes = if variable.is_secret_array() {
            self.with_index(tokens, at, variable.indexes)
        } else {
            variable.indexes
        };
        let noted = Variable {
            is_used: true,
            indexes,
            ..variable
        };
        if number < self.all.len() {
            self.all[number] = noted;
        }
        if noted.is_settled() {
            self.unsettled = self.unsettled.saturating_sub(1);
        }
    }

    // Whether a token is the name of a secret variable.
    fn is_secret(&self, tokens: Tokens<'a>, at: usize) -> bool {
        match tokens.name_at(at) {
            Some(name) => match self.find(name) {
                Some((_, variable)) => variable.declared.is_secret,
                None => false,
            },
            None => false,
        }
    }

    // The indexes of an array, with the one after the name at a token. An argument counts as any number of public ones.
    fn with_index(&self, tokens: Tokens<'a>, at: usize, indexes: Indexes) -> Indexes {
        let open = at.saturating_add(1);
        if !matches!(tokens.kind(open), Some(Kind::LBracket)) {
            return Indexes {
                public: u64::MAX,
                ..indexes
            };
        }
        for within in open..tokens.closing(open).max(open) {
            if self.is_secret(tokens, within) {
                return Indexes {
                    secret: indexes.secret.saturating_add(1),
                    first: if indexes.secret == 0 {
                        at
                    } else {
                        indexes.first
                    },
                    ..indexes
                };
            }
        }
        Indexes {
            public: indexes.public.saturating_add(1),
            ..indexes
        }
    }
}

/// The variables of the file, with their uses in the file's own statements.
pub(crate) fn variables_of<'a>(
    alloc: Global,
    procedures: &Procedures<'a>,
) -> Result<Variables<'a>, Memory> {
    let tokens = procedures.tokens;
    let mut variables = Variables::of(alloc, tokens)?;
    for at in procedures.main..tokens.all.len().max(procedures.main) {
        if variables.are_settled() {
            break;
        }
        if let Some(name) = tokens.name_at(at)
            && !(tokens.is_call(at) && tokens.is_head(at))
        {
            variables.note(tokens, at, name);
        }
    }
    Ok(variables)
}

// Warns of variables, parameters and locals that no statement names.
fn warn_of_unused<'a>(
    alloc: Global,
    procedures: &Procedures<'a>,
    variables: &Variables<'a>,
    count: &mut WarningCount,
    out: &mut Words,
) -> Result<(), Memory> {
    let tokens = procedures.tokens;
    for variable in &variables.all {
        let name = variable.declared.name;
        if !variable.is_used && begin_warning(tokens, name, count, out) {
            tokens.tell(name, " is never used\n", out);
        }
    }
    for procedure in &procedures.all {
        warn_of_unused_in(alloc, procedures, *procedure, count, out)?;
    }
    Ok(())
}

fn warn_of_unused_in(
    alloc: Global,
    procedures: &Procedures<'_>,
    procedure: Procedure,
    count: &mut WarningCount,
    out: &mut Words,
) -> Result<(), Memory> {
    let tokens = procedures.tokens;
    let used = names_between(alloc, tokens, procedure.body, procedure.end)?;
    for name in procedure.params..procedure.body.max(procedure.params) {
        if tokens.is_name(name)
            && used.get(&tokens.word(name)).is_none()
            && begin_warning(tokens, name, count, out)
        {
            tokens.tell(name, " is never used in ", out);
            tokens.tell(procedure.name, "\n", out);
        }
    }
    Ok(())
}
