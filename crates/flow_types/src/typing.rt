ghost use Rattle.std.specs.Prelude.{◌≡◌, Some, None, Ok, Err, IfOk, IfErr, OnOk};
ghost use Rattle.gr_word.specs.Prelude.{AreVariables};
ghost use Rattle.src_tree.specs.Prelude.{source_of, IsTyped, weight_of, IsWithinLimits, first_fault, weight_fault};
ghost use Rattle.flow_types.specs.Refusals.{ExplainsProgram};
ghost use Rattle.flow_types.specs.Wants.{declared_wants};
ghost use Rattle.gr_word.specs.declared.variables.Label.TheVariants.{Public};
ghost use Rattle.flow_types.specs.Surveys.{is_faulty_block};
ghost use Rattle.gr_base.specs.Prelude.{found_under};
ghost use Rattle.flow_types.specs.Walk.{fault_of, sizes_fault, found};

use crate::declarations::{gather, length_fault, variables_fault, words_fault};
use crate::surveys::{Weighed, survey_block};
use crate::walks::{Question, walk_block, where_true};
use crate::wants::declared_wants;
use gr_base::Memory;
use gr_word::{Label, Want};
use src_tree::{Names, Program, TypeError, Which};
use std::alloc::Global;
use std::marker::Model;

// The greatest weight of a program.
const MAX_WEIGHT: u64 = 8192;

// The error that a walk met, if it met one.
fn fault_of(walked: Result<u64, TypeError>) -> Option<TypeError>
    ensures { result ≡ fault_of walked }
{
    match walked {
        Ok(_) => None,
        Err(fault) => Some(fault),
    }
}

fn weight_fault(weight: u64) -> Option<TypeError>
    ensures { result ≡ weight_fault weight }
{
    where_true(weight > MAX_WEIGHT, TypeError::Limit(Which::Weight, weight))
}

// The first error of the limits on declarations.
fn sizes_fault(p: &Program) -> Option<TypeError>
    ensures { result ≡ sizes_fault (source_of p.now) }
{
    match variables_fault(p.decls.as_slice()) {
        Some(fault) => Some(fault),
        None => match length_fault(p.decls.as_slice()) {
            Some(fault) => Some(fault),
            None => words_fault(p.decls.as_slice()),
        },
    }
}

// The first error of a program with these names, whose statements were surveyed. If the survey found none of them
// faulty, no first one is looked for.
fn fault_in<'a>(names: &Names<'a>, survey: Weighed, p: &'a Program) -> Option<TypeError>
    requires { survey.faulty ≡ is_faulty_block (found_under names.now) Public (source_of p.now).body }
    ensures { result ≡ found (found_under names.now) survey.weight (source_of p.now) }
{
    if !survey.faulty {
        return match sizes_fault(p) {
            Some(fault) => Some(fault),
            None => weight_fault(survey.weight),
        };
    }
    let body = p.body.as_slice();
    match fault_of(walk_block(Question::IsTyped, names, Label::Public, 0, body)) {
        Some(fault) => Some(fault),
        None => match sizes_fault(p) {
            Some(fault) => Some(fault),
            None => match fault_of(walk_block(Question::IsLow, names, Label::Public, 0, body)) {
                Some(fault) => Some(fault),
                None => weight_fault(survey.weight),
            },
        },
    }
}

// The weight of a program, or its first error.
fn judge(alloc: Global, p: &Program) -> Result<u64, TypeError>
    ensures accepted { IfOk result (λ weight. weight ≡ weight_of (source_of p.now)) }
    ensures faultless { OnOk result (first_fault (source_of p.now) ≡ None) }
    ensures refused { IfErr result (λ e. ExplainsProgram e (source_of p.now)) }
{
    match gather(alloc, p.decls.as_slice()) {
        Err(fault) => Err(fault),
        Ok(names) => {
            let survey = survey_block(&names, Label::Public, p.body.as_slice());
            match fault_in(&names, survey, p) {
                Some(fault) => Err(fault),
                None => Ok(survey.weight),
            }
        }
    }
}

/// A program that is well typed and within the limits. Contracts see it as that program.
#[derive(Debug, Drop)]
pub struct Typed {
    program: Program,
    weight: u64,
}

impl Model for Typed {
    ghost use Rattle.std.specs.Prelude.{◌≡◌};
    ghost use Rattle.src_tree.specs.declared.trees.Program.{Program};
    ghost use Rattle.src_tree.specs.Trees.{source_of};
    ghost use Rattle.src_tree.specs.Typing.{IsTyped};
    ghost use Rattle.src_tree.specs.Limits.{weight_of, IsWithinLimits};
    ghost use Rattle.src_tree.specs.contracts.trees.Program.{the_row};

    ghost Value = { Program };

    ghost coded = { the_row.coded };

    ghost view = { λ t. t.program };

    ghost invariant = { λ t. IsTyped (source_of t.program)
        × (IsWithinLimits (source_of t.program) × (t.weight ≡ weight_of (source_of t.program))) };
}

impl Typed {
    /// The program.
    pub fn program(&self) -> &Program
        ensures program { result.now ≡ self.now }
        ensures typed { IsTyped (source_of self.now) }
        ensures within { IsWithinLimits (source_of self.now) }
    {
        &self.program
    }

    /// The weight of the program. An expression weighs the number of its nodes. An assignment weighs 1 more than its
    /// expressions. A loop and a choice weigh 1 more than their guard and their blocks; the blocks of a choice count
    /// twice if it is in secret code or its guard is secret.
    pub fn weight(&self) -> u64
        ensures { result ≡ weight_of (source_of self.now) }
    {
        self.weight
    }

    /// The variables, in the order of declaration.
    pub fn wants(&self, alloc: Global) -> Result<Vec<Want>, Memory>
        ensures wants { IfOk result (λ wants. wants.items ≡ declared_wants self.now.decls.items) }
        ensures variables { IfOk result (λ wants. AreVariables wants.items) }
    {
        declared_wants(alloc, self.program.decls.as_slice())
    }
}

/// Types a program. The result is the program exactly if it is well typed and within the limits that don't depend on a
/// machine. Otherwise the program is dropped, and the result is its first error: declarations come first, then
/// statements in the order of their first tokens, then limits. Within a statement the names of its own expressions come
/// first, in the order of the text, and then a secret index of a public array. In an assignment a flow to a public
/// variable follows; in a loop a secret guard, and then that the loop is in secret code. `Memory` says nothing about
/// the program.
pub fn type_program(alloc: Global, p: Program) -> Result<Typed, TypeError>
    ensures same { IfOk result (λ typed. typed ≡ p) }
    ensures typed { OnOk result (IsTyped (source_of p)) }
    ensures within { OnOk result (IsWithinLimits (source_of p)) }
    ensures refused { IfErr result (λ e. ExplainsProgram e (source_of p)) }
{
    let weight = judge(alloc, &p)?;
    Ok(Typed { program: p, weight })
}
