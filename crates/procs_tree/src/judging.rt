ghost use Rattle.std.specs.Prelude.{◌≡◌, IfErr, IfOk, OnOk, None, map};
ghost use Rattle.gr_base.specs.Prelude.{found_under};
ghost use Rattle.procs_tree.specs.InlineFaults.{IsFoundFault, inline_fault};
ghost use Rattle.procs_tree.specs.Measured.{HasSizes};
ghost use Rattle.procs_tree.specs.Numbered.{AreNumbered};
ghost use Rattle.procs_tree.specs.Seen.{bare_file, procedure_of};

use crate::call_faults::walk_file;
use crate::errors::InlineError;
use crate::finding::numbers_of;
use crate::own_names::{Numbers, procedures_fault};
use crate::sizes::{block_size, body_sizes};
use crate::trees::{PStmt, Proc};
use std::alloc::Global;

// The most statements of a program without calls.
const MAX_STATEMENTS: u64 = 8192;

/// The numbers of procedures by their names, and the sizes of their bodies.
#[derive(Drop)]
pub struct JudgedProcs<'a> {
    pub numbers: Numbers<'a>,
    pub sizes: Vec<u64>,
}

/// What is known of the procedures of a file without a fault, or its first fault.
pub fn judge<'a>(
    alloc: Global,
    procs: &'a [Proc],
    body: &[PStmt],
) -> Result<JudgedProcs<'a>, InlineError>
    ensures numbers { IfOk result (λ r. AreNumbered (map procedure_of procs.now) (found_under r.numbers)) }
    ensures sizes { IfOk result (λ r. HasSizes (map procedure_of procs.now) r.sizes.items) }
    ensures faultless { OnOk result (inline_fault (bare_file procs.now body.now) ≡ None) }
    ensures refused { IfErr result (λ e. IsFoundFault e (bare_file procs.now body.now)) }
{
    match procedures_fault(alloc, procs)? {
        Some(fault) => return Err(fault),
        None => {}
    }
    let numbers = numbers_of(alloc, procs)?;
    match walk_file(procs, &numbers, body) {
        Err(fault) => return Err(fault),
        Ok(_) => {}
    }
    let sizes = body_sizes(alloc, procs, &numbers)?;
    if block_size(procs, &numbers, sizes.as_slice(), procs.len(), body) > MAX_STATEMENTS {
        return Err(InlineError::TooLarge);
    }
    Ok(JudgedProcs { numbers, sizes })
}
