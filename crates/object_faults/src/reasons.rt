//! What the reasons of the check mean, each in one place.

use trace_patterns::Reason;

/// What a reason of the check means, and how to fix it.
pub(crate) fn of_reason(reason: Reason) -> &'static str {
    match reason {
        Reason::SecretAddress => {
            "The observer sees which block of plain or encrypted memory is accessed. The number of this block may \
            depend on a secret, or isn't known in an arm.\nStore data that secrets index in an oblivious bank."
        }
        Reason::SecretToRam => {
            "This would write a secret, or write at a secret address, to plain memory, which the observer sees.\nStore \
            it in encrypted or oblivious memory."
        }
        Reason::UnboundSlot => {
            "This instruction uses a slot whose bank isn't known here.\nLoad the slot first, on every path to this place; if there \
            is a note here, claim the slot's bank in it."
        }
        Reason::JumpOutside => "The target is outside the code.\nCorrect the target.",
        Reason::NoNote => {
            "A note is missing.\nPut a `.note` directly before the instruction at the target. The instruction after a \
            `jmp` or a `halt` needs one too, unless it is dead code, which you can remove. `infer` writes all notes."
        }
        Reason::NoteTooLow => {
            "A note claims more than is known on a path that reaches it.\nMark the registers that may hold secrets, \
            and claim only banks that are known on every path. `infer` writes the least notes."
        }
        Reason::SecretLoop => {
            "A branch on a secret, or a jump or branch in one of its arms, goes backwards or to itself, so the number of \
            iterations would leak.\nLoop on public values only."
        }
        Reason::HaltInSecret =>
            "There is a halt in an arm of a branch on a secret.\nHalt after the join.",
        Reason::RamStoreInSecret => {
            "An arm of a branch on a secret writes to plain memory, which the observer sees.\nWrite plain memory in \
            public code."
        }
        Reason::UnequalArms => {
            "The two paths through a branch on a secret don't make the same accesses at the same cycles, or the check \
            can't tell that they do.\nMake the same accesses to the same blocks on both paths, and pad with `nop`s."
        }
        Reason::BadRegion => {
            "This branch on a secret doesn't have two arms that join, or has a note in an arm, or is nested too deeply \
            (64 branches on secrets at most).\nEnd the first arm with a `jmp` over the second, so that they join \
            after it."
        }
        Reason::RunsOffEnd =>
            "Execution can run past the last instruction.\nEnd the code with `halt` or `jmp`.",
        Reason::SecretSymbolInRam => {
            "A secret variable is in plain memory, bank 0, whose words the observer sees.\nMove it to another bank."
        }
    }
}
