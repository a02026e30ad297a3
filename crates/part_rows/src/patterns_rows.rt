ghost use Rattle.std.specs.Prelude.{◌≡◌, IfOk};
ghost use Rattle.trace_patterns.specs.Prelude.{first_gap};

use gr_word::Op;
use lt_isa::Note;
use std::alloc::Global;
use std::test::Fail;
use symbolic_values::{Node, Values};
use trace_patterns::{Known, Pattern, SymEvent};

#[test]
fn equal_trees_have_one_number(rt: HostRuntime) -> Result<(), Fail> {
    let mut values = Values::new(rt.alloc());
    assert_eq!(rt; values.len(), 0);
    let nodes = [Node::Reg(1), Node::Const(512), Node::Reg(1), Node::Reg(2)];
    let numbers = [0, 1, 0, 2];
    for (node, number) in nodes.iter().zip(numbers.iter()) {
        assert!(rt; values.len() < 100);
        match values.add(*node) {
            Ok(given) => assert_eq!(rt; given, *number),
            Err(_) => return Err(Fail::from("no memory")),
        }
    }
    assert_eq!(rt; values.len(), 3);
    for (op, number) in [(Op::Remu, 3), (Op::Add, 4), (Op::Remu, 3)] {
        assert!(rt; 2 < values.len() && values.len() < 100);
        match values.add(Node::Apply(op, 0, 1)) {
            Ok(given) => assert_eq!(rt; given, number),
            Err(_) => return Err(Fail::from("no memory")),
        }
    }
    assert_eq!(rt; values.len(), 5);
    assert_eq!(rt; values.node(3), Node::Apply(Op::Remu, 0, 1));
    Ok(())
}

// A gap, a read of encrypted memory and another gap.
fn read_between(alloc: Global, before: u32, after: u32) -> Result<Pattern, Fail>
    ensures { IfOk result (λ p. first_gap p ≡ before) }
{
    let mut pattern = Pattern::new(alloc);
    pattern.push_gap(before);
    let Ok(()) = pattern.push_event(SymEvent::EncRead(7)) else {
        return Err(Fail::from("no memory"));
    };
    pattern.push_gap(after);
    Ok(pattern)
}

// Two gaps, followed by a read between gaps.
fn met_gaps(alloc: Global) -> Result<Pattern, Fail> {
    let read = read_between(alloc, 0, 3)?;
    let mut arm = Pattern::new(alloc);
    arm.push_gap(1);
    arm.push_gap(1);
    match arm.append(&read) {
        Ok(()) => Ok(arm),
        Err(_) => Err(Fail::from("no memory")),
    }
}

fn is_read_between(alloc: Global, arm: &Pattern, before: u32, after: u32) -> Result<bool, Fail> {
    Ok(arm.same(&read_between(alloc, before, after)?))
}

#[test]
fn gaps_that_meet_are_one(rt: HostRuntime) -> Result<(), Fail> {
    let arm = met_gaps(rt.alloc())?;
    assert_eq!(rt;
        (
            is_read_between(rt.alloc(), &arm, 2, 3)?,
            is_read_between(rt.alloc(), &arm, 3, 3)?,
            is_read_between(rt.alloc(), &arm, 2, 2)?
        ),
        (true, false, false)
    );
    assert!(rt; !arm.same(&Pattern::new(rt.alloc())));
    Ok(())
}

#[test]
fn what_is_known_fits_a_note(rt: HostRuntime) {
    let mut known = Known::start();
    known.set_secret(5, true);
    known.set_bank(0, 9);
    known.set_secret(5, false);
    known.set_secret(3, true);
    known.set_bank(0, 2);
    let claimed = Known::of_note(&Note {
        pc: 4,
        secrets: 8,
        slots: [2, 255, 255, 255, 255, 255, 255, 255],
    });
    assert_eq!(rt; known.bank(0), Some(2));
    assert_eq!(rt; known.bank(1), None);
    assert!(rt; known.either_secret(1, 3));
    assert!(rt; known.fits(&claimed));
    assert!(rt; known.copied().fits(&claimed));
    assert!(rt; !known.fits(&Known::start()));
}
