//! Why an object can't share the bus with others.

use fault_texts::Words;
use lt_isa::Object;

/// An object of a bus, by the name of its file.
#[derive(Drop)]
pub struct Core<'a> {
    pub name: &'a str,
    pub object: Object,
}

/// The part of each period in which the accesses of a core may be on the bus, from a cycle up to another.
#[derive(Clone, Copy)]
struct Reach {
    from: u64,
    up_to: u64,
}

fn period_of(object: &Object) -> u64 {
    u64::from(object.profile().period)
}

fn reach_of(object: &Object) -> Reach {
    let profile = object.profile();
    let mut longest = 0u32;
    for bank in object.banks() {
        longest = longest.max(bank.latency);
    }
    Reach {
        from: u64::from(profile.opens),
        up_to: u64::from(profile.closes)
            .saturating_add(u64::from(longest))
            .saturating_sub(1),
    }
}

/// Explains why the first object that can't share the bus with those before it can't.
pub fn explain_bus(cores: &[Core<'_>], out: &mut Words) {
    for (number, core) in cores.iter().enumerate() {
        if let Some(why) = lack_of(cores, number, core) {
            out.name(core.name);
            out.fill(": core {} can't share the bus: ", &[number as u64]);
            out.fill(why.words, &why.numbers);
            break;
        }
    }
}

/// Why a core can't share the bus, with the numbers that go into the words.
#[derive(Clone, Copy)]
struct Lack {
    words: &'static str,
    numbers: [u64; 5],
}

fn lack_of(cores: &[Core<'_>], number: usize, core: &Core<'_>) -> Option<Lack> {
    let period = period_of(&core.object);
    let ours = reach_of(&core.object);
    let first = match cores.first() {
        Some(other) => period_of(&other.object),
        None => period,
    };
    if period == 1 {
        return Some(Lack {
            words: "its memory is always open\nGive it a window, with `compile --window P:O:C` or `.object 2`.\n",
            numbers: [0; 5],
        });
    }
    if first != period {
        return Some(Lack {
            words: "its period is {} cycles, and the period of core 0 is {}\nGive all objects the same period.\n",
            numbers: [period, first, 0, 0, 0],
        });
    }
    if period < ours.up_to {
        return Some(Lack {
            words: "its accesses may use the bus up to cycle {} of a period, which has only {}\nClose its window \
            earlier, or give all objects a longer period.\n",
            numbers: [ours.up_to, period, 0, 0, 0],
        });
    }
    for (before, other) in cores.iter().enumerate().take(number) {
        let theirs = reach_of(&other.object);
        if ours.from < theirs.up_to && theirs.from < ours.up_to {
            return Some(Lack {
                words: "its accesses may use the bus from cycle {} up to {} of a period, and the accesses of core {} \
                from {} up to {}\nOpen its window after the other core's accesses end, or close it before they \
                begin.\n",
                numbers: [
                    ours.from,
                    ours.up_to,
                    before as u64,
                    theirs.from,
                    theirs.up_to,
                ],
            });
        }
    }
    None
}
