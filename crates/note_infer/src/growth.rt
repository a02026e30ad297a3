// Which branches are crossed: the lowest that may join does, until none may.
ghost use Rattle.std.specs.Prelude.{◌≡◌, ◌<◌, [], length, IfOk};
ghost use Rattle.lt_isa.specs.Prelude.{IsInRange};
ghost use Rattle.note_infer.specs.Growth.{HasLeast, HasLast, IsNextToJoin};
ghost use Rattle.note_infer.specs.Kept.{TellsOrigins, ListsJoiners, ListsRest};

use crate::crossed::Crossed;
use crate::joiners::Joiners;
use crate::joining::{Joining, may_join};
use crate::kept::join_next;
use crate::origins::{Origins, origins_of};
use gr_word::Memory;
use lt_isa::Object;
use region_walk::RegionValues;
use std::alloc::Global;
use trace_patterns::Known;

/// The last branches that are crossed, and the least states under them.
#[derive(Drop)]
pub struct Last {
    pub crossed: Crossed,
    pub states: Vec<Option<Known>>,
}

/// The lowest branch that may join those that are crossed, if one may. It is taken from those that are listed.
pub fn next_to_join(
    alloc: Global,
    object: &Object,
    crossed: &Crossed,
    shared: &mut RegionValues,
    states: &[Option<Known>],
    joiners: &mut Joiners,
) -> Result<Option<Joining>, Memory>
    requires range { IsInRange object.now }
    requires bare { object.now.notes ≡ [] }
    requires size { length states.now ≡ length object.now.code }
    requires listed { ListsJoiners object.now crossed.now.list states.now [] joiners.old }
    ensures found { IfOk result (λ found. IsNextToJoin object.now crossed.now.list states.now found) }
    ensures others { IfOk result (λ found. ListsRest object.now crossed.now.list states.now joiners.new found) }
{
    'taking: loop {
        match joiners.pop() {
            None => return Ok(None),
            Some(place) => match may_join(alloc, object, crossed, shared, states, place) {
                Err(_) => return Err(Memory),
                Ok(Some(join)) => return Ok(Some(Joining { place, join })),
                Ok(None) => {}
            },
        }
    }
}

/// The last branches that are crossed, from the least states where none is, with the branches that may join then.
pub fn grown(
    alloc: Global,
    object: &Object,
    shared: &mut RegionValues,
    begun: Crossed,
    first: Vec<Option<Known>>,
    listed: Joiners,
) -> Result<Last, Memory>
    requires range { IsInRange object.now }
    requires bare { object.now.notes ≡ [] }
    requires size { begun.size ≡ length object.now.code }
    requires none { begun.list ≡ [] }
    requires first { HasLeast object.now [] first.items }
    requires listed { ListsJoiners object.now [] first.items [] listed }
    ensures { IfOk result (λ last. HasLast object.now last.crossed.list last.states.items) }
{
    match origins_of(alloc, object) {
        Err(_) => Err(Memory),
        Ok(origins) => grown_by(alloc, object, shared, &origins, begun, first, listed),
    }
}

// The same, with lists of the places from which jumps and branches lead to each place.
fn grown_by(
    alloc: Global,
    object: &Object,
    shared: &mut RegionValues,
    origins: &Origins,
    begun: Crossed,
    first: Vec<Option<Known>>,
    listed: Joiners,
) -> Result<Last, Memory>
    requires range { IsInRange object.now }
    requires bare { object.now.notes ≡ [] }
    requires origins { TellsOrigins object.now origins.now.last.items origins.now.before.items }
    requires size { begun.size ≡ length object.now.code }
    requires none { begun.list ≡ [] }
    requires first { HasLeast object.now [] first.items }
    requires listed { ListsJoiners object.now [] first.items [] listed }
    ensures { IfOk result (λ last. HasLast object.now last.crossed.list last.states.items) }
{
    let mut crossed = begun;
    let mut states = first;
    let mut joiners = listed;
    'growing: loop {
        match next_to_join(alloc, object, &crossed, shared, &states, &mut joiners) {
            Err(_) => return Err(Memory),
            Ok(None) => return Ok(Last { crossed, states }),
            Ok(Some(found)) => {
                match join_next(
                    alloc,
                    object,
                    &mut crossed,
                    shared,
                    origins,
                    states,
                    &mut joiners,
                    found,
                ) {
                    Err(_) => return Err(Memory),
                    Ok(next) => states = next,
                }
            }
        }
    }
}
