ghost use Rattle.std.specs.Prelude.{◌≡◌, ◌<◌, ◌-◌, ◌^◌, [], Some, true, length, take, slice_get, IfOk, OnOk, OnErr};
ghost use Rattle.symbolic_values.specs.Trees.{NamesBelow, built, trees_of};
ghost use Rattle.symbolic_values.specs.Tables.{IsTable, IsNumber, KeepsTrees, PlacedAt};

use crate::code_hash::CodeHash;
use crate::nodes::Node;
use gr_base::Memory;
use indexmap::IndexSet;
use lt_isa::Instr;
use std::alloc::Global;
use std::marker::Model;

/// A table of nodes in which each tree has one number. Contracts see it as the list of its nodes.
#[derive(Drop)]
pub struct Values {
    nodes: IndexSet<Node, CodeHash>,
    // The number after the one that was found last. Arms that do the same look for the same nodes in the same order, so
    // this number is tried before the node is hashed.
    next: u32,
}

impl Model for Values {
    ghost use Rattle.std.specs.Prelude.{List};
    ghost use Rattle.symbolic_values.specs.declared.nodes.Node.{Node as OneNode};
    ghost use Rattle.symbolic_values.specs.Tables.{IsTable};

    ghost Value = { List OneNode };

    ghost view = { λ v. v.nodes.keys };

    ghost invariant = { λ v. IsTable v.nodes.keys };
}

impl Values {
    /// An empty table, for values of no code.
    pub fn new(alloc: Global) -> Values
        ensures empty { result ≡ [] }
        ensures table { IsTable result }
    {
        Values::for_code(alloc, &[])
    }

    /// An empty table, for values of some code. Look-ups take the same time for any constants in the code, since the
    /// keys of the hash are computed from the whole code, which is read once here.
    pub fn for_code(alloc: Global, code: &[Instr]) -> Values
        ensures empty { result ≡ [] }
        ensures table { IsTable result }
    {
        Values {
            nodes: IndexSet::with_hasher(alloc, CodeHash::of(code)),
            next: 0,
        }
    }

    /// The number of nodes. The numbers of the table are those below it.
    pub fn len(&self) -> u32
        ensures len { result ≡ length self.now }
        ensures table { IsTable self.now }
    {
        self.nodes.len() as u32
    }

    /// The node with number `i`. The nodes that it names have lower numbers.
    pub fn node(&self, i: u32) -> Node
        requires { i < length self.now }
        ensures node { slice_get self.now i ≡ Some result }
        ensures earlier { NamesBelow i result }
        ensures table { IsTable self.now }
    {
        self.nodes.as_slice()[i as usize]
    }

    /// The number of the tree of a node. If the table doesn't have the node, it is added. Earlier numbers keep their
    /// trees. Running out of memory leaves the table as it was.
    #[inline(always)]
    pub fn add(&mut self, node: Node) -> Result<u32, Memory>
        requires names { NamesBelow (length self.old) node }
        requires room { length self.old < 2 ^ 32 - 1 }
        ensures number { IfOk result (λ i. IsNumber self.new i (built (trees_of self.old) node)) }
        ensures place { IfOk result (λ i. PlacedAt self.old node i self.new) }
        ensures keeps { OnOk result (KeepsTrees self.old self.new) }
        ensures table { IsTable self.new }
        ensures unchanged { OnErr result (self.new ≡ self.old) }
    {
        put(&mut self.nodes, &mut self.next, node)
    }

    /// Keeps the first `count` nodes, and the room that the others took.
    pub fn keep(&mut self, count: u32)
        ensures first { self.new ≡ take count self.old }
        ensures table { IsTable self.new }
    {
        self.nodes.truncate(count as usize);
    }
}

// The place of a node among others; if it isn't there, it is added at the end. The place `next` is tried first, and
// `next` becomes the place after the node's.
#[inline(always)]
fn put(nodes: &mut IndexSet<Node, CodeHash>, next: &mut u32, node: Node) -> Result<u32, Memory>
    requires { length nodes.old.keys < 2 ^ 32 - 1 }
    ensures place { IfOk result (λ i. PlacedAt nodes.old.keys node i nodes.new.keys) }
    ensures unchanged { OnErr result (nodes.new.keys ≡ nodes.old.keys) }
{
    let guess = *next;
    if stands_at(nodes.as_slice(), guess, node) {
        *next = guess.wrapping_add(1);
        return Ok(guess);
    }
    match insert(nodes, node) {
        Err(_) => Err(Memory),
        Ok(place) => {
            *next = place.wrapping_add(1);
            Ok(place)
        }
    }
}

// Whether a node is at a place.
#[inline(always)]
fn stands_at(nodes: &[Node], place: u32, node: Node) -> bool
    ensures { result ≡ true → slice_get nodes.now place ≡ Some node }
{
    match nodes.get(place as usize) {
        None => false,
        Some(found) => *found == node,
    }
}

// The same by the hash of the node. It is a function of its own, so that a call that finds the node at the place `next`
// doesn't need its stack.
#[inline(never)]
fn insert(nodes: &mut IndexSet<Node, CodeHash>, node: Node) -> Result<u32, Memory>
    requires { length nodes.old.keys < 2 ^ 32 - 1 }
    ensures place { IfOk result (λ i. PlacedAt nodes.old.keys node i nodes.new.keys) }
    ensures unchanged { OnErr result (nodes.new.keys ≡ nodes.old.keys) }
{
    let (place, _) = nodes.insert_full(node)?;
    Ok(place as u32)
}
