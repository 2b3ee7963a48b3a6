//! A list of ids without repeats, in which each step takes constant time.
ghost use Rattle.std.specs.Prelude.{◌≡◌, ℕ, ◌<◌, ◌≤◌, ◌==◌, ◌++◌, ◌∷◌, [], ◌↔◌, max, not, true, false, length, find, option_to_list, Contains, IsTrue, IsNone, IfOk, IsOk, OnOk, OnErr};
ghost use Rattle.std.specs.Bool.{OnTrue, OnFalse};
ghost use Rattle.ready_list.specs.Listed.{IsWellFormed, without, is_set};

use super::chain::Chain;
use super::flags::Flags;
use super::memory::Memory;
use std::alloc::Global;
use std::marker::Model;

/// The place of the head: the first id stands after it, and the last before it.
const HEAD: u32 = 0;

/// A list of ids without repeats, seen as its ids from front to back and its room: each id below the room may enter.
#[derive(Drop)]
pub struct Links {
    chain: Chain,
    len: u32,
}

impl Model for Links {
    ghost use Rattle.ready_list.specs.Listed.{Listed};
    ghost use Rattle.ready_list.specs.Ring.{listed_by, IsList};

    ghost Value = { Listed };

    ghost view = { λ l. listed_by l.chain.next.items l.len };

    ghost invariant = { λ l. IsList l.chain.next.items l.chain.previous.items l.len };
}

impl Links {
    /// The empty list with room for the ids below `n`, in time linear in `n`. `Memory` where there is none left.
    pub fn with_room(alloc: Global, n: u32) -> Result<Links, Memory>
        ensures empty { IfOk result (λ list. list.ids ≡ []) }
        ensures room { IfOk result (λ list. list.room ≡ n) }
        ensures well_formed { IfOk result (λ list. IsWellFormed list) }
    {
        let mut chain = Chain::new(alloc);
        chain.grow(n as usize + 1)?;
        Ok(Links { chain, len: 0 })
    }

    /// Makes the room at least `n`, in time linear in what it adds: the list stays. `Memory` where there is none left; then
    /// nothing changes. Within the room no call takes memory.
    pub fn grow(&mut self, n: u32) -> Result<(), Memory>
        ensures ids { self.new.ids ≡ self.old.ids }
        ensures ok { OnOk result (self.new.room ≡ max self.old.room n) }
        ensures enough { n ≤ self.old.room → IsOk result }
        ensures err { OnErr result (self.new.room ≡ self.old.room) }
        ensures well_formed { IsWellFormed self.new }
    {
        let places = n as usize + 1;
        if self.chain.next.len() < places {
            self.chain.grow(places)?;
        }
        Ok(())
    }

    /// Adds an id behind the last, in constant time, unless it is in the list: then the answer is `false`.
    pub fn push_back(&mut self, id: u32) -> bool
        requires { id < self.old.room }
        ensures refused { (result ≡ false) ↔ Contains self.old.ids id }
        ensures added { OnTrue result (self.new.ids ≡ self.old.ids ++ id ∷ []) }
        ensures kept { OnFalse result (self.new.ids ≡ self.old.ids) }
        ensures room { self.new.room ≡ self.old.room }
        ensures well_formed { IsWellFormed self.new }
    {
        if self.contains(id) {
            return false;
        }
        self.chain.link_before(id + 1, HEAD);
        self.len += 1;
        true
    }

    /// Takes the first id out of the list, if there is one, in constant time.
    pub fn pop_front(&mut self) -> Option<u32>
        ensures none { IsNone result ↔ (self.old.ids ≡ []) }
        ensures first { self.old.ids ≡ option_to_list result ++ self.new.ids }
        ensures room { self.new.room ≡ self.old.room }
        ensures well_formed { IsWellFormed self.new }
    {
        let place = self.chain.next[HEAD as usize];
        if place == HEAD {
            return None;
        }
        self.chain.unlink(place);
        self.len -= 1;
        Some(place - 1)
    }

    /// Takes an id out of the list, in constant time, and answers whether it was in: the rest keeps its order.
    pub fn remove(&mut self, id: u32) -> bool
        ensures found { IsTrue result ↔ Contains self.old.ids id }
        ensures rest { self.new.ids ≡ without id self.old.ids }
        ensures room { self.new.room ≡ self.old.room }
        ensures well_formed { IsWellFormed self.new }
    {
        if !self.contains(id) {
            return false;
        }
        self.chain.unlink(id + 1);
        self.len -= 1;
        true
    }

    /// Whether an id is in the list, in constant time.
    pub fn contains(&self, id: u32) -> bool
        ensures found { IsTrue result ↔ Contains self.now.ids id }
        ensures well_formed { IsWellFormed self.now }
    {
        match self.chain.next.get(id as usize + 1) {
            Some(after) => *after != id + 1,
            None => false,
        }
    }

    /// How many ids are in the list.
    pub fn len(&self) -> u32
        ensures value { result ≡ length self.now.ids }
        ensures well_formed { IsWellFormed self.now }
    {
        self.len
    }

    /// Whether no id is in the list.
    pub fn is_empty(&self) -> bool
        ensures value { IsTrue result ↔ (self.now.ids ≡ []) }
        ensures well_formed { IsWellFormed self.now }
    {
        self.len == 0
    }

    /// How many ids there is room for.
    pub fn room(&self) -> u32
        ensures value { result ≡ self.now.room }
        ensures well_formed { IsWellFormed self.now }
    {
        (self.chain.next.len() - 1) as u32
    }

    /// The first id of the list that isn't in a set. It walks the list up to that id, and no further.
    pub fn first_not_in(&self, flags: &Flags) -> Option<u32>
        requires { self.now.room ≤ length flags.now }
        ensures first { result ≡ find (λ id. not (is_set flags.now id)) self.now.ids }
        ensures well_formed { IsWellFormed self.now }
    {
        let mut place = HEAD;
        for _ in 0..self.len {
            place = self.chain.next[place as usize];
            let id = place - 1;
            if !flags.has(id) {
                return Some(id);
            }
        }
        None
    }
}
