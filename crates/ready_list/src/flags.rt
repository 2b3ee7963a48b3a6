//! A set of ids, kept as a flag for each id below its room.
ghost use Rattle.std.specs.Prelude.{◌≡◌, ℕ, ◌-◌, ◌<◌, ◌≤◌, ◌++◌, false, true, length, IfOk, IsOk, OnOk, OnErr, replicate, slice_set};
ghost use Rattle.ready_list.specs.Listed.{is_set};

use super::memory::Memory;
use std::alloc::Global;
use std::marker::Model;

/// A set of ids below a room, seen as the list of its flags, of which the room is the length.
#[derive(Drop)]
pub struct Flags {
    flags: Vec<bool>,
}

impl Model for Flags {
    ghost use Rattle.std.specs.Prelude.{List, Bool, ℕ, ◌<◌, ◌^◌, length};

    ghost Value = { List Bool };

    ghost view = { λ f. f.flags.items };

    ghost invariant = { λ f. length f.flags.items < 2 ^ 32 };
}

impl Flags {
    /// The empty set with room for the ids below `n`, in time linear in `n`. `Memory` where there is none left.
    pub fn with_room(alloc: Global, n: u32) -> Result<Flags, Memory>
        ensures { IfOk result (λ f. f ≡ replicate n false) }
    {
        let mut flags = Vec::new(alloc);
        flags.resize(n as usize, false)?;
        Ok(Flags { flags })
    }

    /// Makes the room at least `n`, in time linear in what it adds: the set stays. `Memory` where there is none left; then
    /// nothing changes.
    pub fn grow(&mut self, n: u32) -> Result<(), Memory>
        ensures ok { OnOk result (self.new ≡ self.old ++ replicate (n - length self.old) false) }
        ensures enough { n ≤ length self.old → IsOk result }
        ensures err { OnErr result (self.new ≡ self.old) }
    {
        let n = n as usize;
        if self.flags.len() < n {
            self.flags.resize(n, false)?;
        }
        Ok(())
    }

    /// How many ids there is room for.
    pub fn room(&self) -> u32
        ensures { result ≡ length self.now }
    {
        self.flags.len() as u32
    }

    /// Puts an id into the set.
    pub fn set(&mut self, id: u32)
        requires { id < length self.old }
        ensures { self.new ≡ slice_set self.old id true }
    {
        self.flags[id as usize] = true;
    }

    /// Takes an id out of the set.
    pub fn clear(&mut self, id: u32)
        requires { id < length self.old }
        ensures { self.new ≡ slice_set self.old id false }
    {
        self.flags[id as usize] = false;
    }

    /// Whether an id is in the set.
    pub fn has(&self, id: u32) -> bool
        requires { id < length self.now }
        ensures { result ≡ is_set self.now id }
    {
        self.flags[id as usize]
    }
}
