//! The list and the set against plain ones.

ghost use Rattle.std.specs.Prelude.{◌<◌, ◌^◌};

use super::{Flags, Links};
use std::alloc::Global;
use std::process::Abort;
use std::test::Fail;

/// Numbers that look random and are the same on each run.
#[derive(Drop)]
struct Dice(u64);

impl Dice {
    fn roll(&mut self, sides: u64) -> u32
        requires low { 0 < sides }
        requires high { sides < 2 ^ 32 }
    {
        self.0 = self
            .0
            .wrapping_mul(6364136223846793005)
            .wrapping_add(1442695040888963407);
        ((self.0 >> 33) % sides) as u32
    }
}

/// A list and a set, each beside a plain vector of its members.
#[derive(Drop)]
struct Walk {
    links: Links,
    flags: Flags,
    list: Vec<u32>,
    set: Vec<u32>,
}

impl Walk {
    fn new(alloc: Global, room: u32) -> Result<Walk, Fail> {
        Ok(Walk {
            links: Links::with_room(alloc, room)?,
            flags: Flags::with_room(alloc, room)?,
            list: Vec::new(alloc),
            set: Vec::new(alloc),
        })
    }

    fn push(&mut self, rt: &impl Abort, id: u32) -> Result<(), Fail> {
        let fresh = !self.list.contains(&id);
        if fresh {
            self.list.push(id)?;
        }
        assert!(rt; id < self.links.room());
        assert_eq!(rt; self.links.push_back(id), fresh, "push of {id}");
        Ok(())
    }

    fn pop(&mut self, rt: &impl Abort) {
        let first = if self.list.is_empty() {
            None
        } else {
            Some(self.list.remove(0))
        };
        assert_eq!(rt; self.links.pop_front(), first, "pop");
    }

    fn remove(&mut self, rt: &impl Abort, id: u32) {
        let place = self.list.iter().position(|k| *k == id);
        if let Some(place) = place {
            self.list.remove(place);
        }
        assert_eq!(rt; self.links.remove(id), place.is_some(), "removal of {id}");
    }

    fn flip(&mut self, rt: &impl Abort, id: u32) -> Result<(), Fail> {
        assert!(rt; id < self.flags.room());
        match self.set.iter().position(|k| *k == id) {
            Some(place) => {
                self.set.remove(place);
                self.flags.clear(id);
            }
            None => {
                self.set.push(id)?;
                self.flags.set(id);
            }
        }
        Ok(())
    }

    fn step(&mut self, rt: &impl Abort, call: u32, id: u32) -> Result<(), Fail> {
        match call {
            0..=3 if id < self.links.room() => self.push(rt, id)?,
            4 => self.pop(rt),
            5 => self.remove(rt, id),
            6 if id < self.flags.room() => self.flip(rt, id)?,
            _ => {}
        }
        Ok(())
    }

    fn grow(&mut self, rt: &impl Abort, room: u32) -> Result<(), Fail> {
        self.flags.grow(room)?;
        self.links.grow(room)?;
        assert_eq!(rt; (self.links.room(), self.flags.room()), (room, room));
        Ok(())
    }

    fn compare_list(&self, rt: &impl Abort, id: u32) {
        assert_eq!(rt; self.links.len() as usize, self.list.len());
        assert_eq!(rt; self.links.is_empty(), self.list.is_empty());
        assert_eq!(rt;
            self.links.contains(id),
            self.list.contains(&id),
            "whether {id} is in the list"
        );
    }

    fn compare_set(&self, rt: &impl Abort, id: u32) {
        if id < self.flags.room() {
            assert_eq!(rt;
                self.flags.has(id),
                self.set.contains(&id),
                "whether {id} is in the set"
            );
        }
        let first = self.list.iter().copied().find(|k| !self.set.contains(k));
        assert!(rt; self.links.room() <= self.flags.room());
        assert_eq!(rt;
            self.links.first_not_in(&self.flags),
            first,
            "the first of the list that isn't in the set"
        );
    }
}

#[test]
fn ten_thousand_steps(rt: HostRuntime) -> Result<(), Fail> {
    let mut dice = Dice(2);
    let mut walk = Walk::new(rt.alloc(), 0)?;
    for step in 0..10_000 {
        match step {
            100 => walk.grow(&rt, 24)?,
            5_000 => walk.grow(&rt, 40)?,
            _ => {}
        }
        let id = match dice.roll(49) {
            48 => u32::MAX,
            id => id,
        };
        walk.step(&rt, dice.roll(8), id)?;
        walk.compare_list(&rt, id);
        walk.compare_set(&rt, id);
    }
    assert!(rt; walk.list.len() > 2, "the walk ends with a list");
    for _ in 0..41 {
        walk.pop(&rt);
    }
    assert!(rt; walk.links.is_empty());
    Ok(())
}
