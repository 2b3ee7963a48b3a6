//! Links between places by index, which lists with heads of their own can share.
//!
//! Each place stands in one ring of places. A place that is alone in its ring leads to itself, both ways: so it is in no
//! list, and a head that is alone is the head of an empty list.
ghost use Rattle.std.specs.Prelude.{◌≡◌, ◌≢◌, ℕ, ◌-◌, ◌<◌, ◌≤◌, ◌^◌, [], length, OnOk, OnErr, slice_index, vec_len, vec_capacity};
ghost use Rattle.ready_list.specs.Ring.{relinked, IsGrown};

use super::memory::Memory;
use std::alloc::Global;

/// The place after each place in its ring, and the one before it.
#[derive(Drop)]
pub(crate) struct Chain {
    pub(crate) next: Vec<u32>,
    pub(crate) previous: Vec<u32>,
}

/// Adds places that are alone until there are `places`, within the capacity.
fn add_alone(links: &mut Vec<u32>, places: usize)
    requires fit { places ≤ 2 ^ 32 }
    requires more { vec_len links.old ≤ places }
    requires reserved { places ≤ vec_capacity links.old }
    ensures { IsGrown links.old.items links.new.items places }
{
    for place in links.len()..places {
        links.push_reserved(place as u32);
    }
}

impl Chain {
    /// No places.
    pub(crate) fn new(alloc: Global) -> Chain
        ensures next { result.next.items ≡ [] }
        ensures previous { result.previous.items ≡ [] }
        ensures paired { vec_len result.previous ≡ vec_len result.next }
    {
        Chain {
            next: Vec::new(alloc),
            previous: Vec::new(alloc),
        }
    }

    /// Adds places that are alone until there are `places`. `Memory` where there is none left; then nothing changes.
    pub(crate) fn grow(&mut self, places: usize) -> Result<(), Memory>
        requires fit { places ≤ 2 ^ 32 }
        requires more { vec_len self.old.next ≤ places }
        requires paired { vec_len self.old.previous ≡ vec_len self.old.next }
        ensures next { OnOk result (IsGrown self.old.next.items self.new.next.items places) }
        ensures previous { OnOk result (IsGrown self.old.previous.items self.new.previous.items places) }
        ensures next_stays { OnErr result (self.new.next.items ≡ self.old.next.items) }
        ensures previous_stays { OnErr result (self.new.previous.items ≡ self.old.previous.items) }
    {
        let more = places - self.next.len();
        self.next.reserve(more)?;
        self.previous.reserve(more)?;
        add_alone(&mut self.next, places);
        add_alone(&mut self.previous, places);
        Ok(())
    }

    /// Takes a place out of its ring: it is alone then.
    pub(crate) fn unlink(&mut self, place: u32)
        requires next_in { place < vec_len self.old.next }
        requires previous_in { place < vec_len self.old.previous }
        requires before_in { slice_index self.old.previous.items place < vec_len self.old.next }
        requires after_in { slice_index self.old.next.items place < vec_len self.old.previous }
        ensures next { let before = slice_index self.old.previous.items place in
            let after = slice_index self.old.next.items place in
            self.new.next.items ≡ relinked self.old.next.items before after place place }
        ensures previous { let before = slice_index self.old.previous.items place in
            let after = slice_index self.old.next.items place in
            self.new.previous.items ≡ relinked self.old.previous.items after before place place }
    {
        let before = self.previous[place as usize];
        let after = self.next[place as usize];
        self.next[before as usize] = after;
        self.previous[after as usize] = before;
        self.next[place as usize] = place;
        self.previous[place as usize] = place;
    }

    /// Puts a place that is alone into the ring of `at`, before it.
    pub(crate) fn link_before(&mut self, place: u32, at: u32)
        requires next_in { place < vec_len self.old.next }
        requires previous_in { place < vec_len self.old.previous }
        requires at_in { at < vec_len self.old.previous }
        requires before_in { slice_index self.old.previous.items at < vec_len self.old.next }
        ensures next { let before = slice_index self.old.previous.items at in
            self.new.next.items ≡ relinked self.old.next.items before place place at }
        ensures previous { let before = slice_index self.old.previous.items at in
            self.new.previous.items ≡ relinked self.old.previous.items at place place before }
    {
        let before = self.previous[at as usize];
        self.next[before as usize] = place;
        self.previous[at as usize] = place;
        self.next[place as usize] = at;
        self.previous[place as usize] = before;
    }
}
