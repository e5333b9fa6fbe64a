// What is done to the list of the releases to come.
ghost use Rattle.std.specs.Prelude.{◌≡◌, []};
ghost use Rattle.ready.specs.Waiting.{first_of, rest_of};
ghost use Rattle.heap.specs.Releases.{coming, coming_answer, coming_list};

use super::Releases;
use crate::release::Release;
use crate::slots::{HeapRefusal, add, remove};
use ready::put::TASKS;

impl Releases {
    // No release is to come.
    pub fn new() -> Releases
        ensures { coming result ≡ [] }
    {
        Releases {
            slots: [Release::default(); TASKS as usize],
            len: 0,
        }
    }

    // Sets a release at its place, or refuses it where 32 wait and leaves the list as it was.
    pub fn add(&mut self, release: Release) -> Result<(), HeapRefusal>
        ensures answer { result ≡ coming_answer (coming self.old) }
        ensures list { coming self.new ≡ coming_list release (coming self.old) }
    {
        add(&mut self.slots, self.len, release)?;
        self.len += 1;
        Ok(())
    }

    // The earliest release, or none.
    pub fn first(&self) -> Option<Release>
        ensures { result ≡ first_of (coming self.now) }
    {
        self.slots[..self.len].first().copied()
    }

    // Takes the earliest release out, if there is one.
    pub fn take(&mut self) -> Option<Release>
        ensures answer { result ≡ first_of (coming self.old) }
        ensures list { coming self.new ≡ rest_of (coming self.old) }
    {
        let release = remove(&mut self.slots, self.len)?;
        self.len -= 1;
        Some(release)
    }
}
