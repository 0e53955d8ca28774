// The lists of a salvage.
ghost use Rattle.std.specs.Prelude.{◌≡◌, ◌+◌, ◌<◌, length, set};
ghost use Rattle.salvage.specs.Parts.{Same};

use crate::Counts;

// Lent lists, and how many entries stand at their fronts: the indices of altered frames, beside these their places, and the indices of
// refused frames. A lifetime for each, so that whoever lent one knows it again at the end.
#[derive(Drop)]
pub(crate) struct Lists<'a, 'p, 'r> {
    altered: &'a mut [u64],
    places: &'p mut [u64],
    refused: &'r mut [u64],
    pub(crate) counts: Counts,
}

impl<'a, 'p, 'r> Lists<'a, 'p, 'r> {
    // With no entry yet.
    pub(crate) fn of(
        altered: &'a mut [u64],
        places: &'p mut [u64],
        refused: &'r mut [u64],
    ) -> Lists<'a, 'p, 'r>
        ensures altered { result.altered ≡ altered.entry }
        ensures places { result.places ≡ places.entry }
        ensures refused { result.«refused» ≡ «refused».entry }
        ensures counts { result.counts ≡ record { altered = 0; «refused» = 0 } }
    {
        Lists {
            altered,
            places,
            refused,
            counts: Counts {
                altered: 0,
                refused: 0,
            },
        }
    }

    // Frame n is altered, at these places.
    pub(crate) fn alter(&mut self, n: u64, places: u64)
        requires { (self.old.counts.altered < length self.old.altered.now) × (self.old.counts.altered < length self.old.places.now) }
        ensures same { Same self.old self.new }
        ensures altered { self.new.altered.now ≡ set self.old.altered.now self.old.counts.altered n }
        ensures places { self.new.places.now ≡ set self.old.places.now self.old.counts.altered places }
        ensures refused { self.new.«refused».now ≡ self.old.«refused».now }
        ensures counts { self.new.counts ≡ record { altered = self.old.counts.altered + 1; «refused» = self.old.counts.«refused» } }
    {
        let k = self.counts.altered;
        self.altered[k] = n;
        self.places[k] = places;
        self.counts.altered = k + 1;
    }

    // Frame n is refused.
    pub(crate) fn refuse(&mut self, n: u64)
        requires { self.old.counts.«refused» < length self.old.«refused».now }
        ensures same { Same self.old self.new }
        ensures altered { self.new.altered.now ≡ self.old.altered.now }
        ensures places { self.new.places.now ≡ self.old.places.now }
        ensures refused { self.new.«refused».now ≡ set self.old.«refused».now self.old.counts.«refused» n }
        ensures counts { self.new.counts ≡ record { altered = self.old.counts.altered; «refused» = self.old.counts.«refused» + 1 } }
    {
        let k = self.counts.refused;
        self.refused[k] = n;
        self.counts.refused = k + 1;
    }
}
