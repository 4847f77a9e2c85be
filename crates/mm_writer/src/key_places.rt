//! Where the records of a key stand in a region.
ghost use Rattle.std.specs.Prelude.{◌≡◌, ◌+◌, ◌≤◌, ◌∷◌, List, IfSome, length};
ghost use Rattle.mm_writer.specs.KeyPlaces.{old_place, places_in, places_or, twin_place};
ghost use Rattle.var_region.specs.Found.{seen};
ghost use Rattle.var_types.specs.Key.{key_of};
ghost use Rattle.var_types.specs.Live.{Live};
ghost use Rattle.var_types.specs.Region.{region_lives};

use var_region::{Found, Region, has_key};
use var_types::{Guid, RecordState};

/// The offset of a key's first record in each state.
#[derive(Clone, Copy, Debug)]
pub(crate) struct KeyPlaces {
    pub(crate) added: Option<u32>,
    pub(crate) in_transition: Option<u32>,
}

impl KeyPlaces {
    // With a live record behind those that were looked at.
    fn with(self, found: &Found, guid: &Guid, name: &[u16]) -> KeyPlaces
        ensures { (ls : List Live)
            → places_or result (places_in (key_of guid.now name.now) ls) ≡ places_or self (places_in (key_of guid.now name.now) (seen found.now ∷ ls)) }
    {
        if !has_key(found, guid, name) {
            return self;
        }
        match found.state {
            RecordState::Added => KeyPlaces {
                added: self.added.or(Some(found.at)),
                in_transition: self.in_transition,
            },
            RecordState::InDeletedTransition => KeyPlaces {
                added: self.added,
                in_transition: self.in_transition.or(Some(found.at)),
            },
        }
    }

    /// The places of a key's records, found in one pass.
    pub(crate) fn of(region: &Region, guid: &Guid, name: &[u16]) -> KeyPlaces
        ensures { result ≡ places_in (key_of guid.now name.now) (region_lives region.now) }
    {
        let mut places = KeyPlaces {
            added: None,
            in_transition: None,
        };
        for found in region.lives() {
            places = places.with(&found, guid, name);
        }
        places
    }

    /// The place of the record in transition to deleted that stands beside an ADDED one.
    pub(crate) fn twin(&self) -> Option<u32>
        ensures { result ≡ twin_place self.now }
    {
        match self.added {
            Some(_) => self.in_transition,
            None => None,
        }
    }

    /// The place of the record that counts.
    pub(crate) fn old(&self) -> Option<u32>
        ensures { result ≡ old_place self.now }
    {
        self.added.or(self.in_transition)
    }
}
