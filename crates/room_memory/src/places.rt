//! Where objects stand: their numbers by parent and name.
ghost use Rattle.std.specs.Prelude.{◌≡◌, [], Some, None, IfOk, OnOk, OnErr, string_bytes};
ghost use Rattle.std.specs.BTreeMap.{IsOrdered};
ghost use Rattle.std.specs.Option.{option_map};
ghost use Rattle.std.specs.Ordering.{nat_cmp, ordering_then};
ghost use Rattle.std.specs.String.{string_cmp};
ghost use Rattle.room_memory.specs.Places.{
  id_at,
  places_under,
  text_place,
  Lists,
  KeepsOtherPlaces,
  Moves,
};

use std::alloc::{AllocError, Global};
use std::collections::BTreeMap;
use std::collections::btree_map::Range;

/// A parent and a name under it.
pub(crate) type Place = (u64, String);

/// The place of this name under this parent.
pub(crate) fn place_at(alloc: Global, parent: u64, name: &str) -> Result<Place, AllocError>
    ensures parent { IfOk result (λ place. place.0 ≡ parent) }
    ensures name { IfOk result (λ place. string_bytes place.1 ≡ name.now) }
{
    Ok((parent, String::from_str(alloc, name)?))
}

/// The numbers of objects by their places. Places at which no object stands may be listed too.
#[derive(Drop)]
pub(crate) struct Places {
    ids: BTreeMap<(u64, String), u64>,
}

impl Places {
    pub(crate) fn new(alloc: Global) -> Places
        ensures { result.ids.entries ≡ [] }
    {
        Places {
            ids: BTreeMap::new(alloc),
        }
    }

    /// A copy.
    pub(crate) fn copy(&self) -> Result<Places, AllocError>
        ensures { IfOk result (λ copy.
            KeepsOtherPlaces None self.now.ids.entries copy.ids.entries) }
    {
        Ok(Places {
            ids: self.ids.clone()?,
        })
    }

    /// The number that is listed at the place.
    pub(crate) fn at(&self, place: &Place) -> Option<u64>
        ensures { result ≡ id_at place.now.0 (string_bytes place.now.1) self.now.ids.entries }
    {
        self.ids.get(place).copied()
    }

    /// Lists the number at the place, where another one may have been.
    pub(crate) fn put(&mut self, place: Place, id: u64) -> Result<(), AllocError>
        ensures ok { OnOk result (Lists place.0 (string_bytes place.1) id
            self.old.ids.entries self.new.ids.entries) }
        ensures err { OnErr result (self.new.ids.entries ≡ self.old.ids.entries) }
    {
        self.ids.insert(place, id)?;
        Ok(())
    }

    /// Lists the number at the place, and none at the one where it was, if there is one.
    pub(crate) fn move_to(
        &mut self,
        before: Option<Place>,
        place: Place,
        id: u64,
    ) -> Result<(), AllocError>
        ensures ok { OnOk result
            (Moves (option_map text_place before) place.0 (string_bytes place.1) id
            self.old.ids.entries self.new.ids.entries) }
        ensures err { OnErr result (self.new.ids.entries ≡ self.old.ids.entries) }
    {
        self.put(place, id)?;
        self.take(&before);
        Ok(())
    }

    /// Lists no number at the place, if there is one.
    pub(crate) fn take(&mut self, place: &Option<Place>)
        ensures { KeepsOtherPlaces (option_map text_place place.now)
            self.old.ids.entries self.new.ids.entries }
    {
        match place {
            Some(place) => self.take_at(place),
            None => {}
        }
    }

    fn take_at(&mut self, place: &Place)
        ensures { KeepsOtherPlaces (Some (text_place place.now))
            self.old.ids.entries self.new.ids.entries }
    {
        self.ids.remove(place);
    }

    /// What is listed under the parent, in order of name, and what may be listed after it.
    pub(crate) fn under(
        &self,
        alloc: Global,
        parent: u64,
    ) -> Result<Range<'_, (u64, String), u64>, AllocError>
        ensures listed { IfOk result (λ places.
            places_under parent places ≡ places_under parent self.now.ids.entries) }
        ensures ordered { OnOk result
            (IsOrdered (λ x y. ordering_then (nat_cmp x.0 y.0) (string_cmp x.1 y.1))
            self.now.ids) }
    {
        let start = place_at(alloc, parent, "")?;
        match parent.checked_add(1) {
            Some(next) => {
                let end = place_at(alloc, next, "")?;
                Ok(self.ids.range(start..end))
            }
            None => Ok(self.ids.range(start..)),
        }
    }
}
