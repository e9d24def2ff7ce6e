// A place for each number below a bound, with octets or nothing.
ghost use Rattle.std.specs.Prelude.{ℕ, List, ◌≡◌, ◌≤◌, ◌<◌, ◌++◌, true, if◌then◌else◌, length, is_some, is_none, slice_set, IfOk, None};
ghost use Rattle.mu_reference.specs.Words.{piece_at};
ghost use Rattle.mu_model_node.specs.Slots.{empty, at, put, is_full, received, missing, joined, held_count};

use mu_report::NumberSet;
use std::alloc::{AllocError, Global};
use std::marker::Model;

/// Octets of a block or a chunk.
#[derive(Drop)]
pub struct Octets {
    octets: Vec<u8>,
}

impl Model for Octets {
    ghost use Rattle.std.specs.Prelude.{ℕ, List};

    ghost Value = { List ℕ };

    ghost view = { λ o. o.octets.items };
}

impl Octets {
    /// These octets.
    pub fn new(octets: Vec<u8>) -> Octets
        ensures { result ≡ octets.items }
    {
        Octets { octets }
    }

    pub fn as_slice(&self) -> &[u8]
        ensures { result.now ≡ self.now }
    {
        self.octets.as_slice()
    }
}

/// A finite map from the numbers below a bound to octets.
#[derive(Drop)]
pub struct Slots {
    places: Vec<Option<Octets>>,
    // How many places have nothing.
    lacking: usize,
}

impl Model for Slots {
    ghost use Rattle.std.specs.Prelude.{◌≡◌, is_none};
    ghost use Rattle.std.specs.List.{count_by};
    ghost use Rattle.mu_model_node.specs.Slots.{Slots};

    ghost Value = { Slots };

    ghost view = { λ s. s.places.items };

    ghost invariant = { λ s. s.lacking ≡ count_by is_none s.places.items };
}

impl Slots {
    /// So many places with nothing.
    #[tactic(auto, using(crate::proofs::Lacking::lacking_empty))]
    pub fn empty(alloc: Global, count: usize) -> Result<Slots, AllocError>
        ensures { IfOk result (λ slots. slots ≡ empty count) }
    {
        let mut places = Vec::new(alloc);
        for _ in 0..count {
            places.push(None)?;
        }
        Ok(Slots {
            places,
            lacking: count,
        })
    }

    /// No places.
    pub fn none(alloc: Global) -> Slots
        ensures { result ≡ empty 0 }
    {
        Slots {
            places: Vec::new(alloc),
            lacking: 0,
        }
    }

    /// How many places there are.
    pub fn len(&self) -> usize
        ensures { result ≡ length self.now }
    {
        self.places.len()
    }

    /// How many places have something.
    #[tactic(auto, using(crate::proofs::Lacking::held_and_lacking))]
    pub fn held(&self) -> usize
        ensures { result ≡ held_count self.now }
    {
        self.places.len() - self.lacking
    }

    /// Whether there is something at a place.
    pub fn has(&self, place: usize) -> bool
        ensures { result ≡ is_some (at self.now place) }
    {
        match self.places.get(place) {
            Some(Some(_)) => true,
            _ => false,
        }
    }

    /// Whether there is something at every place.
    #[tactic(auto, using(crate::proofs::Lacking::full_test))]
    pub fn is_full(&self) -> bool
        ensures { result ≡ is_full self.now }
    {
        self.lacking == 0
    }

    /// Whether there is something at every place once octets are put at one that has nothing.
    #[tactic(auto, using(crate::proofs::Lacking::fills_test))]
    pub fn fills(&self, place: usize) -> bool
        requires within { place < length self.now }
        requires lacks { at self.now place ≡ None }
        ensures { (octets : List ℕ) → result ≡ is_full (put self.now place octets) }
    {
        self.lacking == 1
    }

    /// Puts octets at a place that has nothing.
    #[tactic(auto, using(crate::proofs::Lacking::one_less, crate::proofs::Lacking::some_lacking))]
    pub fn put(&mut self, place: usize, octets: Octets)
        requires within { place < length self.old }
        requires lacks { at self.old place ≡ None }
        ensures { self.new ≡ put self.old place octets }
    {
        self.places[place] = Some(octets);
        self.lacking -= 1;
    }

    /// How many octets are there: the room that they need joined.
    fn size(&self) -> usize {
        let mut size: usize = 0;
        for place in &self.places {
            if let Some(octets) = place {
                size = size.saturating_add(octets.as_slice().len());
            }
        }
        size
    }

    /// All that is there, in order.
    #[tactic(auto, using(crate::proofs::Places::joined_more))]
    pub fn joined(&self, alloc: Global) -> Result<Vec<u8>, AllocError>
        ensures { IfOk result (λ octets. octets.items ≡ joined self.now) }
    {
        let mut all = Vec::with_capacity(alloc, self.size())?;
        for place in &self.places {
            append(&mut all, place)?;
        }
        Ok(all)
    }

    /// All that is there, in order, once octets are put at a place.
    #[tactic(auto, using(crate::proofs::Places::joined_put))]
    pub fn joined_with(
        &self,
        alloc: Global,
        place: usize,
        octets: &[u8],
    ) -> Result<Vec<u8>, AllocError>
        ensures { IfOk result (λ all. all.items ≡ joined (put self.now place octets.now)) }
    {
        let mut all = Vec::with_capacity(alloc, self.size().saturating_add(octets.len()))?;
        for (index, here) in self.places.iter().enumerate() {
            append_either(&mut all, index == place, octets, here)?;
        }
        Ok(all)
    }

    /// The set of the places with nothing.
    #[tactic(auto, using(crate::proofs::Places::noted_more, crate::proofs::Places::noted_length, crate::proofs::Places::noted_all, crate::proofs::Places::noted_none))]
    pub fn missing(&self) -> NumberSet
        requires { length self.now ≤ 2048 }
        ensures { result ≡ missing self.now }
    {
        let mut set = NumberSet::new(self.places.len() as u16);
        for (index, place) in self.places.iter().enumerate() {
            note(&mut set, index as u16, place);
        }
        set
    }

    /// The set of the places with something.
    #[tactic(auto, using(crate::proofs::Looked::missing_of_missing))]
    pub fn received(&self) -> NumberSet
        requires { length self.now ≤ 2048 }
        ensures { result ≡ received self.now }
    {
        self.missing().missing()
    }
}

fn append(all: &mut Vec<u8>, place: &Option<Octets>) -> Result<(), AllocError>
    ensures { IfOk result (λ _. all.new.items ≡ all.old.items ++ piece_at place.now) }
{
    match place {
        Some(octets) => all.extend_from_slice(octets.as_slice())?,
        None => (),
    }
    Ok(())
}

fn append_either(
    all: &mut Vec<u8>,
    is_new: bool,
    octets: &[u8],
    place: &Option<Octets>,
) -> Result<(), AllocError>
    ensures { IfOk result (λ _. all.new.items ≡ all.old.items ++ (if is_new then octets.now else piece_at place.now)) }
{
    if is_new {
        all.extend_from_slice(octets)?;
        Ok(())
    } else {
        append(all, place)
    }
}

fn note(set: &mut NumberSet, index: u16, place: &Option<Octets>)
    requires { index < length set.old }
    ensures { set.new ≡ (if is_none place.now then slice_set set.old index true else set.old) }
{
    if place.is_none() {
        set.insert(index);
    }
}
