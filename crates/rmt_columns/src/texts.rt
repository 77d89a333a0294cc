ghost use Rattle.std.specs.Prelude.{◌≡◌, [], ◌∷◌, ◌++◌, length, slice_get, IfOk, OnOk, OnErr};
ghost use Rattle.std.specs.Option.{option_map};
ghost use Rattle.rmt_values.specs.Rows.{AllBelow};
ghost use Rattle.rmt_columns.specs.Places.{at_places};
ghost use Rattle.rmt_columns.specs.TextEnds.{start_of as start_told};

use std::alloc::{AllocError, Global};
use std::marker::Model;

/// Strings one after the other in one vector of bytes, with the end of each in another. Contracts see the list of Strings.
#[derive(Debug, Drop)]
pub struct Texts {
    bytes: Vec<u8>,
    ends: Vec<usize>,
}

impl Model for Texts {
    ghost use Rattle.std.specs.Prelude.{ℕ, List, length};
    ghost use Rattle.rmt_columns.specs.TextEnds.{texts_of, EndAt};

    ghost Value = { List (List ℕ) };

    ghost view = { λ t. texts_of t.bytes.items 0 t.ends.items };

    ghost invariant = { λ t. EndAt 0 t.ends.items (length t.bytes.items) };
}

impl Texts {
    /// Makes a list of no Strings that has room for so many, which have so many bytes in all.
    pub fn with_capacity(alloc: Global, count: usize, bytes: usize) -> Result<Texts, AllocError>
        ensures { IfOk result (λ texts. texts ≡ []) }
    {
        let bytes = Vec::with_capacity(alloc, bytes)?;
        let ends = Vec::with_capacity(alloc, count)?;
        Ok(Texts { bytes, ends })
    }

    /// How many Strings there are.
    pub fn len(&self) -> usize
        ensures { result ≡ length self.now }
    {
        self.ends.len()
    }

    /// String `i`, counted from 0, where there is one.
    pub fn get(&self, i: usize) -> Option<&[u8]>
        ensures { option_map (λ text. text.now) result ≡ slice_get self.now i }
    {
        if i >= self.ends.len() {
            return None;
        }
        let start = start_of(&self.ends, i);
        let (before, _) = self.bytes.as_slice().split_at(self.ends[i]);
        let (_, text) = before.split_at(start);
        Some(text)
    }

    /// Puts a String at the end.
    pub fn push(&mut self, text: &[u8]) -> Result<(), AllocError>
        ensures ok { OnOk result (self.new ≡ self.old ++ text.now ∷ []) }
        ensures err { OnErr result (self.new ≡ self.old) }
    {
        self.ends.reserve(1)?;
        self.bytes.extend_from_slice(text)?;
        self.ends.push(self.bytes.len())?;
        Ok(())
    }

    /// The Strings at these places, counted from 0, in the order of the places.
    pub fn gather(&self, alloc: Global, places: &[usize]) -> Result<Texts, AllocError>
        requires { AllBelow (length self.now) places.now }
        ensures { IfOk result (λ texts. texts ≡ at_places self.now places.now) }
    {
        let bytes = self.bytes_at(places);
        let mut texts = Texts::with_capacity(alloc, places.len(), bytes)?;
        'places: for place in places {
            if let Some(text) = self.get(*place) {
                texts.push(text)?;
            }
        }
        Ok(texts)
    }

    /// Returns a copy.
    pub fn copy(&self) -> Result<Texts, AllocError>
        ensures { IfOk result (λ texts. texts ≡ self.now) }
    {
        let bytes = self.bytes.clone()?;
        let ends = self.ends.clone()?;
        Ok(Texts { bytes, ends })
    }

    /// How many bytes the Strings at these places have, where no number is too great for that.
    fn bytes_at(&self, places: &[usize]) -> usize {
        let mut bytes: usize = 0;
        'places: for place in places {
            if let Some(text) = self.get(*place) {
                bytes = bytes.saturating_add(text.len());
            }
        }
        bytes
    }
}

/// Where String `i` begins: at the end of the one before it.
fn start_of(ends: &[usize], i: usize) -> usize
    ensures { result ≡ start_told ends.now i }
{
    if i == 0 || i > ends.len() {
        return 0;
    }
    ends[i - 1]
}
