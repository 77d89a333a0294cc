ghost use Rattle.std.specs.Prelude.{◌≡◌, ◌++◌, Some, refl, IfOk, IsTrue, ◌↔◌, []};
ghost use Rattle.std.specs.Ordering.{is_eq};
ghost use Rattle.std.specs.Cmp.{partial_equiv_from_equiv};
ghost use Rattle.rmt_paths.specs.ChildRange.{children_start, children_end};
ghost use Rattle.rmt_paths.specs.Paths.{path_text, parent, last_name, child};
ghost use Rattle.rmt_paths.specs.PathOrder.{path_cmp, is_path, are_siblings, path_total, path_equiv, path_po};

use crate::segment::Segment;
use std::alloc::{AllocError, Global};
use std::cmp::Ordering;
use std::marker::Model;

/// Where a node is: its names from the root on, none for the root itself. Contracts see the list of the names.
#[derive(Debug, Drop)]
pub struct Place {
    names: Vec<Segment>,
}

impl Model for Place {
    ghost use Rattle.rmt_paths.specs.Paths.{Names};

    ghost Value = { Names };

    ghost view = { λ p. p.names.items };
}

/// Copies of these names.
fn copies(alloc: Global, names: &[Segment]) -> Result<Vec<Segment>, AllocError>
    ensures { IfOk result (λ others. others.items ≡ names.now) }
{
    let mut others = Vec::with_capacity(alloc, names.len())?;
    'names: for name in names {
        others.push(name.copy()?)?;
    }
    Ok(others)
}

/// The name of these bytes, and of those after them.
fn joined(alloc: Global, bytes: &[u8], suffix: &[u8]) -> Result<Segment, AllocError>
    ensures { IfOk result (λ name. name ≡ bytes.now ++ suffix.now) }
{
    let mut name = Vec::with_capacity(alloc, bytes.len())?;
    name.extend_from_slice(bytes)?;
    name.extend_from_slice(suffix)?;
    Ok(Segment::new(name))
}

impl Place {
    /// The root.
    pub(crate) fn root(alloc: Global) -> Place
        ensures { result ≡ [] }
    {
        Place {
            names: Vec::new(alloc),
        }
    }

    /// Makes the place of these names, from the root on.
    pub(crate) fn new(names: Vec<Segment>) -> Place
        ensures { result ≡ names.items }
    {
        Place { names }
    }

    /// Whether it is the root.
    pub fn is_root(&self) -> bool
        ensures { result ≡ is_path self.now [] }
    {
        self.names.is_empty()
    }

    /// Returns a copy.
    pub fn copy(&self, alloc: Global) -> Result<Place, AllocError>
        ensures { IfOk result (λ other. other ≡ self.now) }
    {
        let names = copies(alloc, &self.names)?;
        Ok(Place { names })
    }

    /// The place above; the root, at the root.
    pub fn parent(&self, alloc: Global) -> Result<Place, AllocError>
        ensures { IfOk result (λ above. above ≡ parent self.now) }
    {
        if self.names.is_empty() {
            return Ok(Place::root(alloc));
        }
        let (above, _) = self.names.split_at(self.names.len() - 1);
        let names = copies(alloc, above)?;
        Ok(Place { names })
    }

    /// The place with one more name.
    pub fn child(&self, alloc: Global, name: Segment) -> Result<Place, AllocError>
        ensures { IfOk result (λ below. below ≡ child self.now name) }
    {
        let mut names = copies(alloc, &self.names)?;
        names.push(name)?;
        Ok(Place { names })
    }

    /// Whether both are right below one place. It takes no memory.
    pub fn is_sibling(&self, other: &Place) -> bool
        ensures { result ≡ are_siblings self.now other.now }
    {
        match (self.names.split_last(), other.names.split_last()) {
            (Some((_, above)), Some((_, others))) => above.cmp(others).is_eq(),
            _ => false,
        }
    }

    /// The names, from the root on.
    pub fn names(&self) -> &[Segment]
        ensures { result.now ≡ self.now }
    {
        &self.names
    }

    /// The last name; nothing at the root.
    pub fn last_name(&self) -> &[u8]
        ensures { result.now ≡ last_name self.now }
    {
        match self.names.last() {
            Some(name) => name.as_bytes(),
            None => &[],
        }
    }

    /// The place with more bytes after its last name.
    pub(crate) fn with_suffix(&self, alloc: Global, suffix: &[u8]) -> Result<Place, AllocError>
        ensures { IfOk result (λ place. place
            ≡ child (parent self.now) (last_name self.now ++ suffix.now)) }
    {
        let above = self.parent(alloc)?;
        let name = joined(alloc, self.last_name(), suffix)?;
        above.child(alloc, name)
    }

    /// The text of the names, each after a slash.
    pub(crate) fn text(&self, alloc: Global) -> Result<Vec<u8>, AllocError>
        ensures { IfOk result (λ text. text.items ≡ path_text self.now) }
    {
        let mut text = Vec::new(alloc);
        let all = self.names.as_slice();
        'names: for name in all {
            text.push(b'/')?;
            text.extend_from_slice(name.as_bytes())?;
        }
        Ok(text)
    }

    /// The least place that is not before any child.
    pub fn children_start(&self, alloc: Global) -> Result<Place, AllocError>
        ensures { IfOk result (λ place. place ≡ children_start self.now) }
    {
        self.child(alloc, Segment::new(Vec::new(alloc)))
    }

    /// The least place that is after all children.
    pub fn children_end(&self, alloc: Global) -> Result<Place, AllocError>
        ensures { IfOk result (λ place. place ≡ children_end self.now) }
    {
        let next = self.with_suffix(alloc, &[0])?;
        next.children_start(alloc)
    }
}

impl PartialEq for Place {
    ghost eq = { is_path };

    ghost laws = { partial_equiv_from_equiv path_equiv };

    fn eq(&self, other: &Place) -> bool {
        self.cmp(other).is_eq()
    }
}

impl Eq for Place {
    ghost laws = { path_equiv };
}

impl PartialOrd for Place {
    ghost partial_cmp = { λ a b. Some (path_cmp a b) };

    ghost laws = { path_po };

    fn partial_cmp(&self, other: &Place) -> Option<Ordering> {
        Some(self.cmp(other))
    }
}

impl Ord for Place {
    ghost cmp = { path_cmp };

    ghost total = { path_total };

    ghost matches_partial_cmp = { λ a b. refl };

    ghost matches_eq = { λ a b. refl };

    fn cmp(&self, other: &Place) -> Ordering {
        self.names
            .len()
            .cmp(&other.names.len())
            .then(self.names.as_slice().cmp(other.names.as_slice()))
    }
}
