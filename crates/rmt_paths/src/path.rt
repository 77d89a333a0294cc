ghost use Rattle.std.specs.Prelude.{◌≡◌, ◌≢◌, ◌∷◌, ◌++◌, [], IfOk, IfErr};
ghost use Rattle.rmt_paths.specs.declared.path_error.PathError.TheVariants as PathError;
ghost use Rattle.rmt_paths.specs.PathReading.{EndsName, ReadsByte};
ghost use Rattle.rmt_paths.specs.Paths.{Names, path_text, IsPath, IsName, last_name, child, numbered};
ghost use Rattle.rmt_paths.specs.ChildRange.{children_start};

use crate::digits::ten_digits;
use crate::path_error::PathError;
use crate::place::Place;
use crate::segment::Segment;
use std::alloc::{AllocError, Global};
use std::marker::Model;

/// The path of a node below the root: one or more names. Contracts see the list of the names, each as its bytes.
#[derive(Debug, Drop)]
pub struct Path {
    place: Place,
    start: Place,
}

impl Model for Path {
    ghost use Rattle.rmt_paths.specs.Paths.{Names};
    ghost use Rattle.rmt_paths.specs.ChildRange.{HasStart};

    ghost Value = { Names };

    ghost view = { λ p. p.place };

    ghost invariant = { λ p. HasStart p.place p.start };
}

/// The path at a place below the root.
fn path_at(alloc: Global, place: Place) -> Result<Path, AllocError>
    requires { IsPath place }
    ensures { IfOk result (λ path. path ≡ place) }
{
    let start = place.children_start(alloc)?;
    Ok(Path { place, start })
}

/// What was read of a text: whole names, and the bytes of the unfinished one.
#[derive(Drop)]
struct Reading {
    names: Vec<Segment>,
    name: Vec<u8>,
}

/// Ends a name.
fn end_name(reading: Reading, alloc: Global) -> Result<Reading, PathError>
    ensures ok { IfOk result
        (λ r. EndsName reading.names.items reading.name.items r.names.items r.name.items) }
    ensures bad { IfErr result (λ e. e ≡ PathError.BadPath → reading.name.items ≡ []) }
{
    let Reading { names, name } = reading;
    if name.is_empty() {
        return Err(PathError::BadPath);
    }
    let names = added(names, Segment::new(name))?;
    Ok(Reading {
        names,
        name: Vec::new(alloc),
    })
}

/// The names, and this one after them.
fn added(names: Vec<Segment>, name: Segment) -> Result<Vec<Segment>, AllocError>
    ensures { IfOk result (λ all. all.items ≡ names.items ++ name ∷ []) }
{
    let mut names = names;
    names.push(name)?;
    Ok(names)
}

/// The bytes, and this one after them.
fn longer(bytes: Vec<u8>, byte: u8) -> Result<Vec<u8>, AllocError>
    ensures { IfOk result (λ all. all.items ≡ bytes.items ++ byte ∷ []) }
{
    let mut bytes = bytes;
    bytes.push(byte)?;
    Ok(bytes)
}

/// Reads one more byte.
fn read_byte(reading: Reading, alloc: Global, byte: u8) -> Result<Reading, PathError>
    ensures ok { IfOk result
        (λ r. ReadsByte byte reading.names.items reading.name.items r.names.items r.name.items) }
    ensures bad { IfErr result (λ e. e ≡ PathError.BadPath → (byte ≡ 47) × (reading.name.items
        ≡ [])) }
{
    if byte == b'/' {
        return end_name(reading, alloc);
    }
    let Reading { names, name } = reading;
    let name = longer(name, byte)?;
    Ok(Reading { names, name })
}

/// The names of a path's text.
fn read_names(alloc: Global, bytes: &[u8]) -> Result<Vec<Segment>, PathError>
    ensures ok { IfOk result (λ names. (path_text names.items ≡ bytes.now) × IsPath names.items) }
    ensures bad { IfErr result (λ e. e ≡ PathError.BadPath → (p : Names) → IsPath p
        → path_text p ≢ bytes.now) }
{
    if bytes.is_empty() {
        return Err(PathError::BadPath);
    }
    if bytes[0] != b'/' {
        return Err(PathError::BadPath);
    }
    let mut reading = Reading {
        names: Vec::new(alloc),
        name: Vec::new(alloc),
    };
    'bytes: for index in 1..bytes.len() {
        reading = match read_byte(reading, alloc, bytes[index]) {
            Ok(more) => more,
            Err(error) => return Err(error),
        };
    }
    match end_name(reading, alloc) {
        Ok(reading) => Ok(reading.names),
        Err(error) => Err(error),
    }
}

impl Path {
    /// Reads a text: one or more names, each of one or more bytes and after a slash.
    ///
    /// At `BadPath` no path has this text.
    pub fn new(alloc: Global, text: &str) -> Result<Path, PathError>
        ensures ok { IfOk result (λ path. (path_text path ≡ text.now) × IsPath path) }
        ensures bad { IfErr result (λ e. e ≡ PathError.BadPath → (p : Names) → IsPath p
            → path_text p ≢ text.now) }
    {
        match read_names(alloc, text.as_bytes()) {
            Ok(names) => {
                let path = path_at(alloc, Place::new(names))?;
                Ok(path)
            }
            Err(error) => Err(error),
        }
    }

    /// The text of the path.
    pub fn text(&self, alloc: Global) -> Result<Vec<u8>, AllocError>
        ensures { IfOk result (λ text. text.items ≡ path_text self.now) }
    {
        self.place.text(alloc)
    }

    /// The last name.
    pub fn last_name(&self) -> &[u8]
        ensures { result.now ≡ last_name self.now }
    {
        self.place.last_name()
    }

    /// The path with one more name, of one or more bytes without a slash.
    pub fn child(&self, alloc: Global, name: &[u8]) -> Result<Path, AllocError>
        requires { IsName name.now }
        ensures { IfOk result (λ path. path ≡ child self.now name.now) }
    {
        let name = Segment::new(Vec::from_slice(alloc, name)?);
        let place = self.place.child(alloc, name)?;
        path_at(alloc, place)
    }

    /// Returns a copy.
    pub fn copy(&self, alloc: Global) -> Result<Path, AllocError>
        ensures { IfOk result (λ other. other ≡ self.now) }
    {
        let place = self.place.copy(alloc)?;
        let start = self.start.copy(alloc)?;
        Ok(Path { place, start })
    }

    /// The path with a number after its last name, as ten digits.
    pub fn numbered(&self, alloc: Global, number: u32) -> Result<Path, AllocError>
        ensures { IfOk result (λ path. path ≡ numbered self.now number) }
    {
        let digits = ten_digits(number);
        let place = self.place.with_suffix(alloc, &digits)?;
        path_at(alloc, place)
    }

    /// The place of the node.
    pub fn place(&self) -> &Place
        ensures place { result.now ≡ self.now }
        ensures path { IsPath self.now }
    {
        &self.place
    }

    /// The least place that is not before any child.
    pub fn children_start(&self) -> &Place
        ensures place { result.now ≡ children_start self.now }
        ensures path { IsPath self.now }
    {
        &self.start
    }
}
