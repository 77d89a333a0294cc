ghost use Rattle.std.specs.Prelude.{◌≡◌, ◌↔◌, IsTrue, [], ◌∷◌, ◌++◌, length, OnOk, OnErr, IfOk};

use crate::copies::Copies;
use crate::equals::Equals;
use std::alloc::{AllocError, Global};
use std::fmt::{self, Debug, Formatter, Write};
use std::marker::Model;

/// A list in memory of its own. Contracts see the list of its elements.
#[derive(Drop)]
pub struct List<T> {
    items: Vec<T>,
}

impl<T> Model for List<T> {
    ghost use Rattle.std.specs.Prelude.{List as Elements};
    ghost use Rattle.std.specs.Coded.{coded_list};

    ghost Value = { Elements T };

    ghost coded = { coded_list T.code };

    ghost view = { λ l. l.items.items };
}

impl<T> List<T> {
    /// Makes a list of these elements.
    pub fn new(items: Vec<T>) -> List<T>
        ensures { result ≡ items.items }
    {
        List { items }
    }

    /// Makes a list of no elements.
    pub fn empty(alloc: Global) -> List<T>
        ensures { result ≡ [] }
    {
        List {
            items: Vec::new(alloc),
        }
    }

    /// Gives the elements back.
    pub fn into_vec(self) -> Vec<T>
        ensures { result.items ≡ self }
    {
        self.items
    }

    /// The elements, in order.
    pub fn as_slice(&self) -> &[T]
        ensures { result.now ≡ self.now }
    {
        self.items.as_slice()
    }

    /// How many elements there are.
    pub fn len(&self) -> usize
        ensures { result ≡ length self.now }
    {
        self.items.len()
    }
}

impl<T: Drop> List<T> {
    /// Puts an element at the end.
    pub fn push(&mut self, item: T) -> Result<(), AllocError>
        ensures ok { OnOk result (self.new ≡ self.old ++ item ∷ []) }
        ensures err { OnErr result (self.new ≡ self.old) }
    {
        self.items.push(item)?;
        Ok(())
    }
}

impl<T: Copies + Drop> Copies for List<T> {
    fn copy(&self) -> Result<List<T>, AllocError>
        ensures { IfOk result (λ other. other ≡ self.now) }
    {
        let mut items = Vec::with_capacity(*self.items.allocator(), self.items.len())?;
        let all = self.as_slice();
        'items: for item in all {
            items.push(item.copy()?)?;
        }
        Ok(List { items })
    }
}

impl<T: Equals> Equals for List<T> {
    fn equals(&self, other: &Self) -> bool
        ensures fact { IsTrue result ↔ (self.now ≡ other.now) }
    {
        all_equal(self.as_slice(), other.as_slice())
    }
}

/// Whether two slices have the same elements.
fn all_equal<T: Equals>(left: &[T], right: &[T]) -> bool
    ensures fact { IsTrue result ↔ (left.now ≡ right.now) }
{
    let (mut left, mut right) = (left, right);
    'items: loop {
        match (left, right) {
            ([], []) => return true,
            ([a, rest @ ..], [b, others @ ..]) => {
                if !a.equals(b) {
                    return false;
                }
                left = rest;
                right = others;
            }
            _ => return false,
        }
    }
}

/// Printed as a `Vec` is.
impl<T: Debug> Debug for List<T> {
    fn fmt<W: Write>(&self, f: &mut Formatter<W>) -> fmt::Result {
        Debug::fmt(&self.items, f)
    }
}
