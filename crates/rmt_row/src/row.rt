ghost use Rattle.std.specs.Prelude.{◌≡◌, ◌<◌, length, IfOk};
ghost use Rattle.std.specs.Arc.{arc_value};
ghost use Rattle.rmt_row.specs.Puts.{IsPut, IsSet};

use crate::put_error::PutError;
use crate::seen::Seen;
use crate::shown::Shown;
use once_cell::race::OnceBox;
use std::alloc::{AllocError, Global};
use std::marker::Model;
use std::sync::Arc;

/// A fixed number of cells, each set once. Contracts see the names of its cells, in order.
#[derive(Drop)]
pub struct Row<T: Drop> {
    cells: Vec<OnceBox<Arc<T, Global>>>,
}

impl<T: Drop> Model for Row<T> {
    ghost use Rattle.std.specs.Prelude.{List, ℕ, map};
    ghost use Rattle.once_cell.specs.Once.{cell_name};

    ghost Value = { List ℕ };

    ghost view = { λ r. map cell_name r.cells.items };
}

impl<T: Drop> Row<T> {
    /// A row of so many cells. At an error no memory was left.
    pub fn new(alloc: Global, cells: usize) -> Result<Row<T>, AllocError>
        ensures { IfOk result (λ row. length row ≡ cells) }
    {
        let mut row = Vec::with_capacity(alloc, cells)?;
        'cells: for _ in 0..cells {
            row.push_reserved(OnceBox::new(alloc));
        }
        Ok(Row { cells: row })
    }

    /// How many cells it has.
    pub fn len(&self) -> usize
        ensures { result ≡ length self.now }
    {
        self.cells.len()
    }

    /// Sets a cell that nobody has set, and gives its token. At `Taken` it holds what somebody else set.
    pub fn set(&self, i: usize, value: Arc<T, Global>) -> Result<Seen<T>, PutError<T>>
        requires { i < length self.now }
        ensures { IsSet self.now i (arc_value value) result }
    {
        let alloc = *self.cells.allocator();
        let Ok(mine) = Arc::try_clone(&value) else {
            return Err(PutError::Memory(value));
        };
        let Ok(boxed) = Box::new(alloc, mine) else {
            return Err(PutError::Memory(value));
        };
        let cell = &self.cells[i];
        let mut note = cell.note();
        match cell.set_as(boxed, &mut note) {
            Ok(()) => Ok(Seen::new(i, value, Shown::of(&mut note))),
            Err(_) => match cell.get_as(&mut note) {
                Some(held) => {
                    let Ok(theirs) = Arc::try_clone(held) else {
                        return Err(PutError::Memory(value));
                    };
                    Err(PutError::Taken(Seen::new(i, theirs, Shown::of(&mut note))))
                }
                None => unreachable!(),
            },
        }
    }
}

impl<T: Eq + Drop> Row<T> {
    /// Sets a cell, and gives its token. A cell that holds an equal value is as good as one that was set.
    pub fn put(&self, i: usize, value: Arc<T, Global>) -> Result<Seen<T>, PutError<T>>
        requires { i < length self.now }
        ensures { IsPut T.PartialEq.eq self.now i (arc_value value) result }
    {
        let Ok(mine) = Arc::try_clone(&value) else {
            return Err(PutError::Memory(value));
        };
        match self.set(i, mine) {
            Err(PutError::Taken(seen)) => {
                if *seen.value() == *value {
                    Ok(seen)
                } else {
                    Err(PutError::Taken(seen))
                }
            }
            other => other,
        }
    }
}
