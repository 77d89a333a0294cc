use crate::{PutError, Row, Seen, agree};
use std::alloc::Global;
use std::sync::Arc;
use std::test::Fail;
use std::thread::{join, map_indices};

/// What the first cell holds after this value was put there, and whether it is this value.
fn put_first(row: &Row<usize>, alloc: Global, value: usize) -> Option<(Seen<usize>, bool)> {
    if row.len() == 0 {
        return None;
    }
    let value = Arc::new(alloc, value).ok()?;
    match row.put(0, value) {
        Ok(seen) => Some((seen, true)),
        Err(PutError::Taken(seen)) => Some((seen, false)),
        Err(PutError::Memory(_)) => None,
    }
}

#[test]
fn a_cell_keeps_its_first_value(rt: HostRuntime) -> Result<(), Fail> {
    let alloc = rt.alloc();
    let row: Row<u64> = Row::new(alloc, 2)?;
    let five = Arc::new(alloc, 5u64)?;
    let six = Arc::new(alloc, 6u64)?;
    let again = Arc::new(alloc, 5u64)?;
    let other = Arc::new(alloc, 6u64)?;
    assert!(rt; row.put(0, five).is_ok());
    assert!(rt; row.put(0, again).is_ok());
    assert!(rt; row.put(1, other).is_ok());
    match row.put(0, six) {
        Err(PutError::Taken(seen)) => {
            assert!(rt; *seen.value() == 5 && seen.place() == 0);
            let other = seen.copy()?;
            agree(&seen, &other);
            let (a, b) = join(&rt, || *seen.value(), || *other.value());
            assert!(rt; a == b);
        }
        Err(PutError::Memory(_six)) => assert!(rt; false),
        Ok(_seen) => assert!(rt; false),
    }
    Ok(())
}

#[test]
fn threads_that_put_into_one_cell_hold_one_value(rt: HostRuntime) -> Result<(), Fail> {
    let alloc = rt.alloc();
    for _ in 0..100u32 {
        let row: Row<usize> = Row::new(alloc, 1)?;
        let answers = map_indices(&rt, alloc, 8, &|i| put_first(&row, alloc, i))?;
        let mut sets = 0u32;
        let mut held = None;
        for (i, answer) in answers.iter().enumerate() {
            let Some((seen, is_set)) = answer else {
                assert!(rt; false);
                continue;
            };
            let value = *seen.value();
            assert!(rt; *held.get_or_insert(value) == value);
            assert!(rt; *is_set == (value == i));
            if *is_set {
                sets = sets.saturating_add(1);
            }
        }
        assert!(rt; sets == 1);
    }
    Ok(())
}

#[test]
fn a_row_has_a_cell_for_each_entry_of_a_log(rt: HostRuntime) -> Result<(), Fail> {
    let alloc = rt.alloc();
    let row: Row<u64> = Row::new(alloc, 65_536)?;
    assert!(rt; row.len() == 65_536);
    let value = Arc::new(alloc, 1u64)?;
    assert!(rt; row.put(65_535, value).is_ok());
    Ok(())
}
