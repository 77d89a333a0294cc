//! Log entries with their bytes, which were worked out by hand.
use rmt_entries::{EntryError, bytes, entry_of};
use std::alloc::{AllocError, Global};
use std::test::Fail;

/// Bytes, and the entry that they are decoded as; none where no entry has them.
///
/// A Get of block 7 of a partition, a Merge, a Mutate, an UPDATE with each kind of right side, a DELETE with each
/// comparison, type and connective, and a DropRange.
const ENTRIES: &[(&str, Option<&str>)] = &[
    (
        "010100000000000316a500000007000102030405060708090a0b0c0d0e0f101112131415161718191a1b1c1d1eff0102",
        Some(
            "Get { partition: Some(202405), number: 7, digest: [0, 1, 2, 3, 4, 5, 6, 7, 8, 9, 10, 11, 12, 13, 14, 15, 16, 17, 18, 19, 20, 21, 22, 23, 24, 25, 26, 27, 28, 29, 30, 255], source: 1, need: 2 }",
        ),
    ),
    (
        "0200000000010000012c0000000100000004000000030002000000000100000002000000000000000400000000030000012c0000000000000000",
        Some(
            "Merge { new: PartName { partition: None, min: 1, max: 300, level: 1, mutation: 4 }, sources: [PartName { partition: None, min: 1, max: 2, level: 0, mutation: 4 }, PartName { partition: None, min: 3, max: 300, level: 0, mutation: 0 }], count: 3 }",
        ),
    ),
    (
        "030100000000000000010000000000000000000000000000000001000000000000000100000000000000000000000000000005000111700000000100000002",
        Some(
            "Mutate { old: PartName { partition: Some(1), min: 0, max: 0, level: 0, mutation: 0 }, new: PartName { partition: Some(1), min: 0, max: 0, level: 0, mutation: 5 }, upto: 70000, count: 1, mcount: 2 }",
        ),
    ),
    (
        "04000000030002000000000901000000000000000500000001010004000000030002616200010100020002020002010000000000000007000303000302fffffffffffffffe0100010201000000000000000a",
        Some(
            "Mutation { id: 3, numbers: [(None, 9), (Some(5), 1)], command: Update { sets: [(0, Literal(Text(Blob { bytes: [97, 98] }))), (1, Column(2)), (2, Plus { column: 2, by: UInt(7) }), (3, Minus { column: 3, by: Int(-2) })], filter: Test { column: 1, cmp: Ne, value: UInt(10) } } }",
        ),
    ),
    (
        "04000000000000020203010000010100000000000000010100010302ffffffffffffffff04020101020503000178030100000401ffffffffffffffff01000006030000",
        Some(
            "Mutation { id: 0, numbers: [], command: Delete { filter: Both(Boxed { inner: Either(Boxed { inner: Test { column: 0, cmp: Eq, value: UInt(1) } }, Boxed { inner: Test { column: 1, cmp: Lt, value: Int(-1) } }) }, Boxed { inner: Not(Boxed { inner: Both(Boxed { inner: Test { column: 258, cmp: Gt, value: Text(Blob { bytes: [120] }) } }, Boxed { inner: Either(Boxed { inner: Test { column: 0, cmp: Le, value: UInt(18446744073709551615) } }, Boxed { inner: Test { column: 0, cmp: Ge, value: Text(Blob { bytes: [] }) } }) }) }) }) } }",
        ),
    ),
    (
        "050000000001",
        Some("DropRange { partition: None, number: 1 }"),
    ),
    // An unknown kind, a partition that begins with 2, a Merge of one source, a Mutate of a part whose min is above its
    // max, and an UPDATE of no columns.
    ("060000000001", None),
    ("0502000000000000000100000001", None),
    (
        "0200000000010000000200000001000000000000000200010000000001000000020000000000000000",
        None,
    ),
    (
        "0300000000010000000000000000000000000000000001000000010000000000000005000000050000000100000001",
        None,
    ),
    ("0400000000000001000001000001010000000000000000", None),
];

/// The bytes of a text in hexadecimal.
fn decoded(alloc: Global, text: &str) -> Result<Vec<u8>, AllocError> {
    let mut out = Vec::new(alloc);
    let mut high = None;
    for digit in text.as_bytes() {
        let value = match *digit {
            b'a'..=b'f' => digit.wrapping_sub(b'a').wrapping_add(10),
            _ => digit.wrapping_sub(b'0'),
        };
        match high {
            None => high = Some(value.wrapping_mul(16)),
            Some(sixteens) => {
                out.push(value.wrapping_add(sixteens))?;
                high = None;
            }
        }
    }
    Ok(out)
}

/// Whether bytes are decoded as an entry of this text, which is encoded as these bytes; or as none.
fn is_decoded(alloc: Global, all: &[u8], expected: Option<&str>) -> Result<bool, Fail> {
    match entry_of(alloc, all) {
        Ok(entry) => {
            let again = bytes(alloc, &entry)?;
            let found = format!(in alloc; "{entry:?}")?;
            Ok(again.as_slice() == all && Some(found.as_str()) == expected)
        }
        Err(EntryError::NotAnEntry) => Ok(expected.is_none()),
        Err(EntryError::Memory) => Err("out of memory".into()),
    }
}

#[test]
fn entries_have_these_bytes(rt: HostRuntime) -> Result<(), Fail> {
    for (row, expected) in ENTRIES {
        let all = decoded(rt.alloc(), row)?;
        assert!(rt; is_decoded(rt.alloc(), &all, *expected)?, "{row}");
    }
    Ok(())
}
