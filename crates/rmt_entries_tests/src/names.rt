//! Texts that part names have, and texts of none.
use rmt_names::{PartitionId, parse, text};
use std::alloc::{AllocError, Global};
use std::test::Fail;

/// Texts with the partition, and with the lowest block, the highest one, the level and the mutation.
const NAMES: &[(&str, PartitionId, [u32; 4])] = &[
    ("all_0_0_0", None, [0, 0, 0, 0]),
    ("all_1_3_1", None, [1, 3, 1, 0]),
    ("all_0_2_1_1", None, [0, 2, 1, 1]),
    ("0_0_0_0", Some(0), [0, 0, 0, 0]),
    ("202405_10_19_2_23", Some(202405), [10, 19, 2, 23]),
    ("18446744073709551615_7_7_0", Some(u64::MAX), [7, 7, 0, 0]),
    ("9_0_4294967295_0", Some(9), [0, u32::MAX, 0, 0]),
    (
        "9_4294967295_4294967295_4294967295",
        Some(9),
        [u32::MAX, u32::MAX, u32::MAX, 0],
    ),
    ("all_100_101_1_4294967295", None, [100, 101, 1, u32::MAX]),
];

/// Texts that no name has.
const OTHERS: &[&str] = &[
    // Fields too few, too many or empty.
    "",
    "all",
    "_",
    "____",
    "all_0_0",
    "0_0_0",
    "_0_0_0",
    "all__0_0",
    "all_0_0_",
    "all_0_0_0_",
    "_all_0_0_0",
    "all_0_0_0_1_",
    "all_0_0_0_1_1",
    // Zeros at the start, signs and a mutation of 0.
    "all_00_0_0",
    "all_0_0_0_0",
    "all_0_0_0_00",
    "all_0_0_0_01",
    "00_0_0_0",
    "01_0_0_0",
    "+1_0_0_0",
    "-1_0_0_0",
    "all_+0_0_0",
    "all_0_-1_0",
    "all_0_0_-0",
    // Numbers out of range, and a highest below the lowest.
    "18446744073709551616_0_0_0",
    "all_0_4294967296_0",
    "all_4294967296_4294967296_0",
    "all_0_0_4294967296",
    "all_0_0_0_4294967296",
    "all_1_0_0",
    "5_4294967295_4294967294_0",
    // Other bytes.
    "ALL_0_0_0",
    "al_0_0_0",
    "alle_0_0_0",
    "all-0-0-0",
    " all_0_0_0",
    "all_0_0_0 ",
    "all_0_0_0\n",
    "all_0_0_\0",
    "all_0x1_1_0",
    "é_0_0_0",
    "all_0_0_٠",
    "０_0_0_0",
];

/// Whether a text is read as the name of these numbers, and written from it.
fn is_name(
    alloc: Global,
    row: &str,
    partition: PartitionId,
    numbers: [u32; 4],
) -> Result<bool, AllocError> {
    let Some(name) = parse(row) else {
        return Ok(false);
    };
    let found = [name.min(), name.max(), name.level(), name.mutation()];
    let written = text(alloc, &name)?;
    Ok(name.partition() == partition && found == numbers && written.as_str() == row)
}

#[test]
fn names_have_these_texts(rt: HostRuntime) -> Result<(), Fail> {
    for (row, partition, numbers) in NAMES {
        assert!(rt; is_name(rt.alloc(), row, *partition, *numbers)?, "{row}");
    }
    for row in OTHERS {
        assert!(rt; parse(row).is_none(), "{row:?}");
    }
    Ok(())
}
