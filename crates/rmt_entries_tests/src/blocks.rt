//! Blocks with their bytes and digests, and the texts of ids.
use crate::tables::Datum::{Int, Text, UInt};
use crate::tables::Table;
use rmt_block::{Block, BlockId, bytes, id, id_text};
use rmt_values::Kind;
use std::alloc::{AllocError, Global};
use std::test::Fail;

// What `sha256sum` writes for the bytes of the blocks.
const OF_NUMBERS: [u8; 32] = [
    0xdf, 0x27, 0x11, 0xe5, 0x3a, 0xaf, 0x7f, 0xd0, 0x63, 0xa9, 0x0f, 0xf4, 0x4e, 0xc5, 0xd3, 0x18,
    0x03, 0xae, 0x64, 0xd9, 0x53, 0x7e, 0x61, 0xeb, 0x28, 0xa7, 0xe0, 0x91, 0x95, 0x0f, 0xcf, 0x16,
];

const OF_TWO_COLUMNS: [u8; 32] = [
    0x69, 0x03, 0xa0, 0xd8, 0xe9, 0xde, 0x8f, 0xc7, 0x92, 0x5c, 0x0f, 0xa2, 0x55, 0x7b, 0x16, 0xc3,
    0x20, 0xad, 0xb9, 0x36, 0x0c, 0x81, 0x38, 0xe6, 0xc4, 0x16, 0x4f, 0xb5, 0x7c, 0x1b, 0x56, 0xaf,
];

const OF_NO_ROWS: [u8; 32] = [
    0x1a, 0x21, 0xc5, 0xc6, 0x8e, 0x74, 0xf8, 0xdb, 0x19, 0xbc, 0x2d, 0x3c, 0xaa, 0x19, 0x25, 0xbb,
    0xd4, 0xcc, 0x04, 0x12, 0xb9, 0x46, 0xd9, 0x5b, 0x1d, 0x52, 0x8d, 0x67, 0xe6, 0xd4, 0xbc, 0xda,
];

/// A block with what it is as bytes, and their digest.
struct Case {
    table: Table,
    bytes: &'static [u8],
    digest: [u8; 32],
}

const BLOCKS: &[Case] = &[
    Case {
        table: Table {
            columns: &[(b'a', Kind::UInt64)],
            key: b"",
            granularity: 8192,
            rows: &[&[UInt(7)], &[UInt(8)]],
        },
        bytes: b"\x00\x01\x01\x00\x00\x00\x02\x00\x00\x00\x00\x00\x00\x00\x07\x00\x00\x00\x00\x00\x00\x00\x08",
        digest: OF_NUMBERS,
    },
    Case {
        table: Table {
            columns: &[(b'a', Kind::Text), (b'b', Kind::Int64)],
            key: b"",
            granularity: 8192,
            rows: &[&[Text(b""), Int(-2)], &[Text(b"ab"), Int(3)]],
        },
        bytes: b"\x00\x02\x03\x02\x00\x00\x00\x02\x00\x00\xff\xff\xff\xff\xff\xff\xff\xfe\x00\x02ab\x00\x00\x00\x00\x00\x00\x00\x03",
        digest: OF_TWO_COLUMNS,
    },
    Case {
        table: Table {
            columns: &[(b'a', Kind::UInt64)],
            key: b"",
            granularity: 8192,
            rows: &[],
        },
        bytes: b"\x00\x01\x01\x00\x00\x00\x00",
        digest: OF_NO_ROWS,
    },
];

/// Ids with their texts: the partition and the digest.
const IDS: &[(Option<u64>, [u8; 32], &[u8])] = &[
    (
        None,
        OF_NUMBERS,
        b"all_df2711e53aaf7fd063a90ff44ec5d31803ae64d9537e61eb28a7e091950fcf16",
    ),
    (
        Some(202405),
        OF_TWO_COLUMNS,
        b"202405_6903a0d8e9de8fc7925c0fa2557b16c320adb9360c8138e6c4164fb57c1b56af",
    ),
];

/// The block of a table's rows.
fn block_of(alloc: Global, table: &Table) -> Result<Block, Fail> {
    let schema = table.schema(alloc)?;
    let rows = table.rows(alloc, &schema)?;
    Ok(Block::new(alloc, rows, &schema)?)
}

/// Whether a block has these bytes and this digest.
fn is_as_told(alloc: Global, block: &Block, case: &Case) -> Result<bool, AllocError> {
    let (partition, digest) = (None, case.digest);
    let is_known = id(block) == BlockId { partition, digest };
    let found = bytes(alloc, block)?;
    Ok(is_known && block.len() == case.table.rows.len() && found.as_slice() == case.bytes)
}

/// Whether an id has this text.
fn has_text(
    alloc: Global,
    partition: Option<u64>,
    digest: [u8; 32],
    expected: &[u8],
) -> Result<bool, AllocError> {
    let found = id_text(alloc, &BlockId { partition, digest })?;
    Ok(found.as_bytes() == expected)
}

#[test]
fn blocks_have_these_bytes_and_ids(rt: HostRuntime) -> Result<(), Fail> {
    for case in BLOCKS {
        let block = block_of(rt.alloc(), &case.table)?;
        assert!(rt; is_as_told(rt.alloc(), &block, case)?);
    }
    for (partition, digest, text) in IDS {
        assert!(rt; has_text(rt.alloc(), *partition, *digest, text)?);
    }
    Ok(())
}
