//! Scripts beside a table on plain lists, which is given what their replies say was accepted.
use crate::played::played;
use rmt_list::List;
use rmt_names::{PartitionId, block_name};
use rmt_plain::{Accepted, PlainTable};
use rmt_query::Tuple;
use rmt_reply::{Line, Piece, print_line};
use rmt_values::{Cell, Checked, CheckedMutation, CheckedRight, Cmp, Row, Value};
use std::alloc::{AllocError, Global};
use std::sync::Wait;
use std::test::Fail;
use std::thread::Threads;

/// Rows as the numbers in their columns.
type Numbers = &'static [&'static [u64]];

/// A block of an INSERT.
#[derive(Clone, Copy)]
enum Block {
    /// It is accepted, with this partition, number and rows.
    New(PartitionId, u32, Numbers),
    /// It is the accepted block of this partition and number once again.
    Known(PartitionId, u32),
}

/// A command. Columns are places, counted from 0.
#[derive(Clone, Copy)]
enum Command {
    /// UPDATE of a column to itself plus a number, where it is at least another number.
    Add { column: u16, by: u64, least: u64 },
    /// DELETE where a column is at least a number.
    Delete { column: u16, least: u64 },
}

/// What a SELECT asks for. Columns are places, counted from 0.
#[derive(Clone, Copy)]
enum Asked {
    /// These columns.
    Columns(&'static [u16]),
    /// The count, and the sums of these columns.
    Totals(&'static [u16]),
}

/// What a statement comes to. Its reply is worked out from this and from the plain table.
#[derive(Clone, Copy)]
enum Act {
    /// The plain table accepts the new ones of these blocks.
    Insert(&'static [Block]),
    /// The plain table accepts the mutation of this id, which takes these numbers.
    Mutate {
        id: u32,
        numbers: &'static [(PartitionId, u32)],
        command: Command,
    },
    /// The plain table accepts the drop of a partition's blocks below a number.
    Drop(PartitionId, u32),
    /// It is a SELECT .. SYNC, which the plain table answers.
    Select(Asked),
    /// The plain table has no part in it, and this is the reply.
    Say(&'static str),
}

/// A statement without its `;`, and what it comes to.
type Step = (&'static str, Act);

const TABLE: Step = (
    "CREATE TABLE t (c UInt64) ENGINE = ReplicatedMergeTree ORDER BY c",
    Act::Say("ok\n"),
);

const TABLE_OF_PAIRS: Step = (
    "CREATE TABLE t (k UInt64, c UInt64) ENGINE = ReplicatedMergeTree ORDER BY k",
    Act::Say("ok\n"),
);

const WINDOW_OF_TWO: Step = (
    "CREATE TABLE t (c UInt64) ENGINE = ReplicatedMergeTree ORDER BY c \
        SETTINGS replicated_deduplication_window = 2",
    Act::Say("ok\n"),
);

// Each is one new block.
const FIRST_1: Step = (
    "INSERT INTO t VALUES (1)",
    Act::Insert(&[Block::New(None, 0, &[&[1]])]),
);

const SECOND_2: Step = (
    "INSERT INTO t VALUES (2)",
    Act::Insert(&[Block::New(None, 1, &[&[2]])]),
);

const THIRD_3: Step = (
    "INSERT INTO t VALUES (3)",
    Act::Insert(&[Block::New(None, 2, &[&[3]])]),
);

// A pair, a command that changes it, and another pair.
const FIRST_PAIR: Step = (
    "INSERT INTO t VALUES (1,7)",
    Act::Insert(&[Block::New(None, 0, &[&[1, 7]])]),
);

const ADD_1: Step = (
    "ALTER TABLE t UPDATE c = c + 1 WHERE c >= 7",
    Act::Mutate {
        id: 0,
        numbers: &[(None, 1)],
        command: Command::Add {
            column: 1,
            by: 1,
            least: 7,
        },
    },
);

const LATER_PAIR: Step = (
    "INSERT INTO t VALUES (2,9)",
    Act::Insert(&[Block::New(None, 2, &[&[2, 9]])]),
);

const DELETE_ALL: Step = (
    "ALTER TABLE t DELETE WHERE k >= 0",
    Act::Mutate {
        id: 1,
        numbers: &[(None, 3)],
        command: Command::Delete {
            column: 0,
            least: 0,
        },
    },
);

// All rows, at each replica.
const ALL: Step = ("SELECT * FROM t SYNC", Act::Select(Asked::Columns(&[0])));

const ALL_AT_2: Step = (
    "@r2 SELECT * FROM t SYNC",
    Act::Select(Asked::Columns(&[0])),
);

const PAIRS: Step = ("SELECT * FROM t SYNC", Act::Select(Asked::Columns(&[0, 1])));

const PAIRS_AT_2: Step = (
    "@r2 SELECT * FROM t SYNC",
    Act::Select(Asked::Columns(&[0, 1])),
);

const SCRIPTS: &[&[Step]] = &[
    // A drop of a partition that there isn't, which no log has.
    &[
        (
            "CREATE TABLE t (k UInt64) ENGINE = ReplicatedMergeTree PARTITION BY k ORDER BY k",
            Act::Say("ok\n"),
        ),
        (
            "INSERT INTO t VALUES (3),(1),(2)",
            Act::Insert(&[
                Block::New(Some(1), 0, &[&[1]]),
                Block::New(Some(2), 0, &[&[2]]),
                Block::New(Some(3), 0, &[&[3]]),
            ]),
        ),
        (
            "ALTER TABLE t DROP PARTITION 9",
            Act::Say("dropped 9 below 0\n"),
        ),
        ALL,
        ALL_AT_2,
    ],
    // A block at the other replica.
    &[
        TABLE,
        FIRST_1,
        ("@r2 SELECT count() FROM t", Act::Say("parts\nrows 1\n0\n")),
        (
            "@r2 SELECT count() FROM t SYNC",
            Act::Select(Asked::Totals(&[])),
        ),
        (
            "@r2 SELECT c FROM t",
            Act::Say("parts all_0_0_0\nrows 1\n1\n"),
        ),
        ALL,
        ALL_AT_2,
    ],
    // A retry at the other replica.
    &[
        TABLE,
        FIRST_1,
        (
            "@r2 INSERT INTO t VALUES (1)",
            Act::Insert(&[Block::Known(None, 0)]),
        ),
        ALL_AT_2,
        SECOND_2,
        ALL,
        ALL_AT_2,
    ],
    // The same rows in another order.
    &[
        TABLE,
        (
            "INSERT INTO t VALUES (1),(2)",
            Act::Insert(&[Block::New(None, 0, &[&[1], &[2]])]),
        ),
        (
            "INSERT INTO t VALUES (2),(1)",
            Act::Insert(&[Block::New(None, 1, &[&[2], &[1]])]),
        ),
        ALL,
        ALL_AT_2,
    ],
    // A retry within the window, and one past it.
    &[
        WINDOW_OF_TWO,
        FIRST_1,
        SECOND_2,
        (
            "INSERT INTO t VALUES (1)",
            Act::Insert(&[Block::Known(None, 0)]),
        ),
        ALL,
        ALL_AT_2,
    ],
    &[
        WINDOW_OF_TWO,
        FIRST_1,
        SECOND_2,
        THIRD_3,
        (
            "INSERT INTO t VALUES (1)",
            Act::Insert(&[Block::New(None, 3, &[&[1]])]),
        ),
        (
            "SELECT count(), sum(c) FROM t SYNC",
            Act::Select(Asked::Totals(&[0])),
        ),
        ALL,
        ALL_AT_2,
    ],
    // A merge.
    &[
        TABLE,
        FIRST_1,
        SECOND_2,
        THIRD_3,
        ("OPTIMIZE TABLE t FINAL", Act::Say("optimized all_0_2_1\n")),
        ("SHOW PARTS FROM t", Act::Say("parts all_0_2_1\n")),
        ("@r2 SYSTEM SYNC REPLICA t", Act::Say("ok\n")),
        ("@r2 SHOW PARTS FROM t", Act::Say("parts all_0_2_1\n")),
        ALL,
        ALL_AT_2,
    ],
    // A mutation, before a part has it and after that.
    &[
        TABLE_OF_PAIRS,
        FIRST_PAIR,
        ADD_1,
        LATER_PAIR,
        ("SELECT c FROM t SYNC", Act::Select(Asked::Columns(&[1]))),
        ("WAIT MUTATION t 0", Act::Say("done 0000000000\n")),
        (
            "SHOW PARTS FROM t",
            Act::Say("parts all_0_0_0_1 all_2_2_0\n"),
        ),
        PAIRS,
        PAIRS_AT_2,
    ],
    // A mutation and a merge, and then a mutation that deletes all rows.
    &[
        TABLE_OF_PAIRS,
        FIRST_PAIR,
        ADD_1,
        LATER_PAIR,
        (
            "OPTIMIZE TABLE t FINAL",
            Act::Say("refused 16 Unmergeable all_0_0_0 all_2_2_0\n"),
        ),
        ("WAIT MUTATION t 0", Act::Say("done 0000000000\n")),
        (
            "OPTIMIZE TABLE t FINAL",
            Act::Say("optimized all_0_2_1_1\n"),
        ),
        PAIRS_AT_2,
        DELETE_ALL,
        PAIRS_AT_2,
        ("WAIT MUTATION t 1", Act::Say("done 0000000001\n")),
        (
            "EXPLAIN SELECT count() FROM t",
            Act::Say("granules all_0_2_1_3 0/0\ngranules total 0/0\n"),
        ),
        PAIRS,
        PAIRS_AT_2,
    ],
    // A drop, after which the same rows are another block.
    &[
        TABLE,
        FIRST_1,
        ALL_AT_2,
        ("ALTER TABLE t DROP PARTITION tuple()", Act::Drop(None, 1)),
        ALL_AT_2,
        (
            "INSERT INTO t VALUES (1)",
            Act::Insert(&[Block::New(None, 2, &[&[1]])]),
        ),
        ALL,
        ALL_AT_2,
    ],
    // A block of three granules.
    &[
        (
            "CREATE TABLE t (c UInt64) ENGINE = ReplicatedMergeTree ORDER BY c SETTINGS index_granularity = 2",
            Act::Say("ok\n"),
        ),
        (
            "INSERT INTO t VALUES (1),(1),(1),(1),(5)",
            Act::Insert(&[Block::New(None, 0, &[&[1], &[1], &[1], &[1], &[5]])]),
        ),
        (
            "EXPLAIN SELECT count() FROM t WHERE c = 1",
            Act::Say("granules all_0_0_0 2/3\ngranules total 2/3\n"),
        ),
        (
            "SELECT count() FROM t WHERE c = 1",
            Act::Say("parts all_0_0_0\nrows 1\n4\n"),
        ),
        ALL,
        ALL_AT_2,
    ],
];

/// A row of these numbers.
fn row_of(alloc: Global, numbers: &[u64]) -> Result<Row, AllocError> {
    let mut values = Vec::new(alloc);
    'numbers: for number in numbers {
        values.push(Value::UInt(*number))?;
    }
    Ok(Row::new(values))
}

/// Rows of these numbers.
fn rows_of(alloc: Global, all: &[&[u64]]) -> Result<Vec<Row>, AllocError> {
    let mut rows = Vec::new(alloc);
    'rows: for numbers in all {
        rows.push(row_of(alloc, numbers)?)?;
    }
    Ok(rows)
}

/// A command as a log has it.
fn checked(alloc: Global, command: Command) -> Result<CheckedMutation, AllocError> {
    match command {
        Command::Add { column, by, least } => update(alloc, column, by, least),
        Command::Delete { column, least } => {
            let filter = at_least(column, least);
            Ok(CheckedMutation::Delete { filter })
        }
    }
}

/// An UPDATE that adds a number to a column, where it is at least another number.
fn update(alloc: Global, column: u16, by: u64, least: u64) -> Result<CheckedMutation, AllocError> {
    let mut sets = Vec::new(alloc);
    let by = Value::UInt(by);
    sets.push((column, CheckedRight::Plus { column, by }))?;
    let (sets, filter) = (List::new(sets), at_least(column, least));
    Ok(CheckedMutation::Update { sets, filter })
}

/// The filter that keeps rows whose column is at least a number.
fn at_least(column: u16, least: u64) -> Checked {
    let (cmp, value) = (Cmp::Ge, Value::UInt(least));
    Checked::Test { column, cmp, value }
}

/// The row's cells in columns.
fn cells_of(alloc: Global, row: &Row, columns: &[u16]) -> Result<Tuple, AllocError> {
    let mut cells = Vec::new(alloc);
    'columns: for column in columns {
        if let Some(Value::UInt(number)) = row.values().get(usize::from(*column)) {
            cells.push(Cell::UInt(*number))?;
        }
    }
    Ok(Tuple::new(cells))
}

/// The sum of a column.
fn sum_of(rows: &[Row], column: u16) -> u64 {
    let mut sum = 0u64;
    'rows: for row in rows {
        if let Some(Value::UInt(number)) = row.values().get(usize::from(column)) {
            sum = sum.wrapping_add(*number);
        }
    }
    sum
}

/// How many rows there are, and the sums of columns.
fn totals_of(alloc: Global, rows: &[Row], columns: &[u16]) -> Result<Tuple, AllocError> {
    let mut cells = Vec::new(alloc);
    cells.push(Cell::UInt(rows.len() as u64))?;
    'columns: for column in columns {
        cells.push(Cell::UInt(sum_of(rows, *column)))?;
    }
    Ok(Tuple::new(cells))
}

/// The cells of all rows in columns, in ascending order.
fn columns_of(alloc: Global, rows: &[Row], columns: &[u16]) -> Result<Vec<Tuple>, AllocError> {
    let mut tuples = Vec::new(alloc);
    'rows: for row in rows {
        tuples.push(cells_of(alloc, row, columns)?)?;
    }
    tuples.sort_by(|a, b| a.compare(b))?;
    Ok(tuples)
}

/// The answer over all rows.
fn answer_of(alloc: Global, rows: &[Row], asked: Asked) -> Result<List<Tuple>, AllocError> {
    match asked {
        Asked::Columns(columns) => Ok(List::new(columns_of(alloc, rows, columns)?)),
        Asked::Totals(columns) => {
            let totals = totals_of(alloc, rows, columns)?;
            Ok(List::new(vec![in alloc; totals]?))
        }
    }
}

/// What the reply to an INSERT tells of a block, which the plain table accepts if it is new.
fn piece_of(alloc: Global, table: &mut PlainTable, block: Block) -> Result<Piece, AllocError> {
    match block {
        Block::New(partition, number, rows) => {
            let rows = List::new(rows_of(alloc, rows)?);
            table.accept(Accepted::Block {
                partition,
                number,
                rows,
            })?;
            Ok(Piece::Part(block_name(partition, number)))
        }
        Block::Known(partition, number) => Ok(Piece::Duplicate(block_name(partition, number))),
    }
}

/// The reply to an INSERT of these blocks.
fn insert(alloc: Global, table: &mut PlainTable, blocks: &[Block]) -> Result<Line, AllocError> {
    let mut pieces = Vec::new(alloc);
    'blocks: for block in blocks {
        pieces.push(piece_of(alloc, table, *block)?)?;
    }
    let (pieces, refused) = (List::new(pieces), None);
    Ok(Line::Inserted { pieces, refused })
}

/// The plain table accepts a mutation that takes these numbers.
fn mutate(
    alloc: Global,
    table: &mut PlainTable,
    numbers: &[(PartitionId, u32)],
    command: Command,
) -> Result<(), AllocError> {
    let command = checked(alloc, command)?;
    let numbers = List::new(Vec::from_slice(alloc, numbers)?);
    table.accept(Accepted::Mutation { numbers, command })
}

/// The reply to a SELECT over the rows of the plain table.
fn select(alloc: Global, table: &PlainTable, asked: Asked) -> Result<Line, AllocError> {
    let rows = table.rows(alloc)?;
    let answer = answer_of(alloc, &rows, asked)?;
    Ok(Line::Rows(answer))
}

/// The reply to a statement in which the plain table has a part, and none to others. Afterwards it has what the statement
/// made.
fn line_of(alloc: Global, table: &mut PlainTable, act: Act) -> Result<Option<Line>, AllocError> {
    match act {
        Act::Insert(blocks) => Ok(Some(insert(alloc, table, blocks)?)),
        Act::Mutate {
            id,
            numbers,
            command,
        } => {
            mutate(alloc, table, numbers, command)?;
            Ok(Some(Line::Mutation(id)))
        }
        Act::Drop(partition, number) => {
            table.accept(Accepted::DropRange { partition, number })?;
            let below = number;
            Ok(Some(Line::Dropped { partition, below }))
        }
        Act::Select(asked) => Ok(Some(select(alloc, table, asked)?)),
        Act::Say(_) => Ok(None),
    }
}

/// The bytes of the reply to a statement.
fn reply_of(alloc: Global, table: &mut PlainTable, act: Act) -> Result<Vec<u8>, AllocError> {
    if let Act::Say(text) = act {
        return Vec::from_slice(alloc, text.as_bytes());
    }
    match line_of(alloc, table, act)? {
        Some(line) => print_line(alloc, &line),
        None => Ok(Vec::new(alloc)),
    }
}

/// What a script writes.
fn written_by(alloc: Global, script: &[Step]) -> Result<Vec<u8>, AllocError> {
    let mut table = PlainTable::new(alloc);
    let mut written = Vec::new(alloc);
    'statements: for (_, act) in script {
        let reply = reply_of(alloc, &mut table, *act)?;
        written.extend_from_slice(reply.as_slice())?;
    }
    Ok(written)
}

/// The text of a script.
fn text_of(alloc: Global, script: &[Step]) -> Result<String, AllocError> {
    let mut text = String::new(alloc);
    'statements: for (statement, _) in script {
        text.push_str(statement)?;
        text.push_str(";\n")?;
    }
    Ok(text)
}

/// Whether a script writes what is worked out from the plain table.
fn answers_alike<R: Threads + Wait + Sync>(
    rt: &R,
    alloc: Global,
    script: &[Step],
) -> Result<bool, AllocError> {
    let text = text_of(alloc, script)?;
    let (_, page) = played(rt, alloc, text.as_str(), &[], &[])?;
    let expected = written_by(alloc, script)?;
    Ok(page.written() == expected.as_slice())
}

#[test]
fn a_table_on_plain_lists_answers_alike(rt: HostRuntime) -> Result<(), Fail> {
    'scripts: for (place, script) in SCRIPTS.iter().enumerate() {
        assert!(rt; answers_alike(&rt, rt.alloc(), script)?, "script {place}");
    }
    Ok(())
}
