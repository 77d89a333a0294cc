//! Workers that are held, or hold the client, at gates: what they do is seen there. A body whose workers are idle, and one that does all
//! on the client's thread, comes to no end within the turns of a gate.
use crate::played::played_among_two;
use rmt_outside::{Gate, Point};
use rmt_play::Status;
use std::sync::atomic::{AtomicBool, AtomicU32, Ordering};
use std::test::Fail;
use std::thread;

/// How often whoever waits at a gate looks whether it may pass.
const MOST_TURNS: u32 = 1_000_000;

/// How often those who wait have looked.
#[derive(Drop)]
struct Turns {
    count: AtomicU32,
}

impl Turns {
    fn new() -> Turns {
        Turns {
            count: AtomicU32::new(0),
        }
    }

    /// Waits until a flag is set, or all turns are used.
    fn wait_for(&self, flag: &AtomicBool) {
        for _ in 0..MOST_TURNS {
            if flag.load(Ordering::SeqCst) || self.are_used() {
                return;
            }
            self.count.fetch_add(1, Ordering::SeqCst);
            thread::yield_now();
        }
    }

    /// Whether someone waited in vain.
    fn are_used(&self) -> bool {
        self.count.load(Ordering::SeqCst) >= MOST_TURNS
    }
}

/// Holds the client at the reply of the second INSERT until a worker has come to the merge, which is entry 2, at the first replica; and
/// that merge until the SELECT after it was answered.
#[derive(Drop)]
struct UntilSelected {
    turns: Turns,
    came: AtomicBool,
    selected: AtomicBool,
}

impl Gate for UntilSelected {
    fn pass(&self, point: Point) {
        match point {
            Point::Answered { statement: 2 } => self.turns.wait_for(&self.came),
            Point::Answered { statement: 3 } => self.selected.store(true, Ordering::SeqCst),
            Point::BeforeCommit {
                replica: 1,
                entry: 2,
                ..
            } => {
                self.came.store(true, Ordering::SeqCst);
                self.turns.wait_for(&self.selected);
            }
            _ => {}
        }
    }
}

/// Two blocks are merged beside a SELECT, which reads both of them.
#[test]
fn merge_held_until_select(rt: HostRuntime) -> Result<(), Fail> {
    let script = "CREATE TABLE t (c UInt64) ENGINE = ReplicatedMergeTree ORDER BY c; \
        INSERT INTO t VALUES (1); INSERT INTO t VALUES (2); SELECT c FROM t;";
    let gate = UntilSelected {
        turns: Turns::new(),
        came: AtomicBool::new(false),
        selected: AtomicBool::new(false),
    };
    let (status, page) = played_among_two(&rt, rt.alloc(), script, &gate)?;
    let (code, refused) = (0, 0);
    assert_eq!(rt; status, Status { code, refused });
    let replies = "ok\npart all_0_0_0\npart all_1_1_0\nparts all_0_0_0 all_1_1_0\nrows 2\n1\n2\n";
    assert_eq!(rt; page.written(), replies.as_bytes());
    assert!(rt; !gate.turns.are_used());
    Ok(())
}

/// Holds the client at the reply of the ALTER until the second replica has fetched the block, entry 0, and the first one has mutated its
/// part, entry 2; and whoever comes to one of these until the client has come there.
#[derive(Drop)]
struct UntilAltered {
    turns: Turns,
    altered: AtomicBool,
    fetched: AtomicBool,
    mutated: AtomicBool,
}

impl Gate for UntilAltered {
    fn pass(&self, point: Point) {
        match point {
            Point::Answered { statement: 2 } => {
                self.altered.store(true, Ordering::SeqCst);
                self.turns.wait_for(&self.fetched);
                self.turns.wait_for(&self.mutated);
            }
            Point::BeforeCommit {
                replica: 2,
                entry: 0,
                ..
            } => {
                self.turns.wait_for(&self.altered);
                self.fetched.store(true, Ordering::SeqCst);
            }
            Point::BeforeCommit {
                replica: 1,
                entry: 2,
                ..
            } => {
                self.turns.wait_for(&self.altered);
                self.mutated.store(true, Ordering::SeqCst);
            }
            _ => {}
        }
    }
}

/// A worker fetches a block, and one mutates its part, beside a client that does nothing more.
#[test]
fn workers_fetch_and_mutate(rt: HostRuntime) -> Result<(), Fail> {
    let script = "CREATE TABLE t (c UInt64, k UInt64) ENGINE = ReplicatedMergeTree ORDER BY k; \
        INSERT INTO t VALUES (1, 1), (2, 2); ALTER TABLE t UPDATE c = c + 1 WHERE k = 2; SELECT c FROM t SYNC;";
    let gate = UntilAltered {
        turns: Turns::new(),
        altered: AtomicBool::new(false),
        fetched: AtomicBool::new(false),
        mutated: AtomicBool::new(false),
    };
    let (status, page) = played_among_two(&rt, rt.alloc(), script, &gate)?;
    let (code, refused) = (0, 0);
    assert_eq!(rt; status, Status { code, refused });
    let replies = "ok\npart all_0_0_0\nmutation 0000000000\nrows 2\n1\n3\n";
    assert_eq!(rt; page.written(), replies.as_bytes());
    assert!(rt; !gate.turns.are_used());
    Ok(())
}
