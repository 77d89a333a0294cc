//! A read and each write of a script that fail.
use crate::played::{played, summed};
use rmt_play::Status;
use std::test::Fail;

const SCRIPT: &str = "CREATE TABLE t (c UInt64) ENGINE = ReplicatedMergeTree ORDER BY c; \
    @r1 INSERT INTO t VALUES (7),(8); @r2 SELECT count(), sum(c) FROM t SYNC;";

/// Writes that fail, with the codes and what was written before them: each of the three, and one that doesn't come. A reply is
/// one write, made before the next statement is played.
const WRITES: &[(u64, u8, &str)] = &[
    (0, 5, ""),
    (1, 5, "ok\n"),
    (2, 5, "ok\npart all_0_0_0\n"),
    (3, 0, "ok\npart all_0_0_0\nrows 1\n2,15\n"),
];

/// What a workload of two turns from the seed 1 comes to.
const SUMMARY: &str =
    "statements 2\naccepted 1\nduplicate 1\nrefused 0\nr1 4,29899\nr2 4,29899\nr3 4,29899\n";

/// The second read fails, which would have told the script's end.
#[test]
fn a_read_that_fails_writes_nothing(rt: HostRuntime) -> Result<(), Fail> {
    let (status, page) = played(&rt, rt.alloc(), SCRIPT, &[1], &[])?;
    let (code, refused) = (4, 0);
    assert_eq!(rt; status, Status { code, refused });
    assert_eq!(rt; page.written().len(), 0);
    Ok(())
}

#[test]
fn a_write_that_fails_leaves_the_replies_before_it(rt: HostRuntime) -> Result<(), Fail> {
    for (write, code, written) in WRITES {
        let (status, page) = played(&rt, rt.alloc(), SCRIPT, &[], &[*write])?;
        let (code, refused) = (*code, 0);
        assert_eq!(rt; status, Status { code, refused });
        assert_eq!(rt; page.written(), written.as_bytes());
    }
    Ok(())
}

/// Nothing is read for a workload, and its summary is one write.
#[test]
fn a_workload_is_summed_up_or_not_at_all(rt: HostRuntime) -> Result<(), Fail> {
    let (status, page) = summed(&rt, rt.alloc(), &[])?;
    let (code, refused) = (0, 0);
    assert_eq!(rt; status, Status { code, refused });
    assert_eq!(rt; page.written(), SUMMARY.as_bytes());
    let (status, page) = summed(&rt, rt.alloc(), &[0])?;
    let (code, refused) = (5, 0);
    assert_eq!(rt; status, Status { code, refused });
    assert_eq!(rt; page.written().len(), 0);
    Ok(())
}
