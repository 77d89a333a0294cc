use rmt_reply::{Line, print};
use std::test::Fail;

/// Replies are printed one after the other.
#[test]
fn replies_are_printed_in_their_order(rt: HostRuntime) -> Result<(), Fail> {
    let lines = [Line::Okay, Line::Ran(3), Line::Mutation(7)];
    let bytes = print(rt.alloc(), &lines)?;
    assert_eq!(rt;
        bytes.as_slice(),
        b"ok\nran 3\nmutation 0000000007\n".as_slice()
    );
    Ok(())
}
