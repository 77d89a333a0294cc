use crate::lists::LISTS;
use crate::played::first_to_differ;
use std::test::Fail;

#[test]
fn worked_lists_come_to_their_replies(rt: HostRuntime) -> Result<(), Fail> {
    for (list, (replicas, steps)) in LISTS.iter().enumerate() {
        assert_eq!(rt;
            first_to_differ(rt.alloc(), *replicas, steps)?,
            None,
            "the list {list}"
        );
    }
    Ok(())
}
