use crate::lists::{CHILDREN, CREATED, EPHEMERAL, FALLING, SEQUENTIAL};
use crate::played::first_to_differ;
use std::test::Fail;

/// Each list on a tree of its own comes to its replies and nodes.
#[test]
fn trees_answer_as_zookeeper_does(rt: HostRuntime) -> Result<(), Fail> {
    for stages in [CREATED, SEQUENTIAL, EPHEMERAL, CHILDREN, FALLING] {
        assert_eq!(rt; first_to_differ(rt.alloc(), stages)?, None);
    }
    Ok(())
}
