//! Calls whose replies and states are from ZooKeeper's documentation, worked out by hand.
use crate::steps::Answer::{Checked, Created, Deleted};
use crate::steps::Call::{End, Multi, Open};
use crate::steps::Operation::{
    Check, Delete, Ephemeral, EphemeralSequential, Persistent, PersistentSequential,
};
use crate::steps::Reply::{Done, Ended, Refused, Session};
use crate::steps::{Answer, Operation, Stage};
use rmt_tree::Cause::{BadVersion, EphemeralParent, NoNode, NoSession, NodeExists, NotEmpty};

/// Nodes are created, set and deleted: all operations of a multi, or none.
pub(crate) const CREATED: &[Stage] = &[
    (
        &[
            (Multi(&[Persistent("/a", "x")]), Done(&[Created("/a")])),
            (Multi(&[Persistent("/a", "y")]), Refused(0, NodeExists)),
            (
                Multi(&[Persistent("/b", "y"), Persistent("/b", "z")]),
                Refused(1, NodeExists),
            ),
            (Multi(&[Persistent("/c/d", "x")]), Refused(0, NoNode)),
        ],
        &[("/a", "x", 0, 0)],
    ),
    (
        &[
            (
                Multi(&[Persistent("/a/b", "y"), Persistent("/a/b/c", "z")]),
                Done(&[Created("/a/b"), Created("/a/b/c")]),
            ),
            (
                Multi(&[
                    Persistent("/b", ""),
                    Persistent("/b/c", ""),
                    Delete("/b", None),
                ]),
                Refused(2, NotEmpty),
            ),
            (
                Multi(&[
                    Persistent("/b", ""),
                    Persistent("/b/c", ""),
                    Delete("/b/c", None),
                    Delete("/b", None),
                ]),
                Done(&[Created("/b"), Created("/b/c"), Deleted, Deleted]),
            ),
            (Multi(&[]), Done(&[])),
        ],
        &[
            ("/a", "x", 0, 0),
            ("/a/b", "y", 0, 0),
            ("/a/b/c", "z", 0, 0),
        ],
    ),
    (
        &[
            (
                Multi(&[Operation::Set("/a", "y", Some(0))]),
                Done(&[Answer::Set(1)]),
            ),
            (
                Multi(&[Operation::Set("/a", "z", Some(0))]),
                Refused(0, BadVersion { asked: 0, found: 1 }),
            ),
        ],
        &[
            ("/a", "y", 1, 0),
            ("/a/b", "y", 0, 0),
            ("/a/b/c", "z", 0, 0),
        ],
    ),
    (
        &[(
            Multi(&[Operation::Set("/a", "z", None)]),
            Done(&[Answer::Set(2)]),
        )],
        &[
            ("/a", "z", 2, 0),
            ("/a/b", "y", 0, 0),
            ("/a/b/c", "z", 0, 0),
        ],
    ),
    (
        &[
            (
                Multi(&[
                    Operation::Set("/a", "u", Some(2)),
                    Operation::Set("/a", "v", Some(3)),
                ]),
                Done(&[Answer::Set(3), Answer::Set(4)]),
            ),
            (
                Multi(&[
                    Operation::Set("/a", "u", Some(4)),
                    Operation::Set("/a", "w", Some(4)),
                ]),
                Refused(1, BadVersion { asked: 4, found: 5 }),
            ),
            (
                Multi(&[Operation::Set("/a", "u", Some(5))]),
                Refused(0, BadVersion { asked: 5, found: 4 }),
            ),
            (
                Multi(&[Operation::Set("/x", "u", Some(7))]),
                Refused(0, NoNode),
            ),
            (Multi(&[Delete("/x", Some(7))]), Refused(0, NoNode)),
            (Multi(&[Check("/x", 7)]), Refused(0, NoNode)),
            (Multi(&[Check("/a", 4)]), Done(&[Checked])),
            (
                Multi(&[Check("/a", 3)]),
                Refused(0, BadVersion { asked: 3, found: 4 }),
            ),
            (
                Multi(&[
                    Check("/a", 4),
                    Operation::Set("/a", "w", Some(4)),
                    Check("/a", 4),
                ]),
                Refused(2, BadVersion { asked: 4, found: 5 }),
            ),
        ],
        &[
            ("/a", "v", 4, 0),
            ("/a/b", "y", 0, 0),
            ("/a/b/c", "z", 0, 0),
        ],
    ),
    (
        &[
            (
                Multi(&[
                    Check("/a", 4),
                    Operation::Set("/a", "w", Some(4)),
                    Check("/a", 5),
                ]),
                Done(&[Checked, Answer::Set(5), Checked]),
            ),
            (Multi(&[Delete("/a", None)]), Refused(0, NotEmpty)),
            (
                Multi(&[Delete("/a", Some(4))]),
                Refused(0, BadVersion { asked: 4, found: 5 }),
            ),
            (
                Multi(&[Delete("/a/b/c", Some(1))]),
                Refused(0, BadVersion { asked: 1, found: 0 }),
            ),
        ],
        &[
            ("/a", "w", 5, 0),
            ("/a/b", "y", 0, 0),
            ("/a/b/c", "z", 0, 0),
        ],
    ),
    (
        &[(Multi(&[Delete("/a/b/c", Some(0))]), Done(&[Deleted]))],
        &[("/a", "w", 5, 0), ("/a/b", "y", 0, 0)],
    ),
    (
        &[(
            Multi(&[
                Operation::Set("/a/b", "p", None),
                Delete("/a/b", Some(1)),
                Persistent("/a/b", "q"),
            ]),
            Done(&[Answer::Set(1), Deleted, Created("/a/b")]),
        )],
        &[("/a", "w", 5, 0), ("/a/b", "q", 0, 0)],
    ),
    (
        &[(
            Multi(&[
                Delete("/a/b", Some(0)),
                Delete("/a", Some(5)),
                Persistent("/a", "r"),
            ]),
            Done(&[Deleted, Deleted, Created("/a")]),
        )],
        &[("/a", "r", 0, 0)],
    ),
];

/// Sequential nodes are numbered by their parent, whose counter only grows.
pub(crate) const SEQUENTIAL: &[Stage] = &[
    (
        &[(Multi(&[Persistent("/a", "r")]), Done(&[Created("/a")]))],
        &[("/a", "r", 0, 0)],
    ),
    (
        &[(
            Multi(&[PersistentSequential("/a/n-", "x")]),
            Done(&[Created("/a/n-0000000000")]),
        )],
        &[("/a", "r", 0, 1), ("/a/n-0000000000", "x", 0, 0)],
    ),
    (
        &[
            (
                Multi(&[PersistentSequential("/a/n-", "y")]),
                Done(&[Created("/a/n-0000000001")]),
            ),
            (
                Multi(&[PersistentSequential("/a/n-", "z"), Persistent("/a", "x")]),
                Refused(1, NodeExists),
            ),
        ],
        &[
            ("/a", "r", 0, 2),
            ("/a/n-0000000000", "x", 0, 0),
            ("/a/n-0000000001", "y", 0, 0),
        ],
    ),
    (
        &[
            (
                Multi(&[
                    PersistentSequential("/a/m", "z"),
                    Operation::Set("/a", "s", None),
                ]),
                Done(&[Created("/a/m0000000002"), Answer::Set(1)]),
            ),
            (
                Multi(&[
                    Persistent("/a/n-0000000003", "q"),
                    PersistentSequential("/a/n-", "r"),
                ]),
                Refused(1, NodeExists),
            ),
        ],
        &[
            ("/a", "s", 1, 3),
            ("/a/m0000000002", "z", 0, 0),
            ("/a/n-0000000000", "x", 0, 0),
            ("/a/n-0000000001", "y", 0, 0),
        ],
    ),
    (
        &[(
            Multi(&[
                Delete("/a/n-0000000001", Some(0)),
                PersistentSequential("/a/n-", "s"),
            ]),
            Done(&[Deleted, Created("/a/n-0000000003")]),
        )],
        &[
            ("/a", "s", 1, 4),
            ("/a/m0000000002", "z", 0, 0),
            ("/a/n-0000000000", "x", 0, 0),
            ("/a/n-0000000003", "s", 0, 0),
        ],
    ),
    (
        &[(
            Multi(&[
                Delete("/a/m0000000002", None),
                Delete("/a/n-0000000000", None),
                Delete("/a/n-0000000003", None),
                Delete("/a", None),
            ]),
            Done(&[Deleted, Deleted, Deleted, Deleted]),
        )],
        &[],
    ),
    (
        &[(
            Multi(&[
                PersistentSequential("/s-", "x"),
                PersistentSequential("/s-", "y"),
            ]),
            Done(&[Created("/s-0000000000"), Created("/s-0000000001")]),
        )],
        &[("/s-0000000000", "x", 0, 0), ("/s-0000000001", "y", 0, 0)],
    ),
    (
        &[
            (
                Multi(&[
                    Delete("/s-0000000000", None),
                    Delete("/s-0000000001", None),
                    Persistent("/a", ""),
                ]),
                Done(&[Deleted, Deleted, Created("/a")]),
            ),
            (
                Multi(&[PersistentSequential("/c/n-", "x")]),
                Refused(0, NoNode),
            ),
        ],
        &[("/a", "", 0, 0)],
    ),
];

/// Ephemeral nodes are removed with their session, and have no children.
pub(crate) const EPHEMERAL: &[Stage] = &[
    (
        &[
            (Multi(&[Persistent("/a", "")]), Done(&[Created("/a")])),
            (Multi(&[Ephemeral("/a/e", "x", 0)]), Refused(0, NoSession)),
            (Open, Session(0)),
        ],
        &[("/a", "", 0, 0)],
    ),
    (
        &[
            (
                Multi(&[Ephemeral("/a/e", "x", 0)]),
                Done(&[Created("/a/e")]),
            ),
            (
                Multi(&[Persistent("/a/e/f", "y")]),
                Refused(0, EphemeralParent),
            ),
            (
                Multi(&[Ephemeral("/b", "y", 0), Persistent("/b/c", "y")]),
                Refused(1, EphemeralParent),
            ),
            (Multi(&[Ephemeral("/q/e/f", "y", 9)]), Refused(0, NoSession)),
            (Multi(&[Ephemeral("/a/e/f", "y", 1)]), Refused(0, NoSession)),
            (Multi(&[Ephemeral("/a/e", "y", 0)]), Refused(0, NodeExists)),
            (Open, Session(1)),
        ],
        &[("/a", "", 0, 0), ("/a/e", "x", 0, 0)],
    ),
    (
        &[(
            Multi(&[
                EphemeralSequential("/a/l-", "y", 1),
                Ephemeral("/a/f", "z", 1),
            ]),
            Done(&[Created("/a/l-0000000000"), Created("/a/f")]),
        )],
        &[
            ("/a", "", 0, 1),
            ("/a/e", "x", 0, 0),
            ("/a/f", "z", 0, 0),
            ("/a/l-0000000000", "y", 0, 0),
        ],
    ),
    (
        &[(
            Multi(&[Operation::Set("/a/e", "q", Some(0)), Check("/a/f", 0)]),
            Done(&[Answer::Set(1), Checked]),
        )],
        &[
            ("/a", "", 0, 1),
            ("/a/e", "q", 1, 0),
            ("/a/f", "z", 0, 0),
            ("/a/l-0000000000", "y", 0, 0),
        ],
    ),
    (
        &[
            (End(0), Ended(true)),
            (Multi(&[Ephemeral("/a/e", "x", 0)]), Refused(0, NoSession)),
            (End(0), Ended(false)),
            (Open, Session(0)),
        ],
        &[
            ("/a", "", 0, 1),
            ("/a/f", "z", 0, 0),
            ("/a/l-0000000000", "y", 0, 0),
        ],
    ),
    (
        &[
            (
                Multi(&[Ephemeral("/a/e", "x", 0)]),
                Done(&[Created("/a/e")]),
            ),
            (Multi(&[Delete("/a", None)]), Refused(0, NotEmpty)),
        ],
        &[
            ("/a", "", 0, 1),
            ("/a/e", "x", 0, 0),
            ("/a/f", "z", 0, 0),
            ("/a/l-0000000000", "y", 0, 0),
        ],
    ),
    (
        &[
            (
                Multi(&[Delete("/a/e", Some(0)), Persistent("/a/e", "p")]),
                Done(&[Deleted, Created("/a/e")]),
            ),
            (End(0), Ended(true)),
        ],
        &[
            ("/a", "", 0, 1),
            ("/a/e", "p", 0, 0),
            ("/a/f", "z", 0, 0),
            ("/a/l-0000000000", "y", 0, 0),
        ],
    ),
    (
        &[(End(1), Ended(true))],
        &[("/a", "", 0, 1), ("/a/e", "p", 0, 0)],
    ),
    (
        &[(
            Multi(&[Persistent("/a/e/f", "y")]),
            Done(&[Created("/a/e/f")]),
        )],
        &[("/a", "", 0, 1), ("/a/e", "p", 0, 0), ("/a/e/f", "y", 0, 0)],
    ),
    (
        &[(
            Multi(&[Delete("/a/e/f", None), Delete("/a/e", None)]),
            Done(&[Deleted, Deleted]),
        )],
        &[("/a", "", 0, 1)],
    ),
];

/// Children are in the order of their bytes.
pub(crate) const CHILDREN: &[Stage] = &[
    (
        &[(Multi(&[Persistent("/a", "")]), Done(&[Created("/a")]))],
        &[("/a", "", 0, 0)],
    ),
    (
        &[(
            Multi(&[
                Persistent("/a/z", "3"),
                Persistent("/a/y", "2"),
                Persistent("/a/x~", "1"),
                Persistent("/a/B", "0"),
            ]),
            Done(&[
                Created("/a/z"),
                Created("/a/y"),
                Created("/a/x~"),
                Created("/a/B"),
            ]),
        )],
        &[
            ("/a", "", 0, 0),
            ("/a/B", "0", 0, 0),
            ("/a/x~", "1", 0, 0),
            ("/a/y", "2", 0, 0),
            ("/a/z", "3", 0, 0),
        ],
    ),
    (
        &[(Multi(&[Delete("/a/y", Some(0))]), Done(&[Deleted]))],
        &[
            ("/a", "", 0, 0),
            ("/a/B", "0", 0, 0),
            ("/a/x~", "1", 0, 0),
            ("/a/z", "3", 0, 0),
        ],
    ),
    (
        &[(Multi(&[Persistent("/a/x", "4")]), Done(&[Created("/a/x")]))],
        &[
            ("/a", "", 0, 0),
            ("/a/B", "0", 0, 0),
            ("/a/x", "4", 0, 0),
            ("/a/x~", "1", 0, 0),
            ("/a/z", "3", 0, 0),
        ],
    ),
    (
        &[(
            Multi(&[Persistent("/a/x/w", "5"), Persistent("/A", "6")]),
            Done(&[Created("/a/x/w"), Created("/A")]),
        )],
        &[
            ("/A", "6", 0, 0),
            ("/a", "", 0, 0),
            ("/a/B", "0", 0, 0),
            ("/a/x", "4", 0, 0),
            ("/a/x~", "1", 0, 0),
            ("/a/z", "3", 0, 0),
            ("/a/x/w", "5", 0, 0),
        ],
    ),
];

/// Children made in falling order stand in rising order, as do those that are left and a new one.
pub(crate) const FALLING: &[Stage] = &[
    (
        &[(
            Multi(&[
                Persistent("/a", ""),
                Persistent("/a/b9", ""),
                Persistent("/a/b8", ""),
                Persistent("/a/b7", ""),
                Persistent("/a/b6", ""),
                Persistent("/a/b5", ""),
                Persistent("/a/b4", ""),
                Persistent("/a/b3", ""),
                Persistent("/a/b2", ""),
                Persistent("/a/b1", ""),
                Persistent("/a/b0", ""),
            ]),
            Done(&[
                Created("/a"),
                Created("/a/b9"),
                Created("/a/b8"),
                Created("/a/b7"),
                Created("/a/b6"),
                Created("/a/b5"),
                Created("/a/b4"),
                Created("/a/b3"),
                Created("/a/b2"),
                Created("/a/b1"),
                Created("/a/b0"),
            ]),
        )],
        &[
            ("/a", "", 0, 0),
            ("/a/b0", "", 0, 0),
            ("/a/b1", "", 0, 0),
            ("/a/b2", "", 0, 0),
            ("/a/b3", "", 0, 0),
            ("/a/b4", "", 0, 0),
            ("/a/b5", "", 0, 0),
            ("/a/b6", "", 0, 0),
            ("/a/b7", "", 0, 0),
            ("/a/b8", "", 0, 0),
            ("/a/b9", "", 0, 0),
        ],
    ),
    (
        &[(
            Multi(&[Delete("/a/b5", None), Persistent("/a/c", "x")]),
            Done(&[Deleted, Created("/a/c")]),
        )],
        &[
            ("/a", "", 0, 0),
            ("/a/b0", "", 0, 0),
            ("/a/b1", "", 0, 0),
            ("/a/b2", "", 0, 0),
            ("/a/b3", "", 0, 0),
            ("/a/b4", "", 0, 0),
            ("/a/b6", "", 0, 0),
            ("/a/b7", "", 0, 0),
            ("/a/b8", "", 0, 0),
            ("/a/b9", "", 0, 0),
            ("/a/c", "x", 0, 0),
        ],
    ),
];
