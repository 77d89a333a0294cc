//! Lists of events with all their replies, which were worked out by hand.
use crate::answers::Answer::{Applied, Attempt, Done, Entry, Pulled, Refused};
use crate::answers::Refusal::{
    Differ, Down, Duplicate, InFlight, LockGone, LogMoved, NeedsPart, NoSession, NotLive,
};
use crate::moves::Move::{
    Abandon, Again, Allocate, Apply, Commit, Create, Drop, Kill, Merge, Mutate, Pull, Restart,
    Stage,
};
use crate::parts::{ALL_0_0_0, ALL_0_1_1, ALL_1_1_0, ALL_1_1_0_2, ALL_2_2_0, ALL_6_6_0};
use crate::played::Step;
use crate::played::Step::{Does, Parts, Reads};
use crate::rows::Numbers;
use rmt_events::Applied::{Already, Dropped, Installed};

const ONE: Numbers = &[&[1]];

const TWO: Numbers = &[&[2]];

const FIVE: Numbers = &[&[5]];

/// The lists, each with how many replicas it has, which are up.
pub(crate) const LISTS: &[(usize, &[Step])] = &[
    (2, DROP_OVER_AN_INSERT),
    (2, MERGE_OVER_A_LOCK),
    (2, KILLS_OF_ANOTHER_REPLICA),
    (2, KILLS_IN_AN_INSERT),
    (2, SESSION_ENDS_UNDER_A_LOCK),
    (2, MUTATE_OF_AN_OLD_COPY),
    (3, LIVE_HOLDERS),
    (4, LOWEST_HOLDER),
    (2, PART_PAST_THE_COPY),
    (2, ANY_ORDER),
];

/// A mutation and a drop overtake the first block, whose lock the drop takes: it gets another number. Of two attempts
/// of one block the second is accepted, and the first is a duplicate.
const DROP_OVER_AN_INSERT: &[Step] = &[
    Does(Allocate(1, ONE), Attempt(0, 0)),
    Does(Allocate(2, TWO), Attempt(1, 1)),
    Does(Stage(1), Done),
    Does(Commit(1), Entry(0)),
    Does(Create("ALTER TABLE t DELETE WHERE c = 7"), Entry(1)),
    Does(Drop(None), Entry(2)),
    Does(Stage(0), Done),
    Does(Commit(0), Refused(LockGone(0))),
    Does(Again(0), Attempt(0, 4)),
    Does(Stage(0), Done),
    Does(Commit(0), Entry(3)),
    Does(Allocate(1, FIVE), Attempt(2, 5)),
    Does(Allocate(2, FIVE), Attempt(3, 6)),
    Does(Stage(2), Done),
    Does(Stage(3), Done),
    Does(Commit(3), Entry(4)),
    Does(Commit(2), Refused(Duplicate(ALL_6_6_0))),
];

/// A merge of two parts is refused as long as a lock lies between them, and once the log is longer than the copy.
const MERGE_OVER_A_LOCK: &[Step] = &[
    Does(Allocate(1, ONE), Attempt(0, 0)),
    Does(Allocate(1, TWO), Attempt(1, 1)),
    Does(Allocate(1, FIVE), Attempt(2, 2)),
    Does(Stage(0), Done),
    Does(Stage(2), Done),
    Does(Commit(0), Entry(0)),
    Does(Commit(2), Entry(1)),
    Does(Pull(1), Pulled(2)),
    Does(Merge(1, ALL_0_0_0, ALL_2_2_0), Refused(InFlight(1))),
    Does(Abandon(1), Done),
    Does(Merge(1, ALL_0_0_0, ALL_2_2_0), Entry(2)),
    Does(
        Merge(1, ALL_0_0_0, ALL_2_2_0),
        Refused(LogMoved { seen: 2, found: 3 }),
    ),
];

/// The first replica is killed between every two events of an INSERT at the second one, and of a drop that takes its
/// part away.
const KILLS_OF_ANOTHER_REPLICA: &[Step] = &[
    Does(Allocate(2, ONE), Attempt(0, 0)),
    Does(Kill(1), Done),
    Does(Stage(0), Done),
    Does(Kill(1), Done),
    Does(Commit(0), Entry(0)),
    Does(Kill(1), Done),
    Does(Drop(None), Entry(1)),
    Does(Kill(1), Done),
    Does(Pull(2), Pulled(2)),
    Does(Kill(1), Done),
    Does(Apply(2, 0), Applied(Dropped)),
    Does(Kill(1), Done),
    Does(Apply(2, 1), Applied(Installed)),
    Parts(2, &[]),
];

/// A replica is killed between every two events of its own INSERT.
const KILLS_IN_AN_INSERT: &[Step] = &[
    Does(Allocate(1, ONE), Attempt(0, 0)),
    Does(Kill(1), Done),
    Does(Restart(1), Done),
    Does(Stage(0), Done),
    Does(Kill(1), Done),
    Does(Commit(0), Refused(LockGone(0))),
    Does(Kill(1), Done),
    Does(Again(0), Refused(NoSession)),
    Does(Kill(1), Done),
    Does(Restart(1), Done),
    Does(Kill(1), Done),
    Does(Pull(1), Refused(Down)),
];

/// A lock goes with its session. Another replica then inserts the block, and the first attempt is a duplicate.
const SESSION_ENDS_UNDER_A_LOCK: &[Step] = &[
    Does(Allocate(1, ONE), Attempt(0, 0)),
    Does(Stage(0), Done),
    Does(Restart(1), Done),
    Does(Commit(0), Refused(LockGone(0))),
    Does(Again(0), Attempt(0, 1)),
    Does(Allocate(2, ONE), Attempt(1, 2)),
    Does(Stage(0), Done),
    Does(Stage(1), Done),
    Does(Commit(1), Entry(0)),
    Does(Commit(0), Refused(Duplicate(ALL_2_2_0))),
    Does(Allocate(1, ONE), Refused(Duplicate(ALL_2_2_0))),
];

/// A part isn't mutated by a replica whose copy the log has passed.
const MUTATE_OF_AN_OLD_COPY: &[Step] = &[
    Does(Allocate(1, ONE), Attempt(0, 0)),
    Does(Stage(0), Done),
    Does(Commit(0), Entry(0)),
    Does(Create("ALTER TABLE t DELETE WHERE c = 7"), Entry(1)),
    Does(Pull(1), Pulled(2)),
    Does(Pull(2), Pulled(2)),
    Does(Mutate(1, ALL_0_0_0, 1), Entry(2)),
    Does(
        Mutate(2, ALL_0_0_0, 1),
        Refused(LogMoved { seen: 2, found: 3 }),
    ),
];

/// A Get is done with the block that is staged here, or with that of another live replica that holds it. Where the
/// source is killed, the part of another holder serves; where nobody that is up holds the block, it is missing.
const LIVE_HOLDERS: &[Step] = &[
    Does(Allocate(1, ONE), Attempt(0, 0)),
    Does(Stage(0), Done),
    Does(Commit(0), Entry(0)),
    Does(Apply(1, 0), Refused(NotLive)),
    Does(Pull(1), Pulled(1)),
    Does(Apply(1, 1), Refused(NotLive)),
    Does(Apply(1, 0), Applied(Installed)),
    Does(Apply(1, 0), Applied(Already)),
    Does(Pull(2), Pulled(1)),
    Does(Apply(2, 0), Applied(Installed)),
    Does(Kill(1), Done),
    Does(Apply(1, 0), Refused(Down)),
    Does(Pull(3), Pulled(1)),
    Does(Apply(3, 0), Applied(Installed)),
    Parts(2, &[ALL_0_0_0]),
    Parts(3, &[ALL_0_0_0]),
    Does(Restart(1), Done),
    Does(Allocate(1, TWO), Attempt(1, 1)),
    Does(Stage(1), Done),
    Does(Commit(1), Entry(1)),
    Does(Kill(1), Done),
    Does(Pull(2), Pulled(2)),
    Does(Apply(2, 1), Refused(NeedsPart(ALL_1_1_0))),
    Does(Restart(1), Done),
    Does(Apply(2, 1), Applied(Installed)),
    Parts(2, &[ALL_0_0_0, ALL_1_1_0]),
    Reads(2, &[&[1], &[2]]),
    Does(Kill(1), Done),
    Does(Kill(2), Done),
    Does(Pull(3), Pulled(2)),
    Does(Apply(3, 1), Refused(NeedsPart(ALL_1_1_0))),
    Does(Restart(2), Done),
    Does(Apply(3, 1), Applied(Installed)),
    Reads(3, &[&[1], &[2]]),
];

/// The lowest-numbered live holder gives what it has, be it a part that covers the block's: the first replica has the
/// merged part, and the second both sources. A Merge waits for its sources, unless a part covers what it makes.
const LOWEST_HOLDER: &[Step] = &[
    Does(Allocate(1, ONE), Attempt(0, 0)),
    Does(Stage(0), Done),
    Does(Commit(0), Entry(0)),
    Does(Allocate(1, TWO), Attempt(1, 1)),
    Does(Stage(1), Done),
    Does(Commit(1), Entry(1)),
    Does(Pull(2), Pulled(2)),
    Does(Apply(2, 1), Applied(Installed)),
    Does(Apply(2, 0), Applied(Installed)),
    Does(Pull(1), Pulled(2)),
    Does(Merge(1, ALL_0_0_0, ALL_1_1_0), Entry(2)),
    Does(Pull(1), Pulled(3)),
    Does(Apply(1, 2), Refused(NeedsPart(ALL_0_0_0))),
    Does(Apply(1, 0), Applied(Installed)),
    Does(Apply(1, 2), Refused(NeedsPart(ALL_1_1_0))),
    Does(Apply(1, 1), Applied(Installed)),
    Does(Apply(1, 2), Applied(Installed)),
    Parts(1, &[ALL_0_1_1]),
    Parts(2, &[ALL_0_0_0, ALL_1_1_0]),
    Does(Pull(3), Pulled(3)),
    Does(Apply(3, 1), Applied(Installed)),
    Parts(3, &[ALL_0_1_1]),
    Does(Apply(3, 0), Applied(Already)),
    Does(Apply(3, 2), Applied(Already)),
    Does(Kill(1), Done),
    Does(Pull(4), Pulled(3)),
    Does(Apply(4, 1), Applied(Installed)),
    Parts(4, &[ALL_1_1_0]),
    Does(Apply(4, 2), Refused(NeedsPart(ALL_0_0_0))),
    Does(Kill(2), Done),
    Does(Apply(4, 0), Applied(Installed)),
    Parts(4, &[ALL_0_1_1]),
    Does(Apply(4, 2), Applied(Already)),
];

/// A part that was made past the end of a replica's copy isn't fetched, although it covers the block's.
const PART_PAST_THE_COPY: &[Step] = &[
    Does(Allocate(1, ONE), Attempt(0, 0)),
    Does(Stage(0), Done),
    Does(Commit(0), Entry(0)),
    Does(Allocate(1, TWO), Attempt(1, 1)),
    Does(Stage(1), Done),
    Does(Commit(1), Entry(1)),
    Does(Pull(1), Pulled(2)),
    Does(Pull(2), Pulled(2)),
    Does(Apply(1, 0), Applied(Installed)),
    Does(Apply(1, 1), Applied(Installed)),
    Does(Merge(1, ALL_0_0_0, ALL_1_1_0), Entry(2)),
    Does(Pull(1), Pulled(3)),
    Does(Apply(1, 2), Applied(Installed)),
    Does(Apply(2, 0), Refused(NeedsPart(ALL_0_0_0))),
    Does(Pull(2), Pulled(3)),
    Does(Apply(2, 0), Applied(Installed)),
    Parts(2, &[ALL_0_1_1]),
    Does(Apply(2, 1), Applied(Already)),
    Does(Apply(2, 2), Applied(Already)),
    Reads(2, &[&[1], &[2]]),
];

/// Entries are done out of order, and a part is mutated before the other block is there. After a restart each entry is
/// done already; after a drop what it takes away is dropped.
const ANY_ORDER: &[Step] = &[
    Does(Allocate(1, ONE), Attempt(0, 0)),
    Does(Stage(0), Done),
    Does(Commit(0), Entry(0)),
    Does(Allocate(2, TWO), Attempt(1, 1)),
    Does(Stage(1), Done),
    Does(Commit(1), Entry(1)),
    Does(Create("ALTER TABLE t DELETE WHERE c = 2"), Entry(2)),
    Does(Pull(1), Pulled(3)),
    Does(Apply(1, 2), Applied(Already)),
    Does(Mutate(1, ALL_1_1_0, 1), Refused(NotLive)),
    Does(Mutate(1, ALL_1_1_0, 2), Entry(3)),
    Does(Pull(1), Pulled(4)),
    Does(Apply(1, 3), Refused(NeedsPart(ALL_1_1_0))),
    Does(Apply(1, 1), Applied(Installed)),
    Does(Apply(1, 3), Applied(Installed)),
    Parts(1, &[ALL_1_1_0_2]),
    Reads(1, &[]),
    Does(Apply(1, 0), Applied(Installed)),
    Parts(1, &[ALL_0_0_0, ALL_1_1_0_2]),
    Reads(1, &[&[1]]),
    Does(Merge(1, ALL_0_0_0, ALL_1_1_0), Refused(NotLive)),
    Does(
        Merge(1, ALL_0_0_0, ALL_1_1_0_2),
        Refused(Differ {
            left: ALL_0_0_0,
            right: ALL_1_1_0_2,
        }),
    ),
    Does(Pull(2), Pulled(4)),
    Does(Apply(2, 1), Applied(Installed)),
    Parts(2, &[ALL_1_1_0]),
    Reads(2, &[]),
    Does(Apply(2, 3), Applied(Installed)),
    Does(Apply(2, 2), Applied(Already)),
    Does(Apply(2, 0), Applied(Installed)),
    Does(Restart(2), Done),
    Parts(2, &[ALL_0_0_0, ALL_1_1_0_2]),
    Does(Apply(2, 3), Applied(Already)),
    Does(Apply(2, 2), Applied(Already)),
    Does(Apply(2, 1), Applied(Already)),
    Does(Apply(2, 0), Applied(Already)),
    Parts(2, &[ALL_0_0_0, ALL_1_1_0_2]),
    Reads(2, &[&[1]]),
    Does(Drop(None), Entry(4)),
    Does(Pull(1), Pulled(5)),
    Does(Apply(1, 0), Applied(Already)),
    Does(Apply(1, 4), Applied(Installed)),
    Parts(1, &[]),
    Does(Restart(1), Done),
    Does(Apply(1, 0), Applied(Dropped)),
    Does(Apply(1, 1), Applied(Dropped)),
    Does(Apply(1, 2), Applied(Already)),
    Does(Apply(1, 3), Applied(Dropped)),
    Does(Apply(1, 4), Applied(Installed)),
    Parts(1, &[]),
    Reads(1, &[]),
];
