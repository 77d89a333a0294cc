/// The number of a replica, counted from 1.
pub type ReplicaId = u8;
