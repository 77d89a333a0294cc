use rmt_names::PartName;
use rmt_values::ReplicaId;

/// The part of a Get, and the replica that made it.
#[derive(Clone, Copy, Debug)]
pub(crate) struct LostPart {
    pub part: PartName,
    pub source: ReplicaId,
}
