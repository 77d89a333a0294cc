//! The digests of a replica's parts.
ghost use Rattle.std.specs.Prelude.{◌≡◌, length, map, true, IfOk};
ghost use Rattle.std.specs.List.{All};
ghost use Rattle.rmt_format.specs.PartBytes.{HasPartBytes};
ghost use Rattle.rmt_state.specs.States.{IsNumber};
ghost use Rattle.rmt_statement_model.specs.TableStates.{TableState};
ghost use Rattle.rmt_statement_model.specs.Shows.{Shows, Leads, ups};
ghost use Rattle.rmt_acts.specs.Checking.{AreDigests, digest_in};

use crate::reading::{read_parts, schema_of};
use rmt_cluster::Cluster;
use rmt_format::{digest_of, encode};
use rmt_names::PartName;
use rmt_partset::NamedPart;
use rmt_values::{ReplicaId, Schema};
use std::alloc::{AllocError, Global};

/// The SHA-256 of the bytes of a part.
fn part_digest(alloc: Global, part: &NamedPart, schema: &Schema) -> Result<[u8; 32], AllocError>
    requires { HasPartBytes schema.now part.now.rows }
    ensures { IfOk result (λ digest. digest ≡ digest_in schema.now part.now) }
{
    let bytes = encode(alloc, part.data(), schema)?;
    Ok(digest_of(&bytes))
}

/// The names of parts, each with the SHA-256 of all its bytes, in their order. At an error no memory was left.
pub fn digests_of(
    alloc: Global,
    parts: &[NamedPart],
    schema: &Schema,
) -> Result<Vec<(PartName, [u8; 32])>, AllocError>
    requires { All (λ part. HasPartBytes schema.now part.rows) parts.now }
    ensures { IfOk result (λ all. all.items ≡ map (λ part. (part.name, digest_in schema.now part)) parts.now) }
{
    let mut digests = Vec::with_capacity(alloc, parts.len())?;
    'parts: for part in parts {
        let digest = part_digest(alloc, part, schema)?;
        digests.push((*part.name(), digest))?;
    }
    Ok(digests)
}

/// The active parts of a replica, each with the SHA-256 of all its bytes: parts of different rows have different bytes. At an
/// error no memory was left.
pub fn part_digests(
    alloc: Global,
    cluster: &Cluster,
    replica: ReplicaId,
) -> Result<Vec<(PartName, [u8; 32])>, AllocError>
    requires here { IsNumber replica (length cluster.now.replicas) }
    requires up { ups cluster.now replica ≡ true }
    ensures { IfOk result (λ all. (t : TableState) → Shows cluster.now t
        → Leads cluster.now (AreDigests t replica all.items)) }
{
    let snapshot = read_parts(alloc, cluster, replica)?;
    digests_of(alloc, snapshot.parts(), schema_of(cluster))
}
