//! The right job.
ghost use Rattle.std.specs.Prelude.{◌≡◌, ℕ};
ghost use Rattle.rmt_replica.specs.Replicas.{ReplicaView};
ghost use Rattle.rmt_jobs.specs.declared.job.Job.{Job};
ghost use Rattle.rmt_jobs.specs.Jobs.{IsJob};

/// Law: at each replica and for each length of the log exactly one job is right: not none, and no two.
pub fn exactly_one_job_is_right()
    ensures some { (r : ReplicaView) (len : ℕ) → ((job : Job) → IsJob r len job → ⊥) → ⊥ }
    ensures one { (r : ReplicaView) (len : ℕ) (a b : Job) → IsJob r len a → IsJob r len b → a ≡ b }
{}
