//! The laws of heads that say instances, as contracts over their definitions alone. Nothing is computed here.

ghost use Rattle.std.specs.Prelude.{◌≡◌, ◌↔◌, ℕ, ◌<◌, List, ℤ, slice_index_or};
ghost use Rattle.gap_base.specs.declared.job.Job.{Job};
ghost use Rattle.gap_base.specs.Markets.{MarketValue, rho_of};
ghost use Rattle.gap_base.specs.Sums.{at};
ghost use Rattle.gap_instance.specs.Instances.{InstanceValue, IsInstance, instance_of};
ghost use Rattle.gap_instance.specs.Limits.{MeetsLimits};
ghost use Rattle.gap_instance.specs.Neighbours.{HasNoBetterNeighbour};
ghost use Rattle.gap_instance.specs.Objective.{cov_of, risk_of, return_of, objective};
ghost use Rattle.gap_instance.specs.Orders.{SomeOrderGives};
ghost use Rattle.gap_psd.specs.Shifts.{ShiftValue, r_of, IsDominantShift};
ghost use Rattle.gap_model.specs.declared.outcome.Told.{Told};
ghost use Rattle.gap_model.specs.Outcomes.{IsToldRight};
ghost use Rattle.gap_cert.specs.Certificates.{AssetLine, CertHead};
ghost use Rattle.gap_valid.specs.Heads.{pair_number, instance_in, shift_in, IsHead};
ghost use Rattle.gap_valid.specs.Said.{said_market, said_instance, IsSaid};
ghost use Rattle.gap_valid.specs.HeadOf.{asset_line, head_of, AreRanged};

/// The head of an instance, a shift and a budget that are in their ranges is in its ranges, and says them: where the
/// instance is as a head says it, it is the instance that stands in the head, and of any other its said one stands there;
/// so do the budget, the diagonal of the shift, and its triangle, whose numbers above the diagonal are not read. A shift
/// that is dominant stays so.
pub fn heads_say_instances()
    ensures head { (I : InstanceValue) (S : ShiftValue) (nodes : ℕ) → AreRanged I S nodes → IsHead (head_of I S nodes) }
    ensures instance { (I : InstanceValue) (S : ShiftValue) (nodes : ℕ) → AreRanged I S nodes
        → instance_in (head_of I S nodes) ≡ said_instance I }
    ensures said { (I : InstanceValue) (S : ShiftValue) (nodes : ℕ) → AreRanged I S nodes → IsSaid I
        → instance_in (head_of I S nodes) ≡ I }
    ensures nodes { (I : InstanceValue) (S : ShiftValue) (nodes : ℕ) → (head_of I S nodes).nodes ≡ nodes }
    ensures diagonal { (I : InstanceValue) (S : ShiftValue) (nodes : ℕ)
        → (shift_in (head_of I S nodes)).diagonal ≡ S.diagonal }
    ensures triangle { (I : InstanceValue) (S : ShiftValue) (nodes i k : ℕ) → AreRanged I S nodes → i < S.assets
        → k < S.assets → r_of (shift_in (head_of I S nodes)) i k ≡ r_of S i k }
    ensures dominant { (C : ℕ → ℕ → ℤ) (I : InstanceValue) (S : ShiftValue) (nodes : ℕ) → AreRanged I S nodes
        → IsDominantShift C S → IsDominantShift C (shift_in (head_of I S nodes)) }
{}

/// The instance of a head in its ranges says of each asset what stands at its place, and of each two assets, either way
/// round, the correlation at the place of their pair. So heads with the same numbers have the same instance.
pub fn heads_say_each_asset()
    ensures asset { (h : CertHead) (i : ℕ) (d : AssetLine) → IsHead h → i < h.n
        → asset_line (instance_in h) i ≡ slice_index_or h.assets i d }
    ensures pair { (h : CertHead) (i j : ℕ) → i < j → j < h.n
        → rho_of (instance_in h).market i j ≡ at h.correlations (pair_number h.n i j) }
    ensures turned { (h : CertHead) (i j : ℕ) → i < j → j < h.n
        → rho_of (instance_in h).market j i ≡ at h.correlations (pair_number h.n i j) }
{}

/// The instance of a said market and a job is the said instance of the market and the job.
pub fn said_markets_make_said_instances()
    ensures made { (m : MarketValue) (job : Job) → instance_of (said_market m) job ≡ said_instance (instance_of m job) }
    ensures said { (m : MarketValue) (job : Job) → IsSaid (instance_of (said_market m) job) }
{}

/// An instance and its said one are the same in all that is asked of an instance: its assets, the limits and which lists
/// meet them, risk, return and objective of each list, the covariances, what is right of an outcome, which lists have no
/// better neighbour, and whether some order gives a list.
pub fn said_instances_are_the_same()
    ensures instance { (I : InstanceValue) → IsInstance I → IsInstance (said_instance I) }
    ensures again { (I : InstanceValue) → IsSaid (said_instance I) }
    ensures read { (h : CertHead) → IsSaid (instance_in h) }
    ensures rho { (m : MarketValue) (i j : ℕ) → i < m.assets → j < m.assets → rho_of (said_market m) i j ≡ rho_of m i j }
    ensures cov { (m : MarketValue) (i j : ℕ) → i < m.assets → j < m.assets → cov_of (said_market m) i j ≡ cov_of m i j }
    ensures risk { (m : MarketValue) (x : List ℕ) → risk_of (said_market m) x ≡ risk_of m x }
    ensures ret { (m : MarketValue) (x : List ℕ) → return_of (said_market m) x ≡ return_of m x }
    ensures objective { (I : InstanceValue) (p q : ℕ) (x : List ℕ) → objective (said_instance I) p q x ≡ objective I p q x }
    ensures meets { (I : InstanceValue) (x : List ℕ) → MeetsLimits (said_instance I) x ↔ MeetsLimits I x }
    ensures told { (I : InstanceValue) (told : Told) → IsToldRight (said_instance I) told ↔ IsToldRight I told }
    ensures neighbours { (I : InstanceValue) (p q : ℕ) (x : List ℕ)
        → HasNoBetterNeighbour (said_instance I) p q x ↔ HasNoBetterNeighbour I p q x }
    ensures orders { (I : InstanceValue) (p q : ℕ) → SomeOrderGives (said_instance I) p q ↔ SomeOrderGives I p q }
{}
