//! The law that the lists of a job say what their entries do.

ghost use Rattle.std.specs.Prelude.{◌≡◌, ℕ, List, Option, Some};
ghost use Rattle.serde_json.specs.Data.{Data};
ghost use Rattle.serde_json.specs.Find.{as_array};
ghost use Rattle.gap_job.specs.declared.fault.JobFault.{JobFault};
ghost use Rattle.gap_job.specs.Entries.{limits_of, present_of, weights_of};
ghost use Rattle.gap_job.specs.Sayings.{Wrong, AreSound, IsFirstFault, listed, values_of, TellsLimits, TellsPresent, TellsWeights};

/// The law of the lists of a job, which are taken in entry by entry: where each entry is sound, the limits and the lots
/// of an asset are those of the entry that names it, and the weights are the entries; else the first entry that is at
/// fault gives the fault. No list is sound and has a first fault, and none has two.
pub fn lists_say_what_their_entries_do()
    ensures limits { (n lots least greatest : ℕ) (o : Option Data)
        → TellsLimits n lots least greatest (values_of o) (limits_of n lots least greatest o) }
    ensures present { (n : ℕ) (o : Option Data) → TellsPresent n (values_of o) (present_of n o) }
    ensures weights { (d : Data) → TellsWeights (listed (as_array d)) (weights_of (Some d)) }
    ensures exclusive { (wrong : Wrong) (ds : List Data) (f : JobFault) → AreSound wrong ds → IsFirstFault wrong ds f → ⊥ }
    ensures one_fault { (wrong : Wrong) (ds : List Data) (f g : JobFault) → IsFirstFault wrong ds f
        → IsFirstFault wrong ds g → f ≡ g }
{}
