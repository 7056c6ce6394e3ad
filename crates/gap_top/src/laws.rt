//! What follows from the contract of `run`, as contracts. Nothing is computed here.
ghost use Rattle.std.specs.Prelude.{◌≡◌, ◌≢◌, ℕ, ◌⊎◌, List, [], ◌∷◌, All, Ok, Err};
ghost use Rattle.gap_base.specs.Markets.{MarketValue};
ghost use Rattle.gap_base.specs.declared.job.Job.{Job};
ghost use Rattle.gap_instance.specs.Instances.{instance_of};
ghost use Rattle.gap_model.specs.Outcomes.{IsToldRight};
ghost use Rattle.gap_psd.specs.Shifts.{ShiftValue};
ghost use Rattle.gap_rule.specs.Tasks.{work_of};
ghost use Rattle.gap_sweep.specs.Asked.{Done};
ghost use Rattle.gap_sweep.specs.Runs.{HasDone};
ghost use Rattle.gap_sweep.specs.declared.style.Style.{Style};
ghost use Rattle.gap_top.specs.Working.{asked_for, cert_in, told_of};
ghost use Rattle.gap_files.specs.Outside.{FilesNow, SinkNow, Rose};
ghost use Rattle.gap_words.specs.Forms.{FormValue, check, verify, upgrade};
ghost use Rattle.gap_words.specs.Names.{reads, writes};
ghost use Rattle.gap_words.specs.Refusals.{refusal_status};
ghost use Rattle.gap_words.specs.declared.refusal.Refusal.{Refusal};
ghost use Rattle.gap_rule.specs.Names.{AreTold, RoseIn, held};
ghost use Rattle.gap_rule.specs.Rules.{Rules};
ghost use Rattle.gap_rule.specs.declared.task.Task.{Task};
ghost use Rattle.gap_top.specs.Answers.{Answers, FailedIn};
ghost use Rattle.gap_top.specs.Telling.{IsChecked, IsVerified, SaysChecked, SaysVerified};
ghost use Rattle.gap_top.specs.Headline.{Headline, Solves};
ghost use Rattle.gap_top.specs.Statuses.{IsOneOf};
ghost use Rattle.gap_files.specs.Steps.{IsUnstarted};
ghost use Rattle.gap_check.specs.Accepting.{Accepted};
ghost use Rattle.gap_top.specs.Renewing.{LeavesFront};
ghost use Rattle.gap_files.specs.Marks.{stream};
ghost use Rattle.gap_upgrade.specs.Upgrading.{HoldsUpgrade};
ghost use Rattle.gap_valid.specs.Verdicts.{VerdictValue};

/// Completeness: where the contents of the files are told and no count rose, a task is done or memory was wanted, and a
/// refusal has its own status or memory was wanted.
pub fn answers_are_complete()
    ensures done { (asked : FormValue) (f : FilesNow) (s : SinkNow) (g : FilesNow) (t : SinkNow) (status : ℕ) (task : Task)
        → Answers asked f s g t status → AreTold (reads asked) f → Rules asked (held f) (Ok task)
        → ¬ (RoseIn (reads asked) f g) → ¬ (Rose s.faults t.faults) → ¬ (FailedIn (writes asked) f g)
        → (status ≡ 0) ⊎ (status ≡ 1) }
    ensures refused { (asked : FormValue) (f : FilesNow) (s : SinkNow) (g : FilesNow) (t : SinkNow) (status : ℕ)
        (why : Refusal)
        → Answers asked f s g t status → AreTold (reads asked) f → Rules asked (held f) (Err why)
        → ¬ (RoseIn (reads asked) f g) → (status ≡ refusal_status why) ⊎ (status ≡ 1) }
{}

/// What is told of each weight that was done is right for the market and the job of the files, as they say them: a portfolio
/// meets every limit and has exactly its objective, none that meets the limits is below the bound, and that there is none is
/// told only where there is none.
pub fn answers_are_right()
    ensures { (style : Style) (market : MarketValue) (job : Job) (shift : ShiftValue) (done : List Done)
        → HasDone (asked_for style (work_of market job)) shift done
        → All (λ d. IsToldRight (instance_of market job) (told_of d)) done }
{}

/// The headline, from the contract of `run`, for `quick`, `solve` and `demo`, where the files that are read are told. With the
/// status 0 `Headline` holds: the report of the weights' outcomes was written, a line for each weight; what is said of each is
/// right for the market and the job of the files, a portfolio meeting every limit and having exactly its objective, none that
/// meets the limits being below the bound, none being said only where there is none, and open only after exactly the budget;
/// and the certificate that shows it is in its file. Where memory was wanted or a fault came it holds of the weights that
/// were done, with a front of the report and of the certificate, or nothing was begun.
pub fn headline_holds()
    ensures done { (command : FormValue) (f : FilesNow) (s : SinkNow) (g : FilesNow) (t : SinkNow) → Solves command
        → AreTold (reads command) f → Answers command f s g t 0 → Headline command f s g t 0 }
    ensures stopped { (command : FormValue) (f : FilesNow) (s : SinkNow) (g : FilesNow) (t : SinkNow) (status : ℕ)
        → Solves command → AreTold (reads command) f → IsOneOf (1 ∷ 3 ∷ 4 ∷ []) status → Answers command f s g t status
        → IsUnstarted (cert_in command) f s g t ⊎ Headline command f s g t status }
{}

/// What `check` and `verify` have said where they ended with 0, from the contract of `run`: all lines of a verdict were
/// written, which is right for the certificate that the bytes of the file encode, and with `verify` for the market and the
/// job of the files.
pub fn verdicts_hold()
    ensures check { (cert : List ℕ) (f : FilesNow) (s : SinkNow) (g : FilesNow) (t : SinkNow)
        → AreTold (cert ∷ []) f → Answers (check cert) f s g t 0 → SaysChecked (held f cert) s t }
    ensures verify { (port job cert : List ℕ) (f : FilesNow) (s : SinkNow) (g : FilesNow) (t : SinkNow)
        → AreTold (port ∷ job ∷ cert ∷ []) f → Answers (verify port job cert) f s g t 0
        → SaysVerified (held f port) (held f job) (held f cert) s t }
{}

/// What `check` and `verify` print is right: where a certificate is accepted, its portfolios meet every limit of the
/// instance in
/// its bytes and have exactly their objectives, none that meets the limits is below a bound, and that there is none
/// is told only
/// where there is none. What `verify` prints is so for the market and the job of the files, whose instance, budget and
/// weights the certificate then has.
pub fn verdicts_are_right()
    ensures check { (cert : List ℕ) (holds : List ℕ → List ℕ) (v : VerdictValue)
        → Rules (check cert) holds (Ok (Task.Check v)) → IsChecked (holds cert) v }
    ensures verify { (port job cert : List ℕ) (holds : List ℕ → List ℕ) (v : VerdictValue)
        → Rules (verify port job cert) holds (Ok (Task.Verify v)) → IsVerified (holds port) (holds job) (holds cert) v }
    ensures upgrade { (cert new : List ℕ) (holds : List ℕ → List ℕ) (v : VerdictValue)
        → Rules (upgrade cert new) holds (Ok (Task.Upgrade v)) → IsChecked (holds cert) v }
{}

/// Where `upgrade` ended with 0 and the contents of both files are told, NEW holds the encoding in version 2 of the
/// certificate that CERT encodes; where it ended otherwise, and CERT encodes one, NEW holds what it held, or nothing, or a
/// proper front of that.
pub fn upgrades_are_right()
    ensures whole { (cert new : List ℕ) (f : FilesNow) (s : SinkNow) (g : FilesNow) (t : SinkNow) (v : VerdictValue)
        → Answers (upgrade cert new) f s g t 0 → new ≢ cert → AreTold (cert ∷ new ∷ []) f
        → (a : Accepted (held f cert) v) → HoldsUpgrade a.certificate (stream new g) }
    ensures front { (cert new : List ℕ) (f : FilesNow) (s : SinkNow) (g : FilesNow) (t : SinkNow) (v : VerdictValue)
        (status : ℕ) → Answers (upgrade cert new) f s g t status → status ≢ 0 → new ≢ cert → AreTold (cert ∷ new ∷ []) f
        → (a : Accepted (held f cert) v) → LeavesFront a.certificate (stream new f) (stream new g) }
{}
