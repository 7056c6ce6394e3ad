//! The laws of valid certificates, as contracts over their definitions alone. Nothing is computed here.

ghost use Rattle.std.specs.Prelude.{◌≡◌, ◌≢◌, ◌↔◌, ℕ, suc, ◌+◌, ◌<◌, true, List, [], All, Contains, Option, sum_by};
ghost use Rattle.gap_base.specs.declared.witness.Witness.{Witness};
ghost use Rattle.gap_base.specs.Markets.{rho_of};
ghost use Rattle.gap_base.specs.Sums.{at};
ghost use Rattle.gap_box.specs.declared.cell.Cell.{Cell};
ghost use Rattle.gap_box.specs.Cells.{AreCells};
ghost use Rattle.gap_box.specs.Parts.{in_part, indicator};
ghost use Rattle.gap_instance.specs.Instances.{IsInstance};
ghost use Rattle.gap_psd.specs.Shifts.{IsShift, r_of};
ghost use Rattle.gap_model.specs.declared.leaf.Leaf.{Leaf};
ghost use Rattle.gap_model.specs.declared.outcome.Best.{Best};
ghost use Rattle.gap_model.specs.declared.shown.Shown.{Shown};
ghost use Rattle.gap_model.specs.declared.shown.Shown.TheVariants.{AtLeast};
ghost use Rattle.gap_model.specs.Settings.{Setting};
ghost use Rattle.gap_model.specs.Leaves.{shows};
ghost use Rattle.gap_model.specs.Outcomes.{IsToldRight};
ghost use Rattle.gap_cert.specs.Certificates.{CertLeaf, CertTree, closed, CertHead, CertSection, Certificate};
ghost use Rattle.gap_valid.specs.Heads.{pair_number, row_number, market_in, instance_in, shift_in, setting_in, root_in, IsHead};
ghost use Rattle.gap_valid.specs.CertTrees.{IsFormed, cert_splits, PlacedLeaf, cert_leaves, leaf_shows, least_shown, IsLeastShown, shown_bound, IsSameLeaf};
ghost use Rattle.gap_valid.specs.Valid.{is_open, IsValid};
ghost use Rattle.gap_valid.specs.Verdicts.{verdict_of};

/// What a valid certificate tells of each weight is right for its instance: a closed section has a portfolio that meets
/// the limits, with its objective, and no list that meets the limits is below it; where a section says that there is no
/// such list there is none; and no such list is below the bound of an open one, whose portfolio, if it has one, meets the
/// limits, has its objective, and is above the bound. A closed section shows exactly its objective, and the tree of an open
/// one has exactly as many splits as the budget.
pub fn valid_certificates_bound()
    ensures told { (c : Certificate) → IsValid c → All (IsToldRight (instance_in c.head)) (verdict_of c).sections }
    ensures closed { (c : Certificate) (s : CertSection) (best : Best) (overall : Option Witness) → IsValid c
        → Contains c.sections s → s.claim ≡ closed best overall
        → shown_bound (setting_in c.head s.weight) (root_in c.head) overall s.tree ≡ AtLeast best.value }
    ensures spent { (c : Certificate) (s : CertSection) → IsValid c → Contains c.sections s → is_open s.claim ≡ true
        → cert_splits s.tree ≡ c.head.nodes }
{}

/// Each list of a part is in the part of exactly one leaf of a tree that is well formed there.
pub fn parts_are_covered()
    ensures { (part : List Cell) (tree : CertTree) (x : List ℕ) → AreCells part → IsFormed part tree
        → sum_by (λ (placed : PlacedLeaf). indicator (in_part placed.part x)) (cert_leaves part tree)
        ≡ indicator (in_part part x) }
{}

/// The least of what is shown is one of the things shown, and none of them is below it.
pub fn least_shown_is_least()
    ensures { (shown : List Shown) (least : Shown) → shown ≢ [] → (least_shown shown ≡ least) ↔ IsLeastShown shown least }
{}

/// A leaf of a certificate shows what the same leaf of the tangent bound does.
pub fn leaves_show_as_bounds()
    ensures { (s : Setting) (part : List Cell) (leaf : CertLeaf) (same : Leaf) → IsSameLeaf s leaf same
        → shows s part same ≡ leaf_shows s part leaf }
{}

/// A head in its ranges has an instance and a shift. The pair i < j has the correlation that stands at its number among
/// the pairs, both ways round, and an entry of the triangle R is the one that stands at its number.
pub fn heads_are_read()
    ensures instance { (h : CertHead) → IsHead h → IsInstance (instance_in h) }
    ensures shift { (h : CertHead) → IsHead h → IsShift (shift_in h) }
    ensures pairs { (h : CertHead) (i j : ℕ) → i < j → j < h.n
        → rho_of (market_in h) i j ≡ at h.correlations (pair_number h.n i j) }
    ensures turned { (h : CertHead) (i j : ℕ) → i < j → j < h.n
        → rho_of (market_in h) j i ≡ at h.correlations (pair_number h.n i j) }
    ensures rows { (h : CertHead) (i k : ℕ) → i < h.n → k < suc i → r_of (shift_in h) i k ≡ at h.factor (row_number i k) }
{}

/// The pairs i < j stand by i and then j: the pair of the first two comes first, behind a pair the same asset with the
/// next one, and behind the last pair of an asset the next asset with the one behind it. A triangle stands row by row.
pub fn entries_stand_in_order()
    ensures pairs_first { (n : ℕ) → pair_number n 0 1 ≡ 0 }
    ensures pairs_next { (n i j : ℕ) → i < j → pair_number n i (suc j) ≡ pair_number n i j + 1 }
    ensures pairs_row { (n i : ℕ) → suc i < n → pair_number (suc n) (suc i) (suc (suc i)) ≡ pair_number (suc n) i n + 1 }
    ensures rows_first { row_number 0 0 ≡ 0 }
    ensures rows_next { (i k : ℕ) → row_number i (suc k) ≡ row_number i k + 1 }
    ensures rows_row { (i : ℕ) → row_number (suc i) 0 ≡ row_number i i + 1 }
{}
