//! Where a certificate is being read: what its items so far say of those to come.

ghost use Rattle.std.specs.Prelude.{◌≡◌, ℕ, ◌+◌, ◌-◌, ◌*◌, ◌/◌, ◌<◌, ◌≤◌, ◌^◌, max};
ghost use Rattle.gap_cert.specs.Contexts.{start, after, behind_field, behind_leaf, behind_start, behind_objective, steps, enters, IsContext, IsFieldIn, split_count};
ghost use Rattle.std.specs.Prelude.{None};

use crate::field::{Field, Group, Version};
use gap_base::Witness;

/// Which kind of item comes next.
#[derive(Clone, Copy, PartialEq, Eq, Debug)]
pub enum Phase {
    Head,
    Assets,
    Correlations,
    Factor,
    Diagonal,
    Sections,
    Section,
    Portfolio,
    Objective,
    Bound,
    Overall,
    Node,
    End,
    Over,
}

/// What the items so far say of those to come: the version and the numbers of the head; how many items of the present
/// phase are to come (trees, in a section's tree); how many sections come behind the present one, its outcome, and the
/// witness of the last tangent leaf of its tree.
#[derive(Drop, Debug)]
pub struct Context {
    pub version: Version,
    pub n: u16,
    pub lots: u16,
    pub held: u16,
    pub held_most: u16,
    pub turnover: Option<u32>,
    pub phase: Phase,
    pub left: u64,
    pub sections: u8,
    pub outcome: u8,
    pub last: Option<Witness>,
}

impl Context {
    /// Before the first byte.
    #[tactic(auto, unfolding(crate::specs::Contexts::start))]
    pub fn start() -> Context
        ensures value { result ≡ start }
        ensures kept { IsContext result }
        ensures left { result.left ≡ 1 }
    {
        Context {
            version: Version::One,
            n: 2,
            lots: 1,
            held: 1,
            held_most: 1,
            turnover: None,
            phase: Phase::Head,
            left: 1,
            sections: 0,
            outcome: 1,
            last: None,
        }
    }

    /// Goes behind a group.
    #[tactic(auto, unfolding(crate::specs::Contexts::behind_field))]
    pub fn advance(&mut self, group: &Group)
        requires kept { IsContext self.old }
        requires inside { IsFieldIn group.now.field }
        requires room { self.old.left < 2 ^ 63 }
        ensures after { self.new ≡ after self.old group.now }
        ensures kept { IsContext self.new }
        ensures left { self.new.left ≤ max self.old.left 65536 + split_count group.now.field }
    {
        self.version = group.version;
        match &group.field {
            Field::Head {
                n,
                lots,
                held,
                held_most,
                turnover,
                ..
            } => {
                self.enter(Phase::Assets, u64::from(*n));
                self.n = *n;
                self.lots = *lots;
                self.held = *held;
                self.held_most = *held_most;
                self.turnover = *turnover;
            }
            Field::Asset { .. } => self.step(Phase::Correlations, pairs_below(self.n)),
            Field::Correlation { .. } => self.step(Phase::Factor, pairs_up_to(self.n)),
            Field::FactorEntry { .. } => self.step(Phase::Diagonal, u64::from(self.n)),
            Field::ShiftEntry { .. } => self.step(Phase::Sections, 1),
            Field::Sections { count } => {
                self.enter(Phase::Section, 1);
                self.sections = count.saturating_sub(1);
            }
            Field::SectionStart { outcome, .. } => {
                self.open(*outcome);
            }
            Field::Portfolio(_) => self.enter(Phase::Objective, 1),
            Field::Objective(_) => {
                let next = if self.outcome == 3 {
                    Phase::Bound
                } else {
                    Phase::Overall
                };
                self.enter(next, 1);
            }
            Field::Bound(_) => self.enter(Phase::Overall, 1),
            Field::Overall(_) => self.enter(Phase::Node, 1),
            Field::CountLeaf => self.leave_leaf(),
            Field::VoidLeaf { .. } => self.leave_leaf(),
            Field::TangentLeaf(w) => {
                self.leave_leaf();
                self.last = Some(w.copy());
            }
            Field::Split(_) => self.left += 1,
            Field::End => self.enter(Phase::Over, 1),
        }
    }

    /// Goes to a phase of so many items.
    fn enter(&mut self, phase: Phase, left: u64)
        ensures { self.new ≡ enters self.old phase left }
    {
        self.phase = phase;
        self.left = left;
    }

    /// Goes to the next item of the phase, or behind the last to the next phase.
    fn step(&mut self, next: Phase, count: u64)
        ensures { self.new ≡ steps self.old next count }
    {
        if self.left == 1 {
            self.enter(next, count);
        } else {
            self.left = self.left.saturating_sub(1);
        }
    }

    /// Begins a section with this outcome.
    fn open(&mut self, outcome: u8)
        ensures { self.new ≡ record (behind_start self.old outcome) { outcome = outcome; last = None } }
    {
        let next = match outcome {
            2 => Phase::Node,
            4 => Phase::Bound,
            _ => Phase::Portfolio,
        };
        self.enter(next, 1);
        self.outcome = outcome;
        self.last = None;
    }

    /// Goes behind a leaf: to the next tree, the next section or the end.
    fn leave_leaf(&mut self)
        ensures { self.new ≡ behind_leaf self.old }
    {
        if self.left != 1 {
            self.left = self.left.saturating_sub(1);
        } else if self.sections == 0 {
            self.enter(Phase::End, 1);
        } else {
            self.enter(Phase::Section, 1);
            self.sections -= 1;
        }
    }
}

/// How many pairs of different places there are below `n`.
fn pairs_below(n: u16) -> u64
    requires least { 1 ≤ n }
    requires most { n ≤ 256 }
    ensures value { result ≡ (n * (n - 1)) / 2 }
    ensures small { result ≤ 65536 }
{
    let n = u64::from(n);
    n * (n - 1) / 2
}

/// How many pairs of places there are below `n`.
fn pairs_up_to(n: u16) -> u64
    requires { n ≤ 256 }
    ensures value { result ≡ (n * (n + 1)) / 2 }
    ensures small { result ≤ 65536 }
{
    let n = u64::from(n);
    n * (n + 1) / 2
}
