//! The judge of a certificate's items.

ghost use Rattle.std.specs.Prelude.{◌≡◌, ◌≤◌, OnOk, IfErr, Some};
ghost use Rattle.gap_cert.specs.declared.field.Field.TheVariants as field;
ghost use Rattle.std.specs.Option.{ForSome};
ghost use Rattle.gap_base.specs.declared.witness.Witness.{Witness};
ghost use Rattle.gap_valid.specs.Heads.{instance_in, IsHead};
ghost use Rattle.gap_valid.specs.CertTrees.{IsWitness};
ghost use Rattle.gap_judge.specs.Progress.{fresh_progress, progress_behind};
ghost use Rattle.gap_judge.specs.Faults.{IsItemRight};
ghost use Rattle.gap_judge.specs.Kept.{IsKept};
ghost use Rattle.gap_judge.specs.Ready.{IsBlank, IsBegun, IsDue};
ghost use Rattle.gap_judge.specs.Stops.{IsStop, IsBased, IsBasisOf, IsBehindHead, IsNode};

use crate::basis::Basis;
use crate::built::basis_of;
use crate::course::Course;
use crate::fresh::fresh_course;
use crate::head::{Head, Numbers};
use crate::items::{begin, take_bound, take_objective, take_overall, take_portfolio, take_split};
use crate::kept::Kept;
use crate::leaf::{take_count, take_tangent, take_void};
use crate::line::Line;
use crate::stop::CertStop;
use crate::verdict::Verdict;
use gap_base::{Weight, Witness};
use gap_cert::Field;
use std::alloc::Global;
use std::marker::Model;

/// Judges the items of a certificate in their order. It keeps the head, what is told of the sections, one section's head,
/// the products of one witness, and the place in the section's tree: nothing that grows with the nodes but one cell a
/// level. Contracts see a `Progress`.
#[derive(Drop)]
pub struct Judge {
    alloc: Global,
    head: Head,
    basis: Option<Basis>,
    kept: Option<Kept>,
    course: Course,
}

impl Model for Judge {
    ghost use Rattle.gap_judge.specs.Progress.{Progress};
    ghost use Rattle.gap_judge.specs.Courses.{progress_at};
    ghost use Rattle.gap_judge.specs.Stops.{IsBased};
    ghost use Rattle.gap_judge.specs.Kept.{IsKept};

    ghost Value = { Progress };

    ghost view = { λ a. progress_at a.head a.course };

    ghost invariant = { λ a. IsBased a.head a.basis × IsKept a.basis a.kept };
}

/// What a whole head says.
fn based<'a>(head: &Head, basis: &'a Option<Basis>) -> &'a Basis
    requires based { IsBased head.now basis.now }
    requires whole { IsHead head.now }
    ensures basis { IsBasisOf head.now result.now.instance result.now.shift result.now.root }
    ensures there { basis.now ≡ Some result.now }
{
    let _n = head.n();
    basis.as_ref().unwrap()
}

impl Judge {
    /// A judge before the first item. It takes no memory.
    pub fn new(alloc: Global) -> Judge
        ensures { result ≡ fresh_progress }
    {
        Judge {
            alloc,
            head: Head::new(alloc),
            basis: None,
            kept: None,
            course: fresh_course(alloc),
        }
    }

    /// Did the end mark come?
    pub fn is_ended(&self) -> bool
        ensures { result ≡ self.now.ended }
    {
        self.course.ended
    }

    /// What is told where all items came. It takes no memory.
    pub fn into_verdict(self) -> Verdict
        requires { IsHead self.head }
        ensures { result ≡ record { instance = instance_in self.head; nodes = self.head.nodes; sections = self.told } }
    {
        let Judge {
            head,
            basis,
            course,
            ..
        } = self;
        Verdict::of(basis.unwrap().instance, head.nodes(), course.told)
    }

    /// Takes the numbers of the head.
    fn take_numbers(&mut self, with: Numbers)
        requires blank { IsBlank self.old.head }
        requires few { 2 ≤ with.n }
        ensures { self.new ≡ record self.old {
          head = record self.old.head {
            n = with.n;
            lots = with.lots;
            held = with.held;
            held_most = with.held_most;
            turnover = with.turnover;
            nodes = with.nodes;
          };
        } }
    {
        self.head.set_numbers(with);
    }

    #[tactic(auto, unfolding(crate::specs::Progress::progress_behind, crate::specs::Faults::IsItemRight, crate::specs::Faults::IsItemFault, crate::specs::Ready::IsDue))]
    /// Takes an entry of D; behind the last one the shift is judged. After an error the head is given up.
    fn take_diagonal(&mut self, d: i128, place: u64, behind: u64) -> Result<(), CertStop>
        requires due { IsDue self.old (field.ShiftEntry d) }
        ensures ok { OnOk result (self.new ≡ progress_behind self.old (field.ShiftEntry d)) }
        ensures right { OnOk result (IsItemRight self.old (field.ShiftEntry d)) }
        ensures fault { IfErr result (IsStop self.old (field.ShiftEntry d) place behind) }
    {
        let _place = place;
        self.head.push_diagonal(d)?;
        if !self.head.is_whole() {
            return Ok(());
        }
        match basis_of(self.alloc, &self.head, behind) {
            Ok(basis) => {
                self.basis = Some(basis);
                self.kept = None;
                Ok(())
            }
            Err(stop) => {
                self.head = Head::new(self.alloc);
                Err(stop)
            }
        }
    }

    #[tactic(auto, using(crate::proofs::JudgeLaws::kept_over, crate::proofs::JudgeLaws::kept_by), unfolding(crate::specs::Progress::progress_behind))]
    /// Takes the witness for the whole root, where one is given.
    fn take_witness(&mut self, w: &Option<Witness>)
        requires begun { IsBegun self.old }
        requires ranges { ForSome w.now (IsWitness (instance_in self.old.head)) }
        ensures { self.new ≡ progress_behind self.old (field.Overall w.now) }
    {
        let basis = based(&self.head, &self.basis);
        take_overall(&self.head, basis, &mut self.kept, &mut self.course, w);
    }

    #[tactic(auto, unfolding(crate::specs::Progress::progress_behind, crate::specs::Faults::IsItemRight, crate::specs::Faults::IsItemFault, crate::specs::Ready::IsDue))]
    /// Judges an item behind the head.
    fn take_behind_head(&mut self, item: &Field, place: u64, behind: u64) -> Result<(), CertStop>
        requires due { IsDue self.old item.now }
        requires section { IsBehindHead item.now }
        ensures ok { OnOk result (self.new ≡ progress_behind self.old item.now) }
        ensures right { OnOk result (IsItemRight self.old item.now) }
        ensures fault { IfErr result (IsStop self.old item.now place behind) }
    {
        match item {
            Field::SectionStart { p, q, outcome } => {
                let weight = Weight { p: *p, q: *q };
                let basis = based(&self.head, &self.basis);
                begin(
                    self.alloc,
                    &self.head,
                    basis,
                    &mut self.course,
                    weight,
                    *outcome,
                );
                Ok(())
            }
            Field::Portfolio(x) => {
                let basis = based(&self.head, &self.basis);
                take_portfolio(&self.head, basis, &mut self.course, x, place, behind)
            }
            Field::Objective(value) => {
                let basis = based(&self.head, &self.basis);
                take_objective(&self.head, basis, &mut self.course, *value, place, behind)
            }
            Field::Bound(value) => take_bound(&self.head, &mut self.course, *value, place, behind),
            Field::Overall(w) => {
                self.take_witness(w);
                Ok(())
            }
            Field::End => {
                self.course.ended = true;
                Ok(())
            }
            _ => self.take_node(item, place, behind),
        }
    }

    #[tactic(auto, using(crate::proofs::JudgeLaws::kept_over, crate::proofs::JudgeLaws::kept_by), unfolding(crate::specs::Progress::progress_behind, crate::specs::Faults::IsItemRight, crate::specs::Faults::IsItemFault, crate::specs::Ready::IsDue))]
    /// Judges a node of a tree; the number of sections is taken by the grammar.
    fn take_node(&mut self, item: &Field, place: u64, behind: u64) -> Result<(), CertStop>
        requires due { IsDue self.old item.now }
        requires section { IsNode item.now }
        ensures ok { OnOk result (self.new ≡ progress_behind self.old item.now) }
        ensures right { OnOk result (IsItemRight self.old item.now) }
        ensures fault { IfErr result (IsStop self.old item.now place behind) }
    {
        let course = &mut self.course;
        match item {
            Field::CountLeaf => {
                let basis = based(&self.head, &self.basis);
                take_count(&self.head, basis, course, place, behind)
            }
            Field::VoidLeaf { alpha, tau } => {
                let basis = based(&self.head, &self.basis);
                take_void(&self.head, basis, course, *alpha, *tau, place, behind)
            }
            Field::TangentLeaf(w) => {
                let basis = based(&self.head, &self.basis);
                take_tangent(&self.head, basis, &mut self.kept, course, w, place, behind)
            }
            Field::Split(split) => take_split(&self.head, course, *split, place, behind),
            _ => Ok(()),
        }
    }

    #[tactic(auto, unfolding(crate::specs::Progress::progress_behind, crate::specs::Faults::IsItemRight, crate::specs::Faults::IsItemFault, crate::specs::Ready::IsDue))]
    /// Judges the next item, whose first byte has the number `place`, where the bytes behind it begin with `behind`. A leaf
    /// costs one theta, the last entry of D O(N * N * N), a portfolio's objective O(N * N), and the others O(N) at most.
    ///
    /// # Errors
    /// `Fault` where the item is at fault, `OutOfMemory` where memory was refused; the judge is of no use after either.
    pub fn take(&mut self, item: &Field, place: u64, behind: u64) -> Result<(), CertStop>
        requires { IsDue self.old item.now }
        ensures ok { OnOk result (self.new ≡ progress_behind self.old item.now) }
        ensures right { OnOk result (IsItemRight self.old item.now) }
        ensures fault { IfErr result (IsStop self.old item.now place behind) }
    {
        match item {
            Field::Head {
                n,
                lots,
                held,
                held_most,
                turnover,
                nodes,
            } => {
                self.take_numbers(Numbers {
                    n: *n,
                    lots: *lots,
                    held: *held,
                    held_most: *held_most,
                    turnover: *turnover,
                    nodes: *nodes,
                });
                Ok(())
            }
            Field::Asset {
                mean,
                dev,
                least,
                greatest,
                present,
            } => {
                self.head.push_asset(Line {
                    mean: *mean,
                    dev: *dev,
                    least: *least,
                    greatest: *greatest,
                    present: *present,
                })?;
                Ok(())
            }
            Field::Correlation { rho } => {
                self.head.push_correlation(*rho)?;
                Ok(())
            }
            Field::FactorEntry { r } => {
                self.head.push_factor(*r)?;
                Ok(())
            }
            Field::ShiftEntry { d } => self.take_diagonal(*d, place, behind),
            _ => self.take_behind_head(item, place, behind),
        }
    }
}
