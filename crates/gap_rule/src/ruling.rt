//! The ruling: what the words and the files ask for, or why it is refused.
ghost use Rattle.std.specs.Prelude.{◌≡◌, ◌≤◌, ℕ, List, [], ◌∷◌, IfOk, Ok, Err};
ghost use Rattle.gap_job.specs.Ranges.{IsJob};
ghost use Rattle.gap_words.specs.Forms.{AreInRange, IsDemoInRange, IsFormInRange, form_value, quick, solve, check, verify, upgrade};
ghost use Rattle.gap_rule.specs.Tasks.{quick_job, quarters, demo_job, work_of};
ghost use Rattle.gap_rule.specs.Certificates.{WasAccepted};
ghost use Rattle.gap_rule.specs.Rules.{RulesJob, RulesClaim, RulesPair, RulesClaimed, RulesDemo, job_ruling, behind, quick_ruling};
ghost use Rattle.gap_rule.specs.Steps.{TellsRuling, IsRuled, IsRuledForm, FitsForm, HaltCause, MayHalt, IsOfQuick, IsOfJob, IsOfClaim, IsOfPair, IsOfFile};
ghost use Rattle.gap_rule.specs.Steps.{IsReady, IsQuick, IsSolve, IsDemo, IsVerify};

use crate::cert::read_certificate;
use crate::job::read_job_for;
use crate::port::read_market;
use crate::stop::Halt;
use crate::task::{Task, Work};
use gap_base::{Job, Lots, Market, OutOfMemory, Weight, Weights};
use gap_check::Verdict;
use gap_files::Files;
use gap_gen::demo_market;
use gap_instance::Instance;
use gap_valid::said_anew;
use gap_verify::first_difference;
use gap_words::{DemoWords, Form, QuickWords, Refusal};
use std::alloc::Global;

/// The job that the words of `quick` name for a market of `n` assets.
fn job_of(asked: QuickWords, n: u16) -> Job
    requires least { 2 ≤ n }
    requires most { n ≤ 256 }
    ensures value { result ≡ quick_job n asked }
{
    let mut weights = Weights::new();
    weights.push(asked.weight);
    Job {
        lots: asked.lots,
        held: asked.held,
        held_most: asked.held_most,
        least: Lots::filled(n, 1),
        greatest: Lots::filled(n, asked.lots),
        present: Lots::zeros(n),
        turnover: Option::None,
        weights,
        nodes: asked.nodes,
        workers: 1,
    }
}

/// What is to be done for a market and a job.
fn work_of(alloc: Global, market: Market, job: Job) -> Result<Work, OutOfMemory>
    requires { IsJob market.assets job }
    ensures value { IfOk result (λ work. work ≡ work_of market job) }
    ensures ready { IfOk result IsReady }
{
    // what holds of every market
    let _assets = market.n();
    let rounded = market.rounded();
    let said = said_anew(alloc, &market)?;
    let inst = Instance::new(alloc, said, &job)?;
    let Job {
        weights,
        nodes,
        workers,
        ..
    } = job;
    Ok(Work {
        inst,
        rounded,
        weights,
        nodes,
        workers,
    })
}

/// The ruling of `quick` over its market.
fn rule_market(alloc: Global, market: Market, asked: QuickWords) -> Result<Task, Halt>
    requires { AreInRange asked }
    ensures tells { TellsRuling (λ r. r ≡ quick_ruling asked market) result }
    ensures halts { MayHalt IsOfQuick result }
    ensures calm { HaltCause ⊥ result }
    ensures ready { IfOk result IsQuick }
{
    if market.n() < asked.held_most {
        return Err(Halt::Refused(Refusal::HeldRange));
    }
    let job = job_of(asked, market.n());
    match work_of(alloc, market, job) {
        Ok(work) => Ok(Task::Quick(work)),
        Err(OutOfMemory) => Err(Halt::OutOfMemory),
    }
}

/// The ruling of `quick`.
fn rule_quick<F: Files>(
    alloc: Global,
    port: &str,
    asked: QuickWords,
    files: &mut F,
) -> Result<Task, Halt>
    requires { AreInRange asked }
    ensures ruled { IsRuledForm (quick port.now asked) (F.files files.old) (F.files files.new) result }
    ensures fits { FitsForm (quick port.now asked) result }
{
    let market = read_market(alloc, files, port)?;
    rule_market(alloc, market, asked)
}

/// The ruling of `solve` over its market and its job.
fn rule_pair(alloc: Global, market: Market, job: Job) -> Result<Task, Halt>
    requires { IsJob market.assets job }
    ensures tells { TellsRuling (λ r. r ≡ Ok (Task.Solve (work_of market job))) result }
    ensures halts { MayHalt IsOfJob result }
    ensures calm { HaltCause ⊥ result }
    ensures ready { IfOk result IsSolve }
{
    match work_of(alloc, market, job) {
        Ok(work) => Ok(Task::Solve(work)),
        Err(OutOfMemory) => Err(Halt::OutOfMemory),
    }
}

/// The ruling of `solve` over its market: its job file is read.
fn rule_job<F: Files>(
    alloc: Global,
    market: Market,
    name: &str,
    files: &mut F,
) -> Result<Task, Halt>
    ensures ruled { IsRuled (name.now ∷ []) (λ holds. name.now ∷ []) (λ holds. RulesJob market (holds name.now))
        (F.files files.old) (F.files files.new) result }
    ensures halts { MayHalt IsOfJob result }
    ensures ready { IfOk result IsSolve }
{
    let job = read_job_for(alloc, files, name, market.n())?;
    rule_pair(alloc, market, job)
}

/// The ruling of `solve`.
fn rule_solve<F: Files>(alloc: Global, port: &str, job: &str, files: &mut F) -> Result<Task, Halt>
    ensures ruled { (cert : List ℕ)
        → IsRuledForm (solve port.now job.now cert) (F.files files.old) (F.files files.new) result }
    ensures fits { (cert : List ℕ) → FitsForm (solve port.now job.now cert) result }
{
    let market = read_market(alloc, files, port)?;
    rule_job(alloc, market, job, files)
}

/// The weights of `demo`.
fn quarters() -> Weights
    ensures { result ≡ quarters }
{
    let mut weights = Weights::new();
    weights.push(Weight { p: 0, q: 4 });
    weights.push(Weight { p: 1, q: 4 });
    weights.push(Weight { p: 2, q: 4 });
    weights.push(Weight { p: 3, q: 4 });
    weights.push(Weight { p: 4, q: 4 });
    weights
}

/// The job that the words of `demo` name.
fn demo_job(asked: DemoWords) -> Job
    requires { IsDemoInRange asked }
    ensures { result ≡ demo_job asked }
{
    Job {
        lots: asked.lots,
        held: asked.held,
        held_most: asked.held,
        least: Lots::filled(asked.n, 1),
        greatest: Lots::filled(asked.n, asked.lots),
        present: Lots::zeros(asked.n),
        turnover: Option::None,
        weights: quarters(),
        nodes: asked.nodes,
        workers: 1,
    }
}

/// The ruling of `demo`. It reads nothing.
fn rule_demo(alloc: Global, asked: DemoWords) -> Result<Task, Halt>
    requires { IsDemoInRange asked }
    ensures tells { TellsRuling (RulesDemo asked) result }
    ensures halts { MayHalt (λ why. ⊥) result }
    ensures calm { HaltCause ⊥ result }
    ensures ready { IfOk result IsDemo }
{
    let market = demo_market(alloc, asked.number, asked.n)?;
    // what holds of every market
    let _assets = market.n();
    let work = work_of(alloc, market, demo_job(asked))?;
    Ok(Task::Demo(work))
}

/// The ruling of `check`.
fn rule_check<F: Files>(alloc: Global, cert: &str, files: &mut F) -> Result<Task, Halt>
    ensures ruled { IsRuledForm (check cert.now) (F.files files.old) (F.files files.new) result }
    ensures fits { FitsForm (check cert.now) result }
{
    match read_certificate(alloc, files, cert) {
        Ok(verdict) => Ok(Task::Check(verdict)),
        Err(halt) => Err(halt),
    }
}

/// The ruling of `upgrade`: its certificate is read a first time.
fn rule_upgrade<F: Files>(alloc: Global, cert: &str, files: &mut F) -> Result<Task, Halt>
    ensures ruled { (new : List ℕ) → IsRuledForm (upgrade cert.now new) (F.files files.old) (F.files files.new) result }
    ensures fits { (new : List ℕ) → FitsForm (upgrade cert.now new) result }
{
    match read_certificate(alloc, files, cert) {
        Ok(verdict) => Ok(Task::Upgrade(verdict)),
        Err(halt) => Err(halt),
    }
}

/// The ruling of `verify` over its market, its job and its verdict.
fn rule_claim(market: &Market, job: &Job, verdict: Verdict) -> Result<Task, Halt>
    requires job_is { IsJob market.now.assets job.now }
    requires accepted { WasAccepted verdict }
    ensures tells { TellsRuling (RulesClaim market.now job.now verdict) result }
    ensures halts { MayHalt IsOfClaim result }
    ensures calm { HaltCause ⊥ result }
    ensures does { IfOk result IsVerify }
{
    // what holds of every market
    let _assets = market.n();
    match first_difference(
        verdict.instance(),
        verdict.nodes(),
        verdict.sections(),
        market,
        job,
    ) {
        None => Ok(Task::Verify(verdict)),
        Some(difference) => Err(Halt::Refused(Refusal::Differs(difference))),
    }
}

/// The ruling of `verify` over its market and its job: its certificate is read.
fn rule_certificate<F: Files>(
    alloc: Global,
    market: &Market,
    job: &Job,
    name: &str,
    files: &mut F,
) -> Result<Task, Halt>
    requires job_is { IsJob market.now.assets job.now }
    ensures ruled { IsRuled (name.now ∷ []) (λ holds. name.now ∷ []) (λ holds. RulesPair market.now job.now (holds name.now))
        (F.files files.old) (F.files files.new) result }
    ensures halts { MayHalt IsOfPair result }
    ensures does { IfOk result IsVerify }
{
    match read_certificate(alloc, files, name) {
        Ok(verdict) => rule_claim(market, job, verdict),
        Err(halt) => Err(halt),
    }
}

/// The ruling of `verify` over its market: its job file and its certificate are read.
fn rule_claimed<F: Files>(
    alloc: Global,
    market: &Market,
    job: &str,
    cert: &str,
    files: &mut F,
) -> Result<Task, Halt>
    ensures ruled { IsRuled (job.now ∷ cert.now ∷ [])
        (λ holds. job.now ∷ behind (job_ruling market.now.assets (holds job.now)) (λ asked. cert.now ∷ []))
        (λ holds. RulesClaimed market.now (holds job.now) (holds cert.now)) (F.files files.old) (F.files files.new) result }
    ensures halts { MayHalt IsOfFile result }
    ensures does { IfOk result IsVerify }
{
    let job = read_job_for(alloc, files, job, market.n())?;
    rule_certificate(alloc, market, &job, cert, files)
}

/// The ruling of `verify`.
fn rule_verify<F: Files>(
    alloc: Global,
    port: &str,
    job: &str,
    cert: &str,
    files: &mut F,
) -> Result<Task, Halt>
    ensures ruled { IsRuledForm (verify port.now job.now cert.now) (F.files files.old) (F.files files.new) result }
    ensures fits { FitsForm (verify port.now job.now cert.now) result }
{
    let market = read_market(alloc, files, port)?;
    rule_claimed(alloc, &market, job, cert, files)
}

/// The ruling of a form: what is to be done, or the first refusal in the order of words, port file, job file, certificate
/// and difference. The files are looked at only as far as it takes.
pub fn rule<F: Files>(alloc: Global, form: Form<'_>, files: &mut F) -> Result<Task, Halt>
    requires { IsFormInRange (form_value form) }
    ensures ruled { IsRuledForm (form_value form.entry) (F.files files.old) (F.files files.new) result }
    ensures fits { FitsForm (form_value form.entry) result }
{
    match form {
        Form::Faulty => Err(Halt::Refused(Refusal::Words)),
        Form::Quick(port, asked) => rule_quick(alloc, port, asked, files),
        Form::Solve { port, job, .. } => rule_solve(alloc, port, job, files),
        Form::Check(cert) => rule_check(alloc, cert, files),
        Form::Verify { port, job, cert } => rule_verify(alloc, port, job, cert, files),
        Form::Demo(asked) => rule_demo(alloc, asked),
        Form::Upgrade { cert, .. } => rule_upgrade(alloc, cert, files),
    }
}
