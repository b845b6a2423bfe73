//! The search for a proof, and the answers for its ends.
ghost use Rattle.std.specs.Prelude.{◌≡◌, ◌≤◌, IfOk};
ghost use Rattle.pm_calculus.specs.Choices.{IsComplete, IsGeneral};
ghost use Rattle.pm_deepen.specs.Answer.{IsAnswer};
ghost use Rattle.pm_deepen.specs.Levels.{key_of};
ghost use Rattle.pm_logic.specs.Problem.{IsValid};
ghost use Rattle.pm_report.specs.Sample.{sample_problem};
ghost use Rattle.pm_tab.specs.Searched.{level_of};
ghost use Rattle.pm_top.specs.Output.{EndsSample, status_of};
ghost use Rattle.pm_top.specs.Inside.Found.{IsFoundIn, searched_of};
ghost use Rattle.pm_top.specs.Inside.Says.{IsSearchAnswer};
ghost use Rattle.pm_top.specs.Inside.Stops.{AreWithinLimits};

use crate::answer::Answer;
use crate::status::Status;
use pm_args::Options;
use pm_cert::write_cert;
use pm_deepen::{DeepEnd, Outcome, deepen, deepen_alone};
use pm_logic::{Problem, Tableau};
use pm_outside::Gate;
use pm_report::{gave_up, resource_out, summary};
use pm_space::{Maker, Space};
use pm_tab::TabMaker;
use std::alloc::{AllocError, Global};
use std::sync::Wait;
use std::thread::Threads;

/// How a search ended, with the tableau of a proof.
#[derive(Drop)]
pub(crate) struct Found {
    outcome: Outcome,
    tableau: Option<Tableau>,
}

// The general tableau of a complete list at a level.
fn general_tableau(
    alloc: Global,
    maker: &TabMaker<'_>,
    level: u32,
    path: &[u32],
) -> Result<Tableau, AllocError>
    requires level { level ≤ 250 }
    requires complete { IsComplete (level_of maker.now level) path.now }
    ensures { IfOk result
        (λ drawn. IsGeneral (level_of maker.now level) path.now drawn.tableau) }
{
    let mut space = maker.make(alloc, level)?;
    'choices: for &choice in path {
        space.step(choice)?;
    }
    space.tableau(alloc)
}

// How the search of a problem ended, with the tableau of a proof.
fn with_tableau(
    alloc: Global,
    problem: &Problem,
    options: &Options,
    maker: &TabMaker<'_>,
    outcome: Outcome,
) -> Result<Found, AllocError>
    requires depth { options.now.depth ≤ 250 }
    requires searched { maker.now ≡ searched_of problem.now options.now }
    requires answer { IsAnswer (λ level. key_of (level_of maker.now level))
        options.now.depth options.now.budget outcome.works.items outcome.end }
    ensures { IfOk result (IsFoundIn problem.now options.now) }
{
    let tableau = match &outcome.end {
        DeepEnd::Proof { depth, path, .. } => {
            let tableau = general_tableau(alloc, maker, *depth, path.as_slice())?;
            Some(tableau)
        }
        _ => None,
    };
    Ok(Found { outcome, tableau })
}

/// Searches the tableaux of a problem, level by level, with one worker.
pub(crate) fn search_alone(
    alloc: Global,
    problem: &Problem,
    options: &Options,
) -> Result<Found, AllocError>
    requires { AreWithinLimits options.now }
    ensures { IfOk result (IsFoundIn problem.now options.now) }
{
    let maker = TabMaker::new(alloc, problem, options.class, options.start, options.bound)?;
    let outcome = deepen_alone(alloc, &&maker, options.depth, options.budget)?;
    with_tableau(alloc, problem, options, &maker, outcome)
}

/// Searches with as many workers as the options say, which pass a gate.
pub(crate) fn search_shared<G: Gate + Sync, R: Threads + Wait + Sync>(
    rt: &R,
    alloc: Global,
    problem: &Problem,
    options: &Options,
    gate: &G,
) -> Result<Found, AllocError>
    requires { AreWithinLimits options.now }
    ensures { IfOk result (IsFoundIn problem.now options.now) }
{
    if options.workers == 1 {
        return search_alone(alloc, problem, options);
    }
    let maker = TabMaker::new(alloc, problem, options.class, options.start, options.bound)?;
    let Options {
        workers,
        depth,
        budget,
        ..
    } = *options;
    let outcome = deepen(rt, alloc, &&maker, gate, workers, depth, budget)?;
    with_tableau(alloc, problem, options, &maker, outcome)
}

// The status of a search that ended so.
fn status_of(end: &DeepEnd) -> Status
    ensures { result ≡ status_of end.now }
{
    match end {
        DeepEnd::Proof { .. } => Status::Done,
        DeepEnd::DepthReached => Status::DepthReached,
        DeepEnd::BudgetOut { .. } => Status::Budget,
    }
}

/// The answer for a search of a problem: a proof's text is its certificate.
pub(crate) fn answer_search(
    alloc: Global,
    problem: &Problem,
    options: &Options,
    found: &Found,
) -> Result<Answer, AllocError>
    requires limits { AreWithinLimits options.now }
    requires valid { IsValid problem.now }
    requires found { IsFoundIn problem.now options.now found.now }
    ensures { IfOk result (IsSearchAnswer problem.now options.now) }
{
    let works = &found.outcome.works;
    match &found.outcome.end {
        DeepEnd::DepthReached => Ok(Answer {
            status: Status::DepthReached,
            text: gave_up(alloc, works)?,
        }),
        DeepEnd::BudgetOut { .. } => Ok(Answer {
            status: Status::Budget,
            text: resource_out(alloc, works)?,
        }),
        DeepEnd::Proof { work, .. } => {
            let Some(tableau) = &found.tableau else {
                unreachable!()
            };
            Ok(Answer {
                status: Status::Done,
                text: write_cert(
                    alloc,
                    problem,
                    tableau,
                    options.class,
                    options.start,
                    options.bound,
                    works,
                    *work,
                )?,
            })
        }
    }
}

/// The answer for a search of the sample problem of this number: its summary.
pub(crate) fn answer_sample(
    alloc: Global,
    n: u32,
    problem: &Problem,
    options: &Options,
    found: &Found,
) -> Result<Answer, AllocError>
    requires sample { problem.now ≡ sample_problem n }
    requires found { IsFoundIn problem.now options.now found.now }
    ensures { IfOk result (λ answer. EndsSample n options.now answer.status answer.text.items) }
{
    let tableau = found.tableau.as_ref();
    Ok(Answer {
        status: status_of(&found.outcome.end),
        text: summary(alloc, n, problem.clauses(), &found.outcome, tableau)?,
    })
}
