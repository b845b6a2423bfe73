//! The summary of a sample.
ghost use Rattle.std.specs.Prelude.{◌≡◌, ◌++◌, ◌∷◌, [], ◌+◌, ◌^◌, ◌≤◌, List, IfOk, OnOk, codes, decimal, is_some, option_map, sum};
ghost use Rattle.pm_logic.specs.Term.{Term};
ghost use Rattle.pm_report.specs.Text.{Line, text_of};
ghost use Rattle.pm_report.specs.Summary.{AreTermsIn, IsEndLine, IsSummary, SummaryIsDetermined, attempts, is_proof, proof_line, sample_line};

use crate::terms::count_terms;
use crate::texts::push_number;
use itoa::Buffer;
use pm_deepen::{DeepEnd, Outcome};
use pm_logic::{Tableau, tableau_depth};
use std::alloc::{AllocError, Global};

/// The summary of a search for a proof of the sample problem `n`, which has so many clauses: how it
/// ended, and with a proof its tableau's measures.
pub fn summary(
    alloc: Global,
    n: u32,
    clauses: u32,
    outcome: &Outcome,
    tableau: Option<&Tableau>,
) -> Result<Vec<u8>, AllocError>
    requires { is_proof outcome.now.end ≡ is_some tableau }
    ensures { IfOk result (λ text. IsSummary n clauses outcome.now
        (option_map (λ t. t.now) tableau.entry) text.items) }
{
    let mut text = Vec::from_slice(alloc, b"sample ")?;
    push_number(&mut text, u64::from(n))?;
    text.extend_from_slice(b" clauses ")?;
    push_number(&mut text, u64::from(clauses))?;
    text.push(b'\n')?;
    push_end(alloc, &mut text, outcome, tableau)?;
    Ok(text)
}

/// A summary is determined by the number, the clauses, the outcome and the tableau that it sums up.
pub fn summary_is_determined()
    ensures { SummaryIsDetermined }
{}

// Appends a label and a number in decimal digits.
fn push_field(text: &mut Vec<u8>, label: &str, number: u128) -> Result<(), AllocError>
    ensures { OnOk result (text.new.items ≡ text.old.items ++ (label.now ++ decimal number)) }
{
    text.extend_from_slice(label.as_bytes())?;
    let mut buffer = Buffer::new();
    text.extend_from_slice(buffer.format(number).as_bytes())
}

// The sum of numbers of attempts.
fn total(works: &[u64]) -> u128
    ensures sum { result ≡ sum works.now }
    ensures small { result + 2 ^ 64 ≤ 2 ^ 128 }
{
    let mut total: u128 = 0;
    for work in works {
        total += u128::from(*work);
    }
    total
}

// Appends the line of a proof.
fn push_proof(
    alloc: Global,
    text: &mut Vec<u8>,
    tableau: &Tableau,
    attempts: u128,
) -> Result<(), AllocError>
    ensures { OnOk result ((terms : List Term) × AreTermsIn tableau.now.tableau terms
        × (text.new.items ≡ text.old.items
        ++ text_of (proof_line tableau.now.tableau terms attempts ∷ []))) }
{
    let terms = count_terms(alloc, tableau)?;
    push_field(text, "proof depth ", u128::from(tableau_depth(tableau)))?;
    push_field(text, " nodes ", tableau.nodes().len() as u128)?;
    push_field(text, " terms ", terms as u128)?;
    push_field(text, " attempts ", attempts)?;
    text.push(b'\n')?;
    Ok(())
}

// Appends the line of a search in which no level up to the depth option has a proof.
fn push_depth_reached(text: &mut Vec<u8>, attempts: u128) -> Result<(), AllocError>
    ensures { OnOk result (text.new.items ≡ text.old.items
        ++ text_of ((codes "depth reached attempts " ++ decimal attempts) ∷ [])) }
{
    push_field(text, "depth reached attempts ", attempts)?;
    text.push(b'\n')?;
    Ok(())
}

// Appends the line of a search whose level exceeds the budget.
fn push_budget_out(text: &mut Vec<u8>, level: u32) -> Result<(), AllocError>
    ensures { OnOk result (text.new.items ≡ text.old.items
        ++ text_of ((codes "budget at level " ++ decimal level) ∷ [])) }
{
    push_field(text, "budget at level ", u128::from(level))?;
    text.push(b'\n')?;
    Ok(())
}

// Appends the line for how the search ended.
fn push_end(
    alloc: Global,
    text: &mut Vec<u8>,
    outcome: &Outcome,
    tableau: Option<&Tableau>,
) -> Result<(), AllocError>
    requires { is_proof outcome.now.end ≡ is_some tableau }
    ensures { OnOk result ((line : Line) × IsEndLine outcome.now.end (attempts outcome.now)
        (option_map (λ t. t.now) tableau.entry) line
        × (text.new.items ≡ text.old.items ++ text_of (line ∷ []))) }
{
    let attempts = total(&outcome.works);
    match &outcome.end {
        DeepEnd::Proof { work, .. } => {
            let Some(tableau) = tableau else {
                unreachable!()
            };
            push_proof(alloc, text, tableau, attempts + u128::from(*work))
        }
        DeepEnd::DepthReached => push_depth_reached(text, attempts),
        DeepEnd::BudgetOut { depth } => push_budget_out(text, *depth),
    }
}
