//! Tests over lists of digits.
use super::*;
use pm_outside::OpenGate;
use pm_space::ToyMaker;
use std::test::Fail;

#[test]
fn ends(rt: HostRuntime) -> Result<(), Fail> {
    let maker = ToyMaker::new(2, 2, 3);
    let Outcome { works, end } = deepen_alone(rt.alloc(), &maker, 3, 6)?;
    let DeepEnd::Proof { depth, path, work } = end else {
        panic!(rt; "no proof");
    };
    assert_eq!(rt; depth, 0);
    assert_eq!(rt; path.as_slice(), [1, 1].as_slice());
    assert_eq!(rt; work, 6);
    assert!(rt; works.is_empty());
    let Outcome { works: _, end } = deepen_alone(rt.alloc(), &maker, 3, 5)?;
    let DeepEnd::BudgetOut { depth } = end else {
        panic!(rt; "within the budget");
    };
    assert_eq!(rt; depth, 0);
    let hopeless = ToyMaker::new(2, 2, 4);
    let Outcome { works, end } = deepen_alone(rt.alloc(), &hopeless, 2, 6)?;
    let DeepEnd::DepthReached = end else {
        panic!(rt; "not exhausted");
    };
    assert_eq!(rt; works.as_slice(), [6, 6, 6].as_slice());
    Ok(())
}

// Whether an end is this proof of level 0.
fn is_proof(end: DeepEnd, list: &[u32], count: u64) -> bool {
    match end {
        DeepEnd::Proof { depth, path, work } => {
            depth == 0 && path.as_slice() == list && work == count
        }
        _ => false,
    }
}

#[test]
fn proved_by_workers(rt: HostRuntime) -> Result<(), Fail> {
    let maker = ToyMaker::new(2, 2, 3);
    let Outcome { works: _, end } = deepen(&rt, rt.alloc(), &maker, &OpenGate, 1, 3, 6)?;
    assert!(rt; is_proof(end, &[1, 1], 6));
    let Outcome { works: _, end } = deepen(&rt, rt.alloc(), &maker, &OpenGate, 4, 3, 6)?;
    assert!(rt; is_proof(end, &[1, 1], 6));
    Ok(())
}

#[test]
fn exhausted_by_workers(rt: HostRuntime) -> Result<(), Fail> {
    let maker = ToyMaker::new(2, 2, 4);
    let Outcome { works, end } = deepen(&rt, rt.alloc(), &maker, &OpenGate, 2, 2, 6)?;
    let DeepEnd::DepthReached = end else {
        panic!(rt; "not exhausted");
    };
    assert_eq!(rt; works.as_slice(), [6, 6, 6].as_slice());
    Ok(())
}
