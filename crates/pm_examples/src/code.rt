//! The code of clause files as it is listed, and of a large one.
ghost use Rattle.std.specs.Prelude.{◌≤◌, length};

use pm_cnf::{Limits, read};
use pm_compile::{Instr, compile, listing};
use std::alloc::{AllocError, Global};
use std::test::Fail;

// Whether the code of the clauses of a file is listed as this text.
fn is_listed_as(alloc: Global, file: &str, want: &str) -> Result<bool, Fail>
    requires { length file.now ≤ 1000000 }
{
    let problem = read(alloc, file.as_bytes(), &Limits::standard())?;
    let code = compile(alloc, &problem)?;
    let text = listing(alloc, &problem, &code)?;
    Ok(text.as_slice() == want.as_bytes())
}

const THREE_CLAUSES: &str = "body 0
CONST a
GOAL + p 1
RETURN
start 0
NEW
BODY 0
DONE
extend 0 0
GROUND a
NEW
BODY 0
CLOSE 0
DONE
body 1
PUSH 0
GOAL - p 1
PUSH 0
MAKE f 1
GOAL + p 1
RETURN
start 1
NEW
BODY 1
DONE
extend 1 0
FIRST 0
NEW
BODY 1
CLOSE 0
DONE
extend 1 1
MEET f 1
FIRST 0
NEW
BODY 1
CLOSE 1
DONE
body 2
CONST f(f(a))
GOAL - p 1
RETURN
start 2
NEW
BODY 2
DONE
extend 2 0
GROUND f(f(a))
NEW
BODY 2
CLOSE 0
DONE
";

#[test]
fn three_clauses(rt: HostRuntime) -> Result<(), Fail> {
    let file = "cnf(a,axiom,p(a)). cnf(b,axiom,~p(X)|p(f(X))). cnf(c,axiom,~p(f(f(a)))).";
    assert!(rt; is_listed_as(rt.alloc(), file, THREE_CLAUSES)?);
    Ok(())
}

// Arguments are met and built from first to last, and in each head the variables are new again.
const SEVERAL_ARGUMENTS: &str = "body 0
PUSH 0
PUSH 1
CONST a
PUSH 0
MAKE g 3
PUSH 1
GOAL + p 3
PUSH 1
GOAL - q 1
RETURN
start 0
NEW
BODY 0
DONE
extend 0 0
FIRST 0
MEET g 3
FIRST 1
GROUND a
AGAIN 0
AGAIN 1
NEW
BODY 0
CLOSE 0
DONE
extend 0 1
FIRST 1
NEW
BODY 0
CLOSE 1
DONE
";

#[test]
fn several_arguments(rt: HostRuntime) -> Result<(), Fail> {
    let file = "cnf(a,axiom,p(X,g(Y,a,X),Y)|~q(Y)).";
    assert!(rt; is_listed_as(rt.alloc(), file, SEVERAL_ARGUMENTS)?);
    Ok(())
}

// Adds the text so many times.
fn push_times(into: &mut String, times: usize, text: &str) -> Result<(), AllocError> {
    for _ in 0..times {
        into.push_str(text)?;
    }
    Ok(())
}

// A term nested 1,000 deep, with a variable in its midst.
#[test]
fn deep_term(rt: HostRuntime) -> Result<(), Fail> {
    let mut file = String::from_str(rt.alloc(), "cnf(a,axiom,p(")?;
    push_times(&mut file, 999, "f(")?;
    file.push_str("X")?;
    push_times(&mut file, 999, ")")?;
    file.push_str(")).")?;
    let mut want = String::from_str(rt.alloc(), "body 0\nPUSH 0\n")?;
    push_times(&mut want, 999, "MAKE f 1\n")?;
    want.push_str("GOAL + p 1\nRETURN\nstart 0\nNEW\nBODY 0\nDONE\nextend 0 0\n")?;
    push_times(&mut want, 999, "MEET f 1\n")?;
    want.push_str("FIRST 0\nNEW\nBODY 0\nCLOSE 0\nDONE\n")?;
    assert!(rt; file.len() <= 1_000_000);
    assert!(rt; is_listed_as(rt.alloc(), file.as_str(), want.as_str())?);
    Ok(())
}

// As many clauses as a problem may have, each of four literals.
#[test]
fn many_clauses(rt: HostRuntime) -> Result<(), Fail> {
    let mut file = String::new(rt.alloc());
    push_times(
        &mut file,
        65_536,
        "cnf(a,axiom,p(X,f(X,Y))|~p(a,Y)|q(g(Z),X)|~q(Y,g(a))).\n",
    )?;
    assert!(rt; file.len() <= 100_000_000);
    let problem = read(rt.alloc(), file.as_bytes(), &Limits::standard())?;
    let code = compile(rt.alloc(), &problem)?;
    assert_eq!(rt; problem.clauses(), 65_536);
    let last = [Instr::Fresh, Instr::Body { c: 65_535 }, Instr::Done];
    assert!(rt; code.start(65_535) == last.as_slice());
    Ok(())
}
