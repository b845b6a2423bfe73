//! Searches: their levels, and the proofs that they write.
use super::{CHAIN, FAMILY, FAMILY_PROOF, LATE_REPEAT, LATE_REPEAT_PROOF, UNIT, level_lines, run};
use crate::Status;
use std::alloc::{AllocError, Global};
use std::process::Abort;
use std::test::Fail;

const EMPTY: &str = "cnf(e,axiom,$false).";

const SQUARE: &str =
    "cnf(1,axiom,p | q). cnf(2,axiom,p | ~q). cnf(3,axiom,~p | q). cnf(4,axiom,~p | ~q).";

const TAUTOLOGY: &str = "cnf(t,axiom,p(X) | ~p(X)). cnf(a,axiom,p(a)). cnf(b,axiom,~p(a)).";

const PAIRS: &str = "cnf(a,axiom,p(X) | p(Y)). cnf(b,axiom,~p(U) | ~p(V)).";

// As LATE_REPEAT, with X left free: its branch has ~p(X) and ~p(a).
const NO_REPEAT: &str = "cnf(0,axiom,p(Y) | ~p(Z)). cnf(1,axiom,p(a)).
cnf(2,axiom,~p(X) | ~t). cnf(3,axiom,t | ~u). cnf(4,axiom,u).";

const CONJUNCTION: &str = "cnf(a,axiom,p). cnf(b,axiom,q). cnf(c,negated_conjecture,~p | ~q).";

// A proof that each of the jobs is to write: the attempts of the exhausted levels and of the last
// one, the certificate from its header on, and what its check says.
#[derive(Clone, Copy)]
struct Proof<'a> {
    jobs: &'a [&'a str],
    clauses: &'a str,
    exhausted: &'a [u64],
    attempts: u64,
    document: &'a str,
    accepted: &'a str,
}

// The whole text of a proof.
fn proof_text(alloc: Global, proof: &Proof<'_>) -> Result<String, AllocError> {
    let mut text = level_lines(alloc, "Unsatisfiable", proof.exhausted)?;
    let level = proof.exhausted.len();
    let attempts = proof.attempts;
    let line = format!(in alloc; "level {level} proof attempts {attempts}\n")?;
    text.push_str(line.as_str())?;
    text.push_str(proof.document)?;
    Ok(text)
}

// Each job writes the proof, and the check of what it wrote accepts it.
fn assert_proved(rt: &impl Abort, alloc: Global, proof: &Proof<'_>) -> Result<(), Fail> {
    let want = proof_text(alloc, proof)?;
    for &job in proof.jobs {
        let (status, text) = run(alloc, job, proof.clauses, "")?;
        assert_eq!(rt; text.as_str(), want.as_str(), "at {job:?}");
        assert_eq!(rt; status, Status::Done, "at {job:?}");
        let (status, verdict) = run(alloc, "check e.p e.cert", proof.clauses, text.as_str())?;
        assert_eq!(rt;
            verdict.as_str(),
            proof.accepted,
            "at the check after {job:?}"
        );
        assert_eq!(rt; status, Status::Done, "at the check after {job:?}");
    }
    Ok(())
}

// Proofs without terms: the empty clause, quoted words, dropped clauses, and reductions. Where two
// clauses give a proof, the first does.
#[test]
fn proofs_without_terms(rt: HostRuntime) -> Result<(), Fail> {
    for proof in [
        Proof {
            jobs: &["prove e.p", "prove --workers 64 e.p"],
            clauses: UNIT,
            exhausted: &[1, 1],
            attempts: 2,
            document: "parmel 1 class plain start negative depth 2 terms 0 nodes 2
root 1
1 - p extend 0
2 + p close 1
end
",
            accepted: "certificate accepted depth 2\nchoices 0 0\n",
        },
        Proof {
            jobs: &["prove --workers 2 e.p"],
            clauses: "cnf(a,axiom,p). cnf(b,axiom,p). cnf(c,axiom,~p).",
            exhausted: &[1, 1],
            attempts: 2,
            document: "parmel 1 class plain start negative depth 2 terms 0 nodes 2
root 2
1 - p extend 0
2 + p close 1
end
",
            accepted: "certificate accepted depth 2\nchoices 0 0\n",
        },
        Proof {
            jobs: &["prove e.p"],
            clauses: "cnf(a,axiom,p). cnf(t,axiom,q(a) | $true). cnf(b,axiom,~p).",
            exhausted: &[1, 1],
            attempts: 2,
            document: "parmel 1 class plain start negative depth 2 terms 0 nodes 2
root 1
1 - p extend 0
2 + p close 1
end
",
            accepted: "certificate accepted depth 2\nchoices 0 0\n",
        },
        Proof {
            jobs: &["prove e.p"],
            clauses: "cnf(a,axiom,'It\\'s'). cnf(b,axiom,~'It\\'s').",
            exhausted: &[1, 1],
            attempts: 2,
            document: "parmel 1 class plain start negative depth 2 terms 0 nodes 2
root 1
1 - 'It\\'s' extend 0
2 + 'It\\'s' close 1
end
",
            accepted: "certificate accepted depth 2\nchoices 0 0\n",
        },
        Proof {
            jobs: &["prove e.p", "prove e.p --depth 0"],
            clauses: EMPTY,
            exhausted: &[],
            attempts: 1,
            document: "parmel 1 class plain start negative depth 0 terms 0 nodes 0
root 0
end
",
            accepted: "certificate accepted depth 0\nchoices 0\n",
        },
        Proof {
            jobs: &["prove e.p", "prove e.p --bound=depth"],
            clauses: CONJUNCTION,
            exhausted: &[1, 1],
            attempts: 3,
            document: "parmel 1 class plain start negative depth 2 terms 0 nodes 4
root 2
1 - p extend 0
2 + p close 1
1 - q extend 1
2 + q close 1
end
",
            accepted: "certificate accepted depth 2\nchoices 0 0 0\n",
        },
    ] {
        assert_proved(&rt, rt.alloc(), &proof)?;
    }
    Ok(())
}

// Proofs whose leaves are closed by reductions too, in both classes.
#[test]
fn proofs_with_reductions(rt: HostRuntime) -> Result<(), Fail> {
    for proof in [
        Proof {
            jobs: &["prove e.p", "prove e.p --depth 3"],
            clauses: SQUARE,
            exhausted: &[1, 1, 5],
            attempts: 9,
            document: "parmel 1 class plain start negative depth 3 terms 0 nodes 10
root 3
1 - p extend 0
2 + p close 1
2 + q extend 1
3 + p close 1
3 - q close 2
1 - q extend 0
2 + p extend 2
3 - p close 2
3 + q close 1
2 + q close 1
end
",
            accepted: "certificate accepted depth 3\nchoices 0 0 1 0 0 1 0\n",
        },
        Proof {
            jobs: &["prove --class regular e.p"],
            clauses: SQUARE,
            exhausted: &[1, 1, 5],
            attempts: 9,
            document: "parmel 1 class regular start negative depth 3 terms 0 nodes 10
root 3
1 - p extend 0
2 + p close 1
2 + q extend 1
3 + p close 1
3 - q close 2
1 - q extend 0
2 + p extend 2
3 - p close 2
3 + q close 1
2 + q close 1
end
",
            accepted: "certificate accepted depth 3\nchoices 0 0 1 0 0 1 0\n",
        },
        Proof {
            jobs: &["prove e.p"],
            clauses: PAIRS,
            exhausted: &[1, 1],
            attempts: 5,
            document: "parmel 1 class plain start negative depth 2 terms 2 nodes 6
?
?
root 1
1 - p 0 extend 0
2 + p 0 close 1
2 + p 0 close 1
1 - p 1 extend 0
2 + p 1 close 1
2 + p 1 close 1
end
",
            accepted: "certificate accepted depth 2\nchoices 0 0 0 0 0\n",
        },
        Proof {
            jobs: &["prove --class=regular e.p"],
            clauses: PAIRS,
            exhausted: &[1, 1],
            attempts: 5,
            document: "parmel 1 class regular start negative depth 2 terms 2 nodes 6
?
?
root 1
1 - p 0 extend 0
2 + p 0 close 1
2 + p 0 close 1
1 - p 1 extend 0
2 + p 1 close 1
2 + p 1 close 1
end
",
            accepted: "certificate accepted depth 2\nchoices 0 0 0 0 0\n",
        },
    ] {
        assert_proved(&rt, rt.alloc(), &proof)?;
    }
    Ok(())
}

// Proofs with terms, each of which has one line. A budget of the last level's attempts is enough.
#[test]
fn proofs_with_terms(rt: HostRuntime) -> Result<(), Fail> {
    for proof in [
        Proof {
            jobs: &[
                "prove e.p",
                "prove e.p --budget 9",
                "prove --depth=4 --workers 1 e.p",
            ],
            clauses: CHAIN,
            exhausted: &[1, 1, 4, 8],
            attempts: 9,
            document: "parmel 1 class plain start negative depth 4 terms 3 nodes 6
a
f 0
f 1
root 2
1 - p 2 extend 1
2 - p 1 extend 1
3 - p 0 extend 0
4 + p 0 close 3
3 + p 1 close 2
2 + p 2 close 1
end
",
            accepted: "certificate accepted depth 4\nchoices 0 1 2 2\n",
        },
        Proof {
            jobs: &["prove --start goal e.p"],
            clauses: CHAIN,
            exhausted: &[1, 1, 4, 8],
            attempts: 9,
            document: "parmel 1 class plain start goal depth 4 terms 3 nodes 6
a
f 0
f 1
root 2
1 - p 2 extend 1
2 - p 1 extend 1
3 - p 0 extend 0
4 + p 0 close 3
3 + p 1 close 2
2 + p 2 close 1
end
",
            accepted: "certificate accepted depth 4\nchoices 0 1 2 2\n",
        },
        Proof {
            jobs: &["prove e.p"],
            clauses: FAMILY,
            exhausted: &[2, 2, 10, 13],
            attempts: 20,
            document: FAMILY_PROOF,
            accepted: "certificate accepted depth 4\nchoices 1 0 1 2 3 1\n",
        },
    ] {
        assert_proved(&rt, rt.alloc(), &proof)?;
    }
    Ok(())
}

// In the class `regular` no branch has a literal twice, which changes the attempts, and here once
// the proof.
#[test]
fn proofs_in_both_classes(rt: HostRuntime) -> Result<(), Fail> {
    for proof in [
        Proof {
            jobs: &["prove e.p"],
            clauses: TAUTOLOGY,
            exhausted: &[1, 1],
            attempts: 4,
            document: "parmel 1 class plain start negative depth 2 terms 1 nodes 2
a
root 2
1 - p 0 extend 1
2 + p 0 close 1
end
",
            accepted: "certificate accepted depth 2\nchoices 0 1\n",
        },
        Proof {
            jobs: &["prove e.p --class regular"],
            clauses: TAUTOLOGY,
            exhausted: &[1, 1],
            attempts: 3,
            document: "parmel 1 class regular start negative depth 2 terms 1 nodes 2
a
root 2
1 - p 0 extend 1
2 + p 0 close 1
end
",
            accepted: "certificate accepted depth 2\nchoices 0 1\n",
        },
        Proof {
            jobs: &["prove e.p"],
            clauses: LATE_REPEAT,
            exhausted: &[1, 1, 6],
            attempts: 10,
            document: "parmel 1 class plain start negative depth 3 terms 1 nodes 8
a
root 2
1 - p 0 extend 0
2 + p 0 close 1
2 - p 0 extend 1
3 + p 0 close 1
1 - t 0 extend 3
2 + t 0 close 1
2 - u extend 4
3 + u close 2
end
",
            accepted: "certificate accepted depth 3\nchoices 0 0 2 0 1\n",
        },
        Proof {
            jobs: &["prove e.p --class regular"],
            clauses: LATE_REPEAT,
            exhausted: &[1, 1, 6],
            attempts: 12,
            document: LATE_REPEAT_PROOF,
            accepted: "certificate accepted depth 3\nchoices 0 1 0 1\n",
        },
        Proof {
            jobs: &["prove --class regular e.p"],
            clauses: NO_REPEAT,
            exhausted: &[1, 1, 6],
            attempts: 10,
            document: "parmel 1 class regular start negative depth 3 terms 2 nodes 8
?
a
root 2
1 - p 0 extend 0
2 + p 0 close 1
2 - p 1 extend 1
3 + p 1 close 2
1 - t extend 3
2 + t close 1
2 - u extend 4
3 + u close 2
end
",
            accepted: "certificate accepted depth 3\nchoices 0 0 2 0 1\n",
        },
    ] {
        assert_proved(&rt, rt.alloc(), &proof)?;
    }
    Ok(())
}

// Under the bound `inferences` a level has the tableaux of at most so many clause instances.
#[test]
fn proofs_of_few_inferences(rt: HostRuntime) -> Result<(), Fail> {
    for proof in [
        Proof {
            jobs: &["prove --bound inferences e.p"],
            clauses: CONJUNCTION,
            exhausted: &[1, 1, 2],
            attempts: 3,
            document: "parmel 2 class plain start negative bound inferences size 3 terms 0 nodes 4
root 2
1 - p extend 0
2 + p close 1
1 - q extend 1
2 + q close 1
end
",
            accepted: "certificate accepted inferences 3\nchoices 0 0 0\n",
        },
        Proof {
            jobs: &["prove --bound inferences e.p"],
            clauses: EMPTY,
            exhausted: &[1],
            attempts: 1,
            document: "parmel 2 class plain start negative bound inferences size 1 terms 0 nodes 0
root 0
end
",
            accepted: "certificate accepted inferences 1\nchoices 0\n",
        },
    ] {
        assert_proved(&rt, rt.alloc(), &proof)?;
    }
    Ok(())
}

// The last tree of the chain has 2^28 leaves; a certificate has each of its terms once.
#[test]
fn a_proof_with_shared_terms(rt: HostRuntime) -> Result<(), Fail> {
    let alloc = rt.alloc();
    let mut clauses = String::from_str(alloc, "cnf(g,axiom,~p0(a)).\n")?;
    let mut want = level_lines(alloc, "Unsatisfiable", &[1])?;
    let mut terms = String::from_str(alloc, "a\n")?;
    let mut accepted = String::from_str(alloc, "certificate accepted depth 30\nchoices 0")?;
    for i in 0..28_u32 {
        let next = i + 1;
        let clause = format!(in alloc; "cnf(s,axiom,p{i}(X) | ~p{next}(g(X,X))).\n")?;
        clauses.push_str(clause.as_str())?;
        terms.push_str(format!(in alloc; "g {i} {i}\n")?.as_str())?;
        accepted.push_str(format!(in alloc; " {i}")?.as_str())?;
    }
    clauses.push_str("cnf(e,axiom,p28(X)).\n")?;
    accepted.push_str(" 28\n")?;
    let mut attempts = 0_u32;
    for level in 1..30_u32 {
        attempts = attempts.saturating_add(level);
        let line = format!(in alloc; "level {level} exhausted attempts {attempts}\n")?;
        want.push_str(line.as_str())?;
    }
    want.push_str("level 30 proof attempts 436\n")?;
    want.push_str("parmel 1 class plain start negative depth 30 terms 29 nodes 58\n")?;
    want.push_str(terms.as_str())?;
    want.push_str("root 0\n1 - p0 0 extend 1\n")?;
    let (status, text) = run(alloc, "prove e.p", clauses.as_str(), "")?;
    assert!(rt; text.as_str().starts_with(want.as_str()), "in {text:?}");
    assert_eq!(rt; status, Status::Done);
    let (status, verdict) = run(alloc, "check e.p e.cert", clauses.as_str(), text.as_str())?;
    assert_eq!(rt; verdict.as_str(), accepted.as_str());
    assert_eq!(rt; status, Status::Done);
    Ok(())
}

// A clause of as many literals as there may be: each takes one attempt of the last level.
#[test]
fn a_proof_of_a_long_clause(rt: HostRuntime) -> Result<(), Fail> {
    let alloc = rt.alloc();
    let mut clauses = String::from_str(alloc, "cnf(a,axiom,p). cnf(b,axiom,~p")?;
    let mut document = String::from_str(
        alloc,
        "parmel 1 class plain start negative depth 2 terms 0 nodes 510
root 1
1 - p extend 0
2 + p close 1
",
    )?;
    let mut accepted = String::from_str(alloc, "certificate accepted depth 2\nchoices 0 0")?;
    for _ in 0..254_u32 {
        clauses.push_str(" | ~p")?;
        document.push_str("1 - p extend 0\n2 + p close 1\n")?;
        accepted.push_str(" 0")?;
    }
    clauses.push_str(").")?;
    document.push_str("end\n")?;
    accepted.push_str("\n")?;
    let proof = Proof {
        jobs: &["prove e.p"],
        clauses: clauses.as_str(),
        exhausted: &[1, 1],
        attempts: 256,
        document: document.as_str(),
        accepted: accepted.as_str(),
    };
    assert_proved(&rt, alloc, &proof)
}

// Where no level up to the depth has a proof, its levels are written and nothing else.
#[test]
fn depth_reached(rt: HostRuntime) -> Result<(), Fail> {
    let alloc = rt.alloc();
    let unclosed =
        "cnf(goal,axiom,~a). cnf(r,axiom,a | ~b). cnf(s,axiom,a | ~c). cnf(t,axiom,b | ~d).";
    let in_itself = "cnf(a,axiom,p(X,X)). cnf(b,axiom,~p(Y,f(Y))).";
    let satisfiable = "cnf(a,axiom,p(a)). cnf(b,axiom,~p(X) | q(X)).";
    let cases: [(&str, &str, &[u64]); 9] = [
        ("prove e.p", "", &[0; 31]),
        ("prove --depth 2 e.p", "", &[0, 0, 0]),
        ("prove --depth=3 e.p", in_itself, &[1, 1, 2, 2]),
        ("prove e.p --depth 3", in_itself, &[1, 1, 2, 2]),
        ("prove e.p --depth 3", satisfiable, &[0, 0, 0, 0]),
        (
            "prove e.p --depth 3 --start all",
            satisfiable,
            &[2, 2, 5, 5],
        ),
        ("prove e.p --depth 5", unclosed, &[1, 1, 5, 8, 8, 8]),
        ("prove --depth 3 e.p", CHAIN, &[1, 1, 4, 8]),
        (
            "prove e.p --bound inferences --depth 2",
            CONJUNCTION,
            &[1, 1, 2],
        ),
    ];
    for (job, clauses, exhausted) in cases {
        let want = level_lines(alloc, "GaveUp", exhausted)?;
        let (status, text) = run(alloc, job, clauses, "")?;
        assert_eq!(rt; text.as_str(), want.as_str(), "at {job:?}");
        assert_eq!(rt; status, Status::DepthReached, "at {job:?}");
    }
    Ok(())
}

// A level that needs more attempts than the budget ends the search.
#[test]
fn over_the_budget(rt: HostRuntime) -> Result<(), Fail> {
    let alloc = rt.alloc();
    let cases: [(&str, &str, &[u64], &str); 4] = [
        (
            "prove --budget 8 e.p",
            CHAIN,
            &[1, 1, 4, 8],
            "level 4 budget\n",
        ),
        (
            "prove --budget 7 e.p",
            CHAIN,
            &[1, 1, 4],
            "level 3 budget\n",
        ),
        ("prove --budget=1 e.p", CHAIN, &[1, 1], "level 2 budget\n"),
        ("prove e.p --budget 1", FAMILY, &[], "level 0 budget\n"),
    ];
    for (job, clauses, exhausted, last) in cases {
        let mut want = level_lines(alloc, "ResourceOut", exhausted)?;
        want.push_str(last)?;
        let (status, text) = run(alloc, job, clauses, "")?;
        assert_eq!(rt; text.as_str(), want.as_str(), "at {job:?}");
        assert_eq!(rt; status, Status::Budget, "at {job:?}");
    }
    Ok(())
}

// A sample problem is proved, and its summary is written in place of the certificate.
#[test]
fn samples(rt: HostRuntime) -> Result<(), Fail> {
    for (job, status, want) in [
        (
            "sample 1",
            Status::Done,
            "sample 1 clauses 1003
proof depth 22 nodes 82 terms 21 attempts 193984
",
        ),
        (
            "sample 1 --depth 1",
            Status::DepthReached,
            "sample 1 clauses 1003\ndepth reached attempts 2\n",
        ),
        (
            "--depth=3 sample 001",
            Status::DepthReached,
            "sample 1 clauses 1003\ndepth reached attempts 1015\n",
        ),
        (
            "sample --budget 1000 1",
            Status::Budget,
            "sample 1 clauses 1003\nbudget at level 3\n",
        ),
    ] {
        let (found, text) = run(rt.alloc(), job, "", "")?;
        assert_eq!(rt; text.as_str(), want, "at {job:?}");
        assert_eq!(rt; found, status, "at {job:?}");
    }
    Ok(())
}
