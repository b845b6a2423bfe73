//! Checks of certificates: which are accepted, and where the others are refused.
use super::{CHAIN, run};
use crate::Status;
use std::alloc::{AllocError, Global};
use std::process::Abort;
use std::test::Fail;

// A certificate over clauses, and what the check says of it once a part of it is changed: the part,
// what stands in its place, the status and the text.
#[derive(Clone, Copy)]
struct Changes<'a> {
    clauses: &'a str,
    document: &'a str,
    cases: &'a [(&'a str, &'a str, Status, &'a str)],
}

// The text with the first such part of it changed.
fn changed(alloc: Global, text: &str, part: &str, new: &str) -> Result<String, Fail> {
    let (before, after) = text.split_once(part).ok_or("the text has the part")?;
    Ok(format!(in alloc; "{before}{new}{after}")?)
}

fn assert_checked(rt: &impl Abort, alloc: Global, changes: &Changes<'_>) -> Result<(), Fail> {
    for &(part, new, status, want) in changes.cases {
        let cert = changed(alloc, changes.document, part, new)?;
        let (found, text) = run(alloc, "check e.p e.cert", changes.clauses, cert.as_str())?;
        assert_eq!(rt; text.as_str(), want, "with {new:?} for {part:?}");
        assert_eq!(rt; found, status, "with {new:?} for {part:?}");
    }
    Ok(())
}

// One line of a certificate is changed: each cause of a refusal, with the line that it names.
#[test]
fn lines_of_a_certificate(rt: HostRuntime) -> Result<(), Fail> {
    let changes = Changes {
        clauses: CHAIN,
        document: "% SZS status Unsatisfiable
level 0 exhausted attempts 1
level 1 exhausted attempts 1
level 2 exhausted attempts 4
level 3 exhausted attempts 8
level 4 proof attempts 9
parmel 1 class plain start negative depth 4 terms 3 nodes 6
a
f 0
f 1
root 2
1 - p 2 extend 1
2 - p 1 extend 1
3 - p 0 extend 0
4 + p 0 close 3
3 + p 1 close 2
2 + p 2 close 1
end
",
        cases: &[
            (
                "level 4",
                "level 4",
                Status::Done,
                "certificate accepted depth 4\nchoices 0 1 2 2\n",
            ),
            (
                "start negative",
                "start all",
                Status::Done,
                "certificate accepted depth 4\nchoices 2 1 2 2\n",
            ),
            (
                "3 + p 1 close 2",
                "3 + p 2 close 2",
                Status::CertRefused,
                "certificate refused line 13 NotInstance\n",
            ),
            (
                "1 - p 2 extend 1",
                "1 - p 1 extend 1",
                Status::CertRefused,
                "certificate refused line 11 NotInstance\n",
            ),
            (
                "depth 4",
                "depth 5",
                Status::CertRefused,
                "certificate refused line 7 DepthDiffers\n",
            ),
            (
                "a
f 0
f 1
root 2
1 - p 2 extend 1
2 - p 1 extend 1
3 - p 0 extend 0
4 + p 0 close 3
3 + p 1 close 2
2 + p 2 close 1
end
",
                "",
                Status::CertRefused,
                "certificate refused line 7 Counts\n",
            ),
            (
                "root 2",
                "root 3",
                Status::CertRefused,
                "certificate refused line 11 ClauseRange\n",
            ),
            (
                "terms 3",
                "terms 999999999999999999",
                Status::CertRefused,
                "certificate refused line 7 Counts\n",
            ),
            (
                "nodes 6",
                "nodes 06",
                Status::CertRefused,
                "certificate refused line 7 Syntax\n",
            ),
            (
                "\na\n",
                "\nb\n",
                Status::CertRefused,
                "certificate refused line 8 UnknownSymbol\n",
            ),
            (
                "\nf 1\n",
                "\nf 2\n",
                Status::CertRefused,
                "certificate refused line 10 TermRange\n",
            ),
            (
                "root 2",
                "root 1",
                Status::CertRefused,
                "certificate refused line 11 NotStart\n",
            ),
            (
                "1 - p 2 extend 1",
                "2 - p 2 extend 1",
                Status::CertRefused,
                "certificate refused line 12 DepthOrder\n",
            ),
            (
                "4 + p 0 close 3",
                "4 + p 1 close 3",
                Status::CertRefused,
                "certificate refused line 14 NotInstance\n",
            ),
            (
                "4 + p 0 close 3",
                "4 + p 0 close 4",
                Status::CertRefused,
                "certificate refused line 15 DepthOrder\n",
            ),
            (
                "4 + p 0 close 3",
                "4 + p 0 close 2",
                Status::CertRefused,
                "certificate refused line 15 NotComplementary\n",
            ),
            (
                "4 + p 0 close 3",
                "4 + p 3 close 3",
                Status::CertRefused,
                "certificate refused line 15 TermRange\n",
            ),
            (
                "3 - p 0 extend 0",
                "3 - p 0 extend 3",
                Status::CertRefused,
                "certificate refused line 14 ClauseRange\n",
            ),
            (
                "3 - p 0 extend 0",
                "3 - q 0 extend 0",
                Status::CertRefused,
                "certificate refused line 14 UnknownSymbol\n",
            ),
            (
                "3 - p 0 extend 0",
                "3 - 'p' 0 extend 0",
                Status::CertRefused,
                "certificate refused line 14 Syntax\n",
            ),
            (
                "level 3",
                "level 4",
                Status::CertRefused,
                "certificate refused line 5 Syntax\n",
            ),
            (
                "nodes 6",
                "nodes 18446744073709551616",
                Status::CertRefused,
                "certificate refused line 7 Syntax\n",
            ),
            (
                "nodes 6",
                "nodes 18446744073709551615",
                Status::CertRefused,
                "certificate refused line 7 Counts\n",
            ),
            (
                "end\n",
                "end",
                Status::CertRefused,
                "certificate refused line 18 Syntax\n",
            ),
            (
                "end\n",
                "end\nend\n",
                Status::CertRefused,
                "certificate refused line 7 Counts\n",
            ),
        ],
    };
    assert_checked(&rt, rt.alloc(), &changes)
}

// The levels needn't be those of the tableau. A tableau with a literal twice on a branch is refused
// in the class `regular`, and one with an inner node to which no child is complementary, in both.
#[test]
fn classes_of_certificates(rt: HostRuntime) -> Result<(), Fail> {
    let changes = Changes {
        clauses: "cnf(t,axiom,p(X) | ~p(X)). cnf(a,axiom,p(a)). cnf(b,axiom,~p(a)).",
        document: "% SZS status Unsatisfiable
level 0 proof attempts 1
parmel 1 class plain start negative depth 3 terms 1 nodes 4
a
root 2
1 - p 0 extend 0
2 + p 0 close 1
2 - p 0 extend 1
3 + p 0 close 2
end
",
        cases: &[
            (
                "level 0",
                "level 0",
                Status::Done,
                "certificate accepted depth 3\nchoices 0 0 2\n",
            ),
            (
                "class plain",
                "class regular",
                Status::CertRefused,
                "certificate refused line 8 NotRegular\n",
            ),
            (
                "nodes 4\na\nroot 2\n1 - p 0 extend 0\n2 + p 0 close 1\n2 - p 0 extend 1",
                "nodes 3\na\nroot 2\n1 - p 0 extend 2\n2 - p 0 extend 1",
                Status::CertRefused,
                "certificate refused line 6 NotConnected\n",
            ),
        ],
    };
    assert_checked(&rt, rt.alloc(), &changes)
}

// The size of a certificate is that under its bound.
#[test]
fn bounds_of_certificates(rt: HostRuntime) -> Result<(), Fail> {
    let changes = Changes {
        clauses: "cnf(a,axiom,p). cnf(b,axiom,q). cnf(c,negated_conjecture,~p | ~q).",
        document: "% SZS status Unsatisfiable
level 0 exhausted attempts 1
level 1 exhausted attempts 1
level 2 exhausted attempts 2
level 3 proof attempts 3
parmel 2 class plain start negative bound inferences size 3 terms 0 nodes 4
root 2
1 - p extend 0
2 + p close 1
1 - q extend 1
2 + q close 1
end
",
        cases: &[
            (
                "size 3",
                "size 3",
                Status::Done,
                "certificate accepted inferences 3\nchoices 0 0 0\n",
            ),
            (
                "bound inferences size 3",
                "bound depth size 2",
                Status::Done,
                "certificate accepted depth 2\nchoices 0 0 0\n",
            ),
            (
                "size 3",
                "size 4",
                Status::CertRefused,
                "certificate refused line 6 SizeDiffers\n",
            ),
            (
                "bound inferences size 3",
                "bound depth size 3",
                Status::CertRefused,
                "certificate refused line 6 DepthDiffers\n",
            ),
        ],
    };
    assert_checked(&rt, rt.alloc(), &changes)
}

// The clauses `~p1`, then `pi | ~pj` with j = i + 1 for each i from 1 to `inner` - 1, then `p` with
// the number `inner`.
fn chain_clauses(alloc: Global, inner: u32) -> Result<String, AllocError> {
    let mut clauses = String::from_str(alloc, "cnf(g,axiom,~p1).\n")?;
    for i in 1..inner {
        let next = i + 1;
        let clause = format!(in alloc; "cnf(s,axiom,p{i} | ~p{next}).\n")?;
        clauses.push_str(clause.as_str())?;
    }
    clauses.push_str(format!(in alloc; "cnf(e,axiom,p{inner}).\n")?.as_str())?;
    Ok(clauses)
}

// The certificate with one inner node at each depth below this one, over the clauses of a chain,
// and the choices that its tableau follows.
fn chain_certificate(
    alloc: Global,
    depth: u32,
    nodes: u32,
) -> Result<(String, String), AllocError> {
    let mut document = format!(in alloc;
        "% SZS status Unsatisfiable
level 0 proof attempts 1
parmel 1 class regular start negative depth {depth} terms 0 nodes {nodes}
root 0
"
    )?;
    let mut choices = String::from_str(alloc, "choices 0")?;
    for k in 1..depth {
        let next = k + 1;
        let lines = format!(in alloc; "{k} - p{k} extend {k}\n{next} + p{k} close {k}\n")?;
        document.push_str(lines.as_str())?;
        let reductions = k - 1;
        choices.push_str(format!(in alloc; " {reductions}")?.as_str())?;
    }
    document.push_str("end\n")?;
    choices.push_str("\n")?;
    Ok((document, choices))
}

// A node of depth 250 is the deepest that a certificate may have.
#[test]
fn depths_of_certificates(rt: HostRuntime) -> Result<(), Fail> {
    let alloc = rt.alloc();
    let clauses = chain_clauses(alloc, 249)?;
    let (cert, choices) = chain_certificate(alloc, 250, 498)?;
    let (status, text) = run(alloc, "check e.p e.cert", clauses.as_str(), cert.as_str())?;
    let want = format!(in alloc; "certificate accepted depth 250\n{choices}")?;
    assert_eq!(rt; text.as_str(), want.as_str());
    assert_eq!(rt; status, Status::Done);
    let clauses = chain_clauses(alloc, 250)?;
    let (cert, _) = chain_certificate(alloc, 251, 500)?;
    let (status, text) = run(alloc, "check e.p e.cert", clauses.as_str(), cert.as_str())?;
    assert_eq!(rt; text.as_str(), "certificate refused line 504 DepthOrder\n");
    assert_eq!(rt; status, Status::CertRefused);
    Ok(())
}
