//! Tests of reading and writing: rows of the format with their places, and whole files.
use crate::{CnfError, CnfKind, Limits, Place, read, write};
use pm_logic::{Kind, Problem};
use std::alloc::Global;
use std::test::Fail;

const SMALL: Limits = Limits {
    clauses: 1,
    literals: 1,
    variables: 1,
    arity: 1,
    nesting: 1,
};

// Reads a file of at most 16,777,216 bytes, with limits within the standard ones.
fn read_file(alloc: Global, file: &[u8], limits: &Limits) -> Result<Problem, CnfError> {
    let most = Limits::standard();
    if file.len() > 16_777_216
        || limits.clauses > most.clauses
        || limits.literals > most.literals
        || limits.variables > most.variables
        || limits.arity > most.arity
        || limits.nesting > most.nesting
    {
        return Err(CnfError::Memory);
    }
    read(alloc, file, limits)
}

// The kind and the place of a file's first offence, if it has one.
fn offence(
    alloc: Global,
    file: &[u8],
    limits: &Limits,
) -> Result<Option<(u32, u32, CnfKind)>, Fail> {
    match read_file(alloc, file, limits) {
        Ok(_) => Ok(None),
        Err(CnfError::At { place, kind }) => Ok(Some((place.line, place.column, kind))),
        Err(CnfError::Memory) => Err(Fail::from("out of memory, or over a limit")),
    }
}

// The examples of docs/FORMAT.md, with each limit at 1.
#[test]
fn each_kind(rt: HostRuntime) -> Result<(), Fail> {
    for (file, column, kind) in [
        ("cnf(a,axiom,p#).", 14, CnfKind::BadByte),
        ("/* cnf", 1, CnfKind::UnclosedComment),
        ("cnf('',axiom,p).", 5, CnfKind::BadToken),
        ("cnf(a,axiom,'p", 13, CnfKind::UnclosedQuote),
        ("cnf(a,axiom,p", 14, CnfKind::EndInItem),
        ("include('x').", 1, CnfKind::Include),
        ("fof(a,axiom,p).", 1, CnfKind::NotCnf),
        ("cnf(a,axiom,p(1)).", 15, CnfKind::Number),
        ("cnf(a,axiom,\"p\").", 13, CnfKind::DistinctObject),
        ("cnf(a,axiom,X = Y).", 15, CnfKind::Equality),
        ("cnf(a,axiom,p))", 15, CnfKind::Unexpected),
        (
            "cnf(a,axiom,p). cnf(b,axiom,p).",
            17,
            CnfKind::TooManyClauses,
        ),
        ("cnf(a,axiom,p|~q).", 15, CnfKind::TooManyLiterals),
        ("cnf(a,axiom,p,[X,X,Y]).", 20, CnfKind::TooManyVariables),
        ("cnf(a,axiom,p(X,X)).", 17, CnfKind::ArityTooLarge),
        ("cnf(a,axiom,p(f(a))).", 17, CnfKind::TooDeep),
        // An upper word in the place of an atom is refused at the token after it.
        ("cnf(a,axiom,X|p).", 14, CnfKind::Unexpected),
        ("cnf(a,axiom,X", 14, CnfKind::EndInItem),
    ] {
        let found = offence(rt.alloc(), file.as_bytes(), &SMALL)?;
        assert_eq!(rt; found, Some((1, column, kind)), "at {file:?}");
    }
    let file = b"cnf(a,axiom,p).\n\tfof(b,axiom,p).";
    let found = offence(rt.alloc(), file, &SMALL)?;
    assert_eq!(rt; found, Some((2, 2, CnfKind::NotCnf)));
    Ok(())
}

// Kinds and places are shown as a run prints them.
#[test]
fn kinds_and_places_in_words(rt: HostRuntime) -> Result<(), Fail> {
    for (number, kind, word) in [
        (1, CnfKind::BadByte, "BadByte"),
        (2, CnfKind::BadToken, "BadToken"),
        (3, CnfKind::UnclosedComment, "UnclosedComment"),
        (4, CnfKind::UnclosedQuote, "UnclosedQuote"),
        (5, CnfKind::Unexpected, "Unexpected"),
        (6, CnfKind::EndInItem, "EndInItem"),
        (7, CnfKind::NotCnf, "NotCnf"),
        (8, CnfKind::Include, "Include"),
        (9, CnfKind::Equality, "Equality"),
        (10, CnfKind::Number, "Number"),
        (11, CnfKind::DistinctObject, "DistinctObject"),
        (12, CnfKind::TooManyClauses, "TooManyClauses"),
        (13, CnfKind::TooManyLiterals, "TooManyLiterals"),
        (14, CnfKind::TooManyVariables, "TooManyVariables"),
        (15, CnfKind::ArityTooLarge, "ArityTooLarge"),
        (16, CnfKind::TooDeep, "TooDeep"),
    ] {
        assert_eq!(rt; kind as u8, number);
        let shown = format!(in rt.alloc(); "{kind}")?;
        assert_eq!(rt; shown.as_str(), word);
    }
    let place = Place {
        line: 2,
        column: 15,
    };
    let shown = format!(in rt.alloc(); "{place}")?;
    assert_eq!(rt; shown.as_str(), "line 2 column 15");
    let kind = CnfKind::TooDeep;
    let shown = format!(in rt.alloc(); "{}", CnfError::At { place, kind })?;
    assert_eq!(rt; shown.as_str(), "line 2 column 15 TooDeep");
    Ok(())
}

// Two kinds could be said of one place, and the first in the table of docs/FORMAT.md is.
#[test]
fn the_first_kind_at_one_place(rt: HostRuntime) -> Result<(), Fail> {
    for (file, column, kind) in [
        ("'a\\", 1, CnfKind::BadToken),
        ("cnf(a,axiom,p). include('x').", 17, CnfKind::Include),
        ("cnf(a,axiom,p). fof(a,axiom,p).", 17, CnfKind::NotCnf),
        ("cnf(a,axiom,p). 'cnf'", 17, CnfKind::Unexpected),
        ("cnf(a,axiom,p|1).", 15, CnfKind::Number),
        ("cnf(a,axiom,p(a,1)).", 17, CnfKind::Number),
        ("cnf(a,axiom,p(f(1))).", 17, CnfKind::Number),
        ("cnf(a,axiom,p|\"q\").", 15, CnfKind::DistinctObject),
        ("cnf(a,axiom,p(a,\"q\")).", 17, CnfKind::DistinctObject),
        ("cnf(a,axiom,p(f(\"q\"))).", 17, CnfKind::DistinctObject),
        ("cnf(a,axiom,$true = a).", 19, CnfKind::Equality),
        ("cnf(a,axiom,~X != a).", 16, CnfKind::Equality),
        ("cnf(a,axiom,(p) = a).", 17, CnfKind::Unexpected),
        ("cnf(a,axiom,p|)", 15, CnfKind::Unexpected),
        ("cnf(a,axiom,p(a,)", 17, CnfKind::Unexpected),
        ("cnf(a,axiom,p(f(,", 17, CnfKind::Unexpected),
        ("cnf(a,axiom,~X|Y).", 15, CnfKind::Unexpected),
        ("cnf(a,axiom,p(X)|Y).", 18, CnfKind::TooManyLiterals),
        ("cnf(a,axiom,p(X,Y)).", 17, CnfKind::TooManyVariables),
    ] {
        let found = offence(rt.alloc(), file.as_bytes(), &SMALL)?;
        assert_eq!(rt; found, Some((1, column, kind)), "at {file:?}");
    }
    let nothing = Limits {
        clauses: 1,
        literals: 1,
        variables: 0,
        arity: 0,
        nesting: 0,
    };
    for (file, kind) in [
        ("cnf(a,axiom,p(X)).", CnfKind::TooManyVariables),
        ("cnf(a,axiom,p(a)).", CnfKind::ArityTooLarge),
    ] {
        let found = offence(rt.alloc(), file.as_bytes(), &nothing)?;
        assert_eq!(rt; found, Some((1, 15, kind)), "at {file:?}");
    }
    Ok(())
}

// The file is cut after each of its bytes.
#[test]
fn a_file_cut_short(rt: HostRuntime) -> Result<(), Fail> {
    let file = "% c\ncnf('a b',axiom,p(X),[x]).\n/* */";
    for cut in 0..37_usize {
        let want = match cut {
            // The first comment, the item, and the second comment are whole.
            0..=4 | 30..=31 | 36 => None,
            5..=6 => Some((2, 1, CnfKind::NotCnf)),
            // After the opening mark of the quoted word.
            9..=12 => Some((2, 5, CnfKind::UnclosedQuote)),
            32 => Some((3, 1, CnfKind::Unexpected)),
            33..=35 => Some((3, 1, CnfKind::UnclosedComment)),
            _ => Some((2, (cut as u32).saturating_sub(3), CnfKind::EndInItem)),
        };
        let part = file.as_bytes().get(..cut).ok_or("the file is longer")?;
        let found = offence(rt.alloc(), part, &Limits::standard())?;
        assert_eq!(rt; found, want, "after {cut} bytes");
    }
    Ok(())
}

// `before`, then `part` so many times, then `after`.
fn repeated(
    alloc: Global,
    before: &str,
    part: &str,
    times: usize,
    after: &str,
) -> Result<Vec<u8>, Fail> {
    let mut file = Vec::from_slice(alloc, before.as_bytes())?;
    'parts: for _ in 0..times {
        file.extend_from_slice(part.as_bytes())?;
    }
    file.extend_from_slice(after.as_bytes())?;
    Ok(file)
}

// An item whose one literal has a term with so many functions above its constant, one in the
// other.
fn nested(alloc: Global, functions: usize) -> Result<Vec<u8>, Fail> {
    let mut item = repeated(alloc, "cnf(a,axiom,p(", "f(", functions, "a)")?;
    let closing = repeated(alloc, "", ")", functions, ").\n")?;
    item.extend_from_slice(&closing)?;
    Ok(item)
}

#[test]
fn limits_of_literals_and_nesting(rt: HostRuntime) -> Result<(), Fail> {
    let alloc = rt.alloc();
    let limits = Limits::standard();
    let most = repeated(alloc, "cnf(a,axiom,p", "|p", 254, ").")?;
    let more = repeated(alloc, "cnf(a,axiom,p", "|p", 255, ").")?;
    assert_eq!(rt; offence(alloc, &most, &limits)?, None);
    let want = Some((1, 523, CnfKind::TooManyLiterals));
    assert_eq!(rt; offence(alloc, &more, &limits)?, want);
    let deepest = nested(alloc, 999)?;
    let deeper = nested(alloc, 1_000)?;
    assert_eq!(rt; offence(alloc, &deepest, &limits)?, None);
    let want = Some((1, 2_015, CnfKind::TooDeep));
    assert_eq!(rt; offence(alloc, &deeper, &limits)?, want);
    Ok(())
}

// How many clauses a file of 16,777,216 bytes has.
fn clauses_of_longest(alloc: Global, file: &[u8]) -> Result<u32, Fail> {
    if file.len() != 16_777_216 {
        return Err(Fail::from("the file is shorter or longer"));
    }
    let problem = read_file(alloc, file, &Limits::standard());
    Ok(problem.ok().ok_or("the file is read")?.clauses())
}

#[test]
fn a_long_file_of_comments(rt: HostRuntime) -> Result<(), Fail> {
    let file = repeated(rt.alloc(), "", "%%%%%%%\n", 2_097_152, "")?;
    assert_eq!(rt; clauses_of_longest(rt.alloc(), &file)?, 0);
    Ok(())
}

// Items of 121 literals, as many as there may be.
#[test]
fn a_long_file_of_clauses(rt: HostRuntime) -> Result<(), Fail> {
    let item = repeated(rt.alloc(), "cnf(a,axiom,p", "|p", 120, ").\n")?;
    let mut file = Vec::new(rt.alloc());
    'items: for _ in 0..65_536 {
        file.extend_from_slice(&item)?;
    }
    assert_eq!(rt; clauses_of_longest(rt.alloc(), &file)?, 65_536);
    Ok(())
}

// Terms of nesting 1,000 throughout.
#[test]
fn a_long_file_of_deep_terms(rt: HostRuntime) -> Result<(), Fail> {
    let item = nested(rt.alloc(), 999)?;
    let mut file = Vec::new(rt.alloc());
    'items: for _ in 0..5_562 {
        file.extend_from_slice(&item)?;
    }
    file.resize(16_777_216, b' ')?;
    assert_eq!(rt; clauses_of_longest(rt.alloc(), &file)?, 5_562);
    Ok(())
}

#[test]
fn symbols_by_first_occurrence(rt: HostRuntime) -> Result<(), Fail> {
    let file =
        "cnf(a,axiom,p(a)). cnf(b,axiom,~p(X) | p(f(X))). cnf(c,negated_conjecture,~p(f(f(a)))).";
    let problem = read_file(rt.alloc(), file.as_bytes(), &Limits::standard());
    let problem = problem.ok().ok_or("the file is read")?;
    let symbols = problem.symbols();
    assert_eq!(rt; symbols.len(), 3);
    assert_eq!(rt; symbols.find("p", 1, Kind::Predicate), Some(0));
    assert_eq!(rt; symbols.find("a", 0, Kind::Function), Some(1));
    assert_eq!(rt; symbols.find("f", 1, Kind::Function), Some(2));
    let text = write(rt.alloc(), &problem)?;
    let want = "cnf(a,axiom,(p(a))).
cnf(b,axiom,(~p(X0) | p(f(X0)))).
cnf(c,negated_conjecture,(~p(f(f(a))))).
";
    assert_eq!(rt; text.as_slice(), want.as_bytes());
    Ok(())
}

// The clauses of a file as they are written.
fn written(alloc: Global, file: &str) -> Result<Vec<u8>, CnfError> {
    let problem = read_file(alloc, file.as_bytes(), &Limits::standard())?;
    Ok(write(alloc, &problem)?)
}

#[test]
fn written_literals_and_terms(rt: HostRuntime) -> Result<(), Fail> {
    let text = written(rt.alloc(), "cnf( 7, axiom, (p(A, x, B) | ~ 'Q r'(B)) ).")?;
    let line = "cnf(7,axiom,(p(X0,x,X1) | ~'Q r'(X1))).\n";
    assert_eq!(rt; text.as_slice(), line.as_bytes());

    let text = written(
        rt.alloc(),
        "cnf(a, axiom, ~ p(f(g(X, Y), h(h(X))), Y, 'A') | 'p').",
    )?;
    let line = "cnf(a,axiom,(~p(f(g(X0,X1),h(h(X0))),X1,'A') | p)).\n";
    assert_eq!(rt; text.as_slice(), line.as_bytes());

    let text = written(rt.alloc(), "cnf(a, axiom, p). cnf(b, axiom, ~ p).")?;
    let lines = "cnf(a,axiom,(p)).\ncnf(b,axiom,(~p)).\n";
    assert_eq!(rt; text.as_slice(), lines.as_bytes());
    Ok(())
}
