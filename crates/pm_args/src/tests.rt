//! Words that are jobs, and words that are none.
use crate::{ArgsFault, Job, Options, read_job};
use pm_logic::{BoundKind, Class, Start};
use std::alloc::{AllocError, Global};
use std::test::Fail;

// The words of a run.
fn words(alloc: Global, texts: &[&str]) -> Result<Vec<String>, AllocError> {
    let mut words = Vec::new(alloc);
    for text in texts {
        words.push(String::from_str(alloc, *text)?)?;
    }
    Ok(words)
}

const DEFAULTS: Options = Options {
    depth: 30,
    budget: 1_000_000,
    workers: 4,
    class: Class::Plain,
    start: Start::Negative,
    bound: BoundKind::Depth,
};

// The options of words that prove the clauses of the file `a.p`.
fn options_of(alloc: Global, texts: &[&str]) -> Result<Options, Fail> {
    let words = words(alloc, texts)?;
    let Job::Prove { file, options } = read_job(alloc, &words)? else {
        return Err("a proof is wanted")?;
    };
    if file.as_str() != "a.p" {
        return Err("a proof of a.p is wanted")?;
    }
    Ok(options)
}

#[test]
fn refuses_words_that_are_no_job(rt: HostRuntime) -> Result<(), Fail> {
    let alloc = rt.alloc();
    let refused: [&[&str]; 26] = [
        &[],
        &["prove"],
        &["prove", "a", "b"],
        &["prove", "--depth", "251", "a.p"],
        &["prove", "--depth", "3", "--depth", "3", "a.p"],
        &["check", "a", "c", "--workers", "2"],
        &["prove", "--", "a.p"],
        &["prove", "-"],
        &["sample", "0"],
        &["--help"],
        &["sample", "51"],
        &["sample", "7", "--start", "negative"],
        &["sample", "7", "--bound", "depth"],
        &["check", "a"],
        &["clauses", "a", "--class=plain"],
        &["proof", "a"],
        &["prove", "a", "--budget", "0"],
        &["prove", "a", "--budget=1000000000001"],
        &["prove", "a", "--budget", "00000000000001"],
        &["prove", "a", "--workers="],
        &["prove", "a", "--depth", "-1"],
        &["prove", "a", "--depth=+1"],
        &["prove", "a", "--depth"],
        &["prove", "a", "--depth=1", "--depth", "1"],
        &["prove", "a", "--class", "Plain"],
        &["prove", "a", "-d", "3"],
    ];
    for texts in refused {
        let answer = read_job(alloc, &words(alloc, texts)?);
        assert!(rt; matches!(answer, Err(ArgsFault::BadWords)));
    }
    Ok(())
}

#[test]
fn reads_options_in_any_place(rt: HostRuntime) -> Result<(), Fail> {
    let alloc = rt.alloc();
    let shallow = Options {
        depth: 3,
        ..DEFAULTS
    };
    assert!(rt; options_of(alloc, &["prove", "a.p"])? == DEFAULTS);
    assert!(rt; options_of(alloc, &["prove", "--depth=3", "a.p"])? == shallow);
    assert!(rt; options_of(alloc, &["prove", "a.p", "--depth", "0000000000003"])? == shallow);
    assert!(rt; options_of(alloc, &["--depth", "3", "prove", "a.p"])? == shallow);
    let all = options_of(
        alloc,
        &[
            "--start=goal",
            "prove",
            "--budget",
            "1000000000000",
            "--workers=64",
            "a.p",
            "--class",
            "regular",
            "--depth=250",
            "--bound",
            "inferences",
        ],
    )?;
    let wanted = Options {
        depth: 250,
        budget: 1_000_000_000_000,
        workers: 64,
        class: Class::Regular,
        start: Start::Goal,
        bound: BoundKind::Inferences,
    };
    assert!(rt; all == wanted);
    Ok(())
}

#[test]
fn reads_the_other_jobs(rt: HostRuntime) -> Result<(), Fail> {
    let alloc = rt.alloc();
    let check = read_job(alloc, &words(alloc, &["check", "a", "c"])?)?;
    assert!(rt;
        matches!(&check, Job::Check { file, cert } if file.as_str() == "a" && cert.as_str() == "c")
    );
    let code = read_job(alloc, &words(alloc, &["code", ""])?)?;
    assert!(rt; matches!(&code, Job::Code { file } if file.is_empty()));
    let clauses = read_job(alloc, &words(alloc, &["clauses", "prove"])?)?;
    assert!(rt; matches!(&clauses, Job::Clauses { file } if file.as_str() == "prove"));
    let sample = read_job(alloc, &words(alloc, &["--workers", "2", "sample", "050"])?)?;
    let Job::Sample { n, options } = sample else {
        return Err("a sample is wanted")?;
    };
    assert!(rt;
        n == 50
            && options
                == Options {
                    workers: 2,
                    ..DEFAULTS
                }
    );
    Ok(())
}
