//! Gates that hold workers, and that count, over a level of a sample problem: they show that workers
//! share a level, and that rows are claimed by their numbers.
use pm_book::Event;
use pm_logic::{BoundKind, Class, Start};
use pm_outside::Gate;
use pm_pool::{LevelEnd, run_level};
use pm_report::sample;
use pm_tab::TabMaker;
use std::sync::atomic::{AtomicU64, Ordering};
use std::test::Fail;
use std::thread;

// A sample problem with a level of so many attempts, which is exhausted.
const SAMPLE: u32 = 7;

const LEVEL: u32 = 21;

const ATTEMPTS: u64 = 133_441;

const BUDGET: u64 = 1_000_000;

// Holds the first worker that splits a row until the other one has taken or claimed a row.
#[derive(Drop)]
struct HoldingGate {
    // The worker that was held, and one more.
    held: AtomicU64,
    // Whether each of the two has taken or claimed a row.
    first_started: AtomicU64,
    second_started: AtomicU64,
    ran_out: AtomicU64,
}

impl HoldingGate {
    fn hold(&self, worker: u16) {
        let me = u64::from(worker) + 1;
        let held = self
            .held
            .compare_exchange(0, me, Ordering::SeqCst, Ordering::SeqCst);
        if held.is_err() {
            return;
        }
        for _ in 0..1_000_000_000u64 {
            let started = if worker == 0 {
                self.second_started.load(Ordering::SeqCst)
            } else {
                self.first_started.load(Ordering::SeqCst)
            };
            if started == 1 {
                return;
            }
            thread::yield_now();
        }
        self.ran_out.store(1, Ordering::SeqCst);
    }
}

impl Gate for HoldingGate {
    fn pass(&self, worker: u16, event: u8) {
        match event {
            1 | 2 if worker == 0 => self.first_started.store(1, Ordering::SeqCst),
            1 | 2 => self.second_started.store(1, Ordering::SeqCst),
            3 => self.hold(worker),
            _ => {}
        }
    }
}

// Whether the end is that of the level.
fn is_exhausted(end: &LevelEnd) -> bool {
    matches!(end, LevelEnd::Exhausted { work } if *work == ATTEMPTS)
}

// Whether a worker claimed a row.
fn has_claimed(events: &[Event], number: u16) -> bool {
    events.iter().any(|event| matches!(event, Event::Claimed { worker, .. } if *worker == number))
}

#[test]
fn two_workers_share_a_level(rt: HostRuntime) -> Result<(), Fail> {
    let problem = sample(rt.alloc(), SAMPLE)?;
    let maker = TabMaker::new(
        rt.alloc(),
        &problem,
        Class::Plain,
        Start::Negative,
        BoundKind::Depth,
    )?;
    let gate = HoldingGate {
        held: AtomicU64::new(0),
        first_started: AtomicU64::new(0),
        second_started: AtomicU64::new(0),
        ran_out: AtomicU64::new(0),
    };
    let run = run_level(&rt, rt.alloc(), &&maker, LEVEL, &gate, 2, BUDGET)?;
    assert!(rt; gate.held.load(Ordering::SeqCst) != 0);
    assert!(rt; gate.ran_out.load(Ordering::SeqCst) == 0);
    assert!(rt; run.aside.is_none());
    assert!(rt; !has_claimed(run.book.events(), 2));
    assert!(rt; run.pieces.len() >= 2);
    assert!(rt; is_exhausted(&run.end));
    Ok(())
}

// Counts the rows that are claimed.
#[derive(Drop)]
struct CountingGate {
    claims: AtomicU64,
}

impl Gate for CountingGate {
    fn pass(&self, _worker: u16, event: u8) {
        if event == 2 {
            self.claims.fetch_add(1, Ordering::SeqCst);
        }
    }
}

#[test]
fn one_worker_claims_the_rows_that_it_splits_off(rt: HostRuntime) -> Result<(), Fail> {
    let problem = sample(rt.alloc(), SAMPLE)?;
    let maker = TabMaker::new(
        rt.alloc(),
        &problem,
        Class::Plain,
        Start::Negative,
        BoundKind::Depth,
    )?;
    let gate = CountingGate {
        claims: AtomicU64::new(0),
    };
    let run = run_level(&rt, rt.alloc(), &&maker, LEVEL, &gate, 1, BUDGET)?;
    assert!(rt; gate.claims.load(Ordering::SeqCst) >= 1);
    assert!(rt; is_exhausted(&run.end));
    Ok(())
}
