//! One deque for each worker, and a reach into all of them.
ghost use Rattle.std.specs.Prelude.{◌≡◌, ℕ, ◌<◌, ◌≤◌, [], ◌∷◌, ◌++◌, length, map, replicate, count_by, slice_index, slice_index_or, slice_set, IfOk, OnOk, IfSome, IfNone};
ghost use Rattle.std.specs.Bool.{OnTrue, OnFalse};
ghost use Rattle.crossbeam_deque.specs.Handles.{taken, view, stealer_deque, worker_deque};
ghost use Rattle.crossbeam_deque.specs.Steals.{MatchSteal};
ghost use Rattle.pm_steal.specs.History.{HeldAtMost, is_push};
ghost use Rattle.pm_steal.specs.Shown.{AreMade, HasCause, ReachesAll, SameDeque, SameDeques, SameOtherCounts, after_steal, hand_steps, reach_counts, reach_len, reach_steps};
ghost use Rattle.pm_steal.specs.declared.steps.Step.TheVariants.{Push, Pop};

use crate::handles::{CAPACITY, Grip, Hand, Reach};
use crate::steps::{Joining, Popping, Pushing, Stealing};
use crossbeam_deque::{Steal, Worker};
use std::alloc::{AllocError, Global};

/// What a steal gave.
#[derive(Debug, Clone, Copy, PartialEq, Eq)]
pub enum Stolen {
    /// The oldest number, which is taken.
    Row(u64),
    /// Nothing, since the deque held one number at most.
    Empty,
    /// Nothing, for that reason or since others took numbers from it in the meantime.
    Again,
}

impl Stolen {
    // What the answer of a deque says.
    fn from_steal(answer: Steal<u64>) -> Stolen
        ensures { MatchSteal answer
            (result ≡ Stolen.Empty)
            (result ≡ Stolen.Again)
            (λ row. result ≡ Stolen.Row row) }
    {
        match answer {
            Steal::Success(row) => Stolen::Row(row),
            Steal::Empty => Stolen::Empty,
            Steal::Retry => Stolen::Again,
        }
    }
}

/// One hand and one reach for each worker. Victim `i` of each reach is the deque of hand `i`.
pub fn make(alloc: Global, workers: u16) -> Result<(Vec<Hand>, Vec<Reach>), AllocError>
    requires { (1 ≤ workers) × (workers ≤ 64) }
    ensures { IfOk result (λ made. AreMade workers made.0.items made.1.items) }
{
    let mut hands = Vec::new(alloc);
    'hands: for _ in 0..workers {
        hands.push(Hand::new(alloc)?)?;
    }
    let mut reaches = Vec::new(alloc);
    'reaches: for _ in 0..workers {
        reaches.push(Reach::new(alloc, hands.as_mut_slice())?)?;
    }
    Ok((hands, reaches))
}

impl Hand {
    fn new(alloc: Global) -> Result<Hand, AllocError>
        ensures { IfOk result (λ hand. hand_steps hand ≡ []) }
    {
        let worker = Worker::lifo_as(alloc, CAPACITY)?;
        Ok(Hand { worker })
    }

    /// Puts a row's number on this worker's deque. False where the deque is full and cannot grow,
    /// which comes only after as many pushes as it has room for.
    pub fn push(&mut self, row: u64) -> bool
        ensures deque { SameDeque self.old self.new }
        ensures pushed { OnTrue result
            (hand_steps self.new ≡ hand_steps self.old ++ Push row ∷ []) }
        ensures refused { OnFalse result (hand_steps self.new ≡ hand_steps self.old) }
        ensures full { OnFalse result (CAPACITY ≤ count_by is_push (hand_steps self.old)) }
    {
        self.worker.push_as::<Pushing>(row).is_ok()
    }

    /// Takes the newest number. None where at one moment the deque was empty.
    pub fn pop(&mut self) -> Option<u64>
        ensures deque { SameDeque self.old self.new }
        ensures popped { IfSome result (λ row.
            hand_steps self.new ≡ hand_steps self.old ++ Pop row ∷ []) }
        ensures unchanged { IfNone result (hand_steps self.new ≡ hand_steps self.old) }
        ensures empty { IfNone result (HeldAtMost 0 (hand_steps self.old)) }
    {
        self.worker.pop_as::<Popping>()
    }

    fn grip(&mut self) -> Result<Grip, AllocError>
        ensures deque { SameDeque self.old self.new }
        ensures steps { hand_steps self.new ≡ hand_steps self.old }
        ensures grip { IfOk result (λ grip.
            (stealer_deque grip.thief ≡ worker_deque self.old.worker) × (view grip.pass ≡ [])) }
    {
        let thief = self.worker.stealer()?;
        let pass = self.worker.another::<Joining>();
        Ok(Grip { thief, pass })
    }
}

impl Grip {
    fn steal(&mut self) -> Stolen
        ensures deque { stealer_deque self.new.thief ≡ stealer_deque self.old.thief }
        ensures steps { view self.new.pass ≡ after_steal result (view self.old.pass) }
        ensures cause { HasCause result
            (view self.old.pass)
            (taken self.old.pass)
            (taken self.new.pass) }
    {
        Stolen::from_steal(self.thief.steal_as::<Stealing>(&mut self.pass))
    }
}

impl Reach {
    fn new(alloc: Global, hands: &mut [Hand]) -> Result<Reach, AllocError>
        ensures hand_deques { OnOk result
            (map (λ hand. worker_deque hand.worker) hands.new
            ≡ map (λ hand. worker_deque hand.worker) hands.old) }
        ensures hand_steps { OnOk result (map hand_steps hands.new ≡ map hand_steps hands.old) }
        ensures victims { IfOk result (λ reach. reach_len reach ≡ length hands.old) }
        ensures deques { IfOk result (ReachesAll hands.old) }
        ensures steps { IfOk result (λ reach. reach_steps reach ≡ replicate (length hands.old) []) }
    {
        let mut grips = Vec::new(alloc);
        for hand in hands.iter_mut() {
            grips.push(hand.grip()?)?;
        }
        Ok(Reach { grips })
    }

    // How many victims there are, which a test looks at before it steals.
    #[cfg(test)]
    fn victim_count(&self) -> usize
        ensures { result ≡ reach_len self.now }
    {
        self.grips.len()
    }

    /// Takes the oldest number of the victim's deque.
    pub fn steal(&mut self, victim: u16) -> Stolen
        requires { victim < reach_len self.old }
        ensures victims { reach_len self.new ≡ reach_len self.old }
        ensures deques { SameDeques self.old self.new }
        ensures steps { reach_steps self.new
            ≡ slice_set (reach_steps self.old) victim
            (after_steal result (slice_index_or (reach_steps self.old) victim [])) }
        ensures others { SameOtherCounts victim self.old self.new }
        ensures cause { HasCause result (slice_index_or (reach_steps self.old) victim [])
            (slice_index (reach_counts self.old) victim)
            (slice_index (reach_counts self.new) victim) }
    {
        self.grips[victim as usize].steal()
    }
}

#[cfg(test)]
mod tests {
    use super::*;
    use std::test::*;
    use std::thread;

    const NUMBERS: u64 = 10_000;

    fn steal(reach: &mut Reach, victim: u16) -> Stolen {
        if usize::from(victim) < reach.victim_count() {
            reach.steal(victim)
        } else {
            Stolen::Empty
        }
    }

    #[test]
    fn oldest_to_thief_and_newest_to_owner(rt: HostRuntime) -> Result<(), Fail> {
        let (mut hands, mut reaches) = make(rt.alloc(), 2)?;
        assert_eq!(rt; (hands.len(), reaches.len()), (2, 2));
        let (hand, reach) = (&mut hands[0], &mut reaches[1]);
        assert_eq!(rt; reach.victim_count(), 2);
        assert_eq!(rt;
            (hand.push(1), hand.push(2), hand.push(3)),
            (true, true, true)
        );
        assert_eq!(rt; steal(reach, 0), Stolen::Row(1));
        assert_eq!(rt; hand.pop(), Some(3));
        assert_eq!(rt; (hand.pop(), hand.pop()), (Some(2), None));
        assert_eq!(rt;
            (steal(reach, 0), steal(reach, 1)),
            (Stolen::Empty, Stolen::Empty)
        );
        Ok(())
    }

    #[derive(Drop)]
    struct Participant {
        first: u64,
        victim: u16,
        hand: Hand,
        reach: Reach,
    }

    // What one thread takes that pushes its numbers, steals between the pushes, and empties its
    // deque.
    fn take_all(alloc: Global, me: Participant) -> Result<Vec<u64>, AllocError> {
        let Participant {
            first,
            victim,
            mut hand,
            mut reach,
        } = me;
        let mut taken = Vec::new(alloc);
        for row in first..first.saturating_add(NUMBERS) {
            if !hand.push(row) {
                taken.push(row)?;
            }
            if let Stolen::Row(other) = steal(&mut reach, victim) {
                taken.push(other)?;
            }
        }
        for _ in 0..NUMBERS {
            let Some(row) = hand.pop() else {
                break;
            };
            taken.push(row)?;
        }
        Ok(taken)
    }

    #[test]
    fn each_number_is_taken_once(rt: HostRuntime) -> Result<(), Fail> {
        let alloc = rt.alloc();
        let (hands, reaches) = make(alloc, 4)?;
        let mut threads = Vec::new(alloc);
        for ((hand, reach), victim) in hands.into_iter().zip(reaches).zip([1u16, 2, 3, 0]) {
            let first = u64::from(victim) * NUMBERS;
            threads.push(Participant {
                first,
                victim,
                hand,
                reach,
            })?;
        }
        let mut all = Vec::new(alloc);
        for taken in thread::map_vec(&rt, threads, &|me| take_all(alloc, me))? {
            all.append(&mut taken?)?;
        }
        all.sort()?;
        assert_eq!(rt; all.len() as u64, 4 * NUMBERS);
        assert!(rt; all.iter().zip(0..).all(|(&row, place)| row == place));
        Ok(())
    }
}
