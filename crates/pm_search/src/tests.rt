//! Tests over a small tree.
ghost use Rattle.std.specs.Prelude.{◌<◌, IfOk, ◌≡◌, false, []};
ghost use Rattle.pm_search.specs.Inside.Tree.{tree_key, IsInTree};
ghost use Rattle.pm_search.specs.Inside.TreeLaws.{tree_laws};

use super::*;
use std::test::Fail;

// The lists of at most `depth` numbers from `least` on and below `branch`; complete is the last
// one.
#[derive(Drop)]
struct Tree {
    branch: u32,
    depth: usize,
    least: u32,
    path: Vec<u32>,
    steps: u64,
    ghost deep: { 0 < depth },
    ghost wide: { least < branch },
    ghost inside: { IsInTree branch depth least path.items },
}

impl Tree {
    fn new(alloc: Global, branch: u32, depth: usize, least: u32) -> Tree
        requires deep { 0 < depth }
        requires wide { least < branch }
        ensures { result.path.items ≡ [] }
    {
        Tree {
            branch,
            depth,
            least,
            path: Vec::new(alloc),
            steps: 0,
        }
    }
}

impl Space for Tree {
    ghost path = { λ tree. tree.path.items };

    ghost key = { λ tree. tree_key tree.branch tree.depth tree.least };

    fn width(&self) -> u32 {
        if self.path.len() < self.depth {
            self.branch
        } else {
            0
        }
    }

    fn is_complete(&self) -> bool {
        let last = self.branch - 1;
        self.path.len() == self.depth && self.path.iter().all(|k| *k == last)
    }

    fn length(&self) -> usize {
        self.path.len()
    }

    fn step(&mut self, k: u32) -> Result<bool, AllocError> {
        self.steps = self.steps.wrapping_add(1);
        if k < self.least {
            return Ok(false);
        }
        self.path.push(k)?;
        Ok(true)
    }

    fn back(&mut self) {
        let _choice = self.path.pop();
    }

    fn hopeful(&self, from: u32) -> u32 {
        if self.path.len() < self.depth && from < self.least {
            self.least
        } else {
            from
        }
    }

    ghost is_key = { λ tree. tree_laws tree.branch tree.depth tree.least tree.deep tree.wide };
}

fn search_all(alloc: Global, tree: Tree) -> Result<Search<Tree>, AllocError>
    requires { tree.path.items ≡ [] }
    ensures open { IfOk result (λ search. search.answered ≡ false) }
    ensures work { IfOk result (λ search. search.worked ≡ 0) }
{
    Search::seek(alloc, tree, &[], Bound::End)
}

#[test]
fn pauses_and_finds(rt: HostRuntime) -> Result<(), Fail> {
    let mut search = search_all(rt.alloc(), Tree::new(rt.alloc(), 2, 2, 0))?;
    let Turn::Paused { at, work } = search.run(2)? else {
        panic!(rt; "not paused");
    };
    assert_eq!(rt; at.as_slice(), [0, 1].as_slice());
    assert_eq!(rt; work, 2);
    assert_eq!(rt; search.worked(), 2);
    let Some(cut) = search.cut()? else {
        panic!(rt; "no cut");
    };
    assert_eq!(rt; cut.as_slice(), [1].as_slice());
    search.shorten(cut);
    let Turn::Closed { work } = search.run(100)? else {
        panic!(rt; "not closed");
    };
    assert_eq!(rt; work, 3);
    let mut whole = search_all(rt.alloc(), Tree::new(rt.alloc(), 2, 2, 0))?;
    let Turn::Found { path, work } = whole.run(100)? else {
        panic!(rt; "not found");
    };
    assert_eq!(rt; path.as_slice(), [1, 1].as_slice());
    assert_eq!(rt; work, 6);
    assert_eq!(rt; whole.space().length(), 2);
    assert!(rt; whole.into_space().is_complete());
    Ok(())
}

#[test]
fn closes_below_a_bound(rt: HostRuntime) -> Result<(), Fail> {
    let end = Choices::from_slice(rt.alloc(), &[1])?;
    let tree = Tree::new(rt.alloc(), 2, 2, 0);
    let mut search = Search::seek(rt.alloc(), tree, &[], Bound::At(end))?;
    assert!(rt; search.cut()?.is_none());
    let Turn::Closed { work } = search.run(100)? else {
        panic!(rt; "not closed");
    };
    assert_eq!(rt; work, 3);
    Ok(())
}

#[test]
fn only_the_last_of_ten_thousand(rt: HostRuntime) -> Result<(), Fail> {
    let mut search = search_all(rt.alloc(), Tree::new(rt.alloc(), 10_000, 1, 9_999))?;
    let Turn::Found { path, work } = search.run(10_000)? else {
        panic!(rt; "not found");
    };
    assert_eq!(rt; path.as_slice(), [9_999].as_slice());
    assert_eq!(rt; work, 10_000);
    assert_eq!(rt; search.space().steps, 1);
    let mut short = search_all(rt.alloc(), Tree::new(rt.alloc(), 10_000, 1, 9_999))?;
    let Turn::Paused { at, work } = short.run(7)? else {
        panic!(rt; "not paused");
    };
    assert_eq!(rt; at.as_slice(), [7].as_slice());
    assert_eq!(rt; work, 7);
    assert_eq!(rt; short.space().steps, 0);
    Ok(())
}
