//! Small pieces of code, and the runs that the definitions give them.
ghost use Rattle.pm_run.specs.Examples.{ExtensionExample, FailureExample, ReductionExample, FailedReductions};

/// The leaf `~p(A)` is extended by `p(f(X)) | ~q(Y, X)`: `A` is bound to `f(B)`, and the children
/// are `p(f(B))`, which is closed, and `~q(C, B)`.
pub fn extension_example()
    ensures { ExtensionExample }
{}

/// The leaf `~p(g)` can't be extended by `p(f(X))`.
pub fn failure_example()
    ensures { FailureExample }
{}

/// On the branch `p`, `q`, `~p`, the leaf is closed by the ancestor at depth 1.
pub fn reduction_example()
    ensures { ReductionExample }
{}

/// On the branch `p`, `q`, `~p`, the leaf can't be closed by the ancestor at depth 2, nor by
/// itself.
pub fn failed_reductions()
    ensures { FailedReductions }
{}
