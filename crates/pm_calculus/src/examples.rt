//! Small problems, and what the definitions of the calculus say of them.
ghost use Rattle.pm_calculus.specs.Examples.{DepthExample, FiniteTermsExample, LeafExample, ClosedBranchExample, FreeVariableExample, AncestorExample, ExtensionOrderExample, ReductionOrderExample, VariableOrderExample, StartExample, InstancesExample};

/// Over `p(a)`, `~p(X) | p(f(X))` and `~p(f(f(a)))`, the list 0 1 2 2 is complete at depth 4, and
/// not reached at depth 3, where 0 1 2 has reductions alone.
pub fn depth_example()
    ensures { DepthExample }
{}

/// Over `p(X,X)` and `~p(Y,f(Y))`, the list 0 0 is reached at no depth.
pub fn finite_terms_example()
    ensures { FiniteTermsExample }
{}

/// Over `p(X) | ~p(X)`, `p(a)` and `~p(a)`, the list 0 0 is reached in the plain class and not in
/// the regular one.
pub fn leaf_example()
    ensures { LeafExample }
{}

/// Over `p(Y) | ~p(Z)`, `p(a)`, `~p(X) | ~t(X)`, `t(a) | ~u` and `u`, the list 0 0 2 0 is reached
/// in the plain class and not in the regular one, where 0 1 0 1 is complete.
pub fn closed_branch_example()
    ensures { ClosedBranchExample }
{}

/// Over `p(Y) | ~p(Z)`, `p(a)`, `~p(X) | ~t`, `t | ~u` and `u`, the list 0 0 2 0 1 is complete in
/// the regular class, and its general tableau has `~p(X)` above `~p(a)`.
pub fn free_variable_example()
    ensures { FreeVariableExample }
{}

/// Over `~p`, `p | ~q` and `q | ~p`, the list 0 0 1 is reached at depth 3 in the plain class and
/// not in the regular one: a literal is compared with all above it.
pub fn ancestor_example()
    ensures { AncestorExample }
{}

/// Over `q | p`, `p` and `~p`, the list 0 1 is complete at depth 2: extensions are numbered by
/// clause and then by literal.
pub fn extension_order_example()
    ensures { ExtensionOrderExample }
{}

/// Over `p | q`, `p | ~q`, `~p | q` and `~p | ~q`, the list 0 0 1 0 0 1 0 is complete at depth 3 in
/// both classes: reductions are numbered from the ancestor at depth 1 on.
pub fn reduction_order_example()
    ensures { ReductionOrderExample }
{}

/// Over `p(X) | p(Y)` and `~p(U) | ~p(V)`, the general tableau of 0 0 0 0 0 has two variables,
/// numbered by first occurrence in pre-order.
pub fn variable_order_example()
    ensures { VariableOrderExample }
{}

/// Each start rule picks its clauses; the empty clause is among the negative ones.
pub fn start_example()
    ensures { StartExample }
{}

/// With a bound on clause instances, over `p`, `q` and `~p | ~q` the list 0 0 0 is complete at
/// level 3 and not reached at level 2, and over the empty clause alone the list 0 is complete at
/// level 1 and not reached at level 0.
pub fn instances_example()
    ensures { InstancesExample }
{}
