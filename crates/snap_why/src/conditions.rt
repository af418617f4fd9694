//! The operand at which a condition traps, or the line of a quantifier.
ghost use Rattle.std.specs.Prelude.{◌≡◌, ◌≤◌, Some};
ghost use Rattle.snap_words.specs.Shape.{IsOneOf};
ghost use Rattle.snap_semantics.specs.Rules.{or_else};
ghost use Rattle.snap_why.specs.Troubles.{comparison_trouble, condition_trouble};
ghost use Rattle.snap_why.specs.Troubles.{conditions_trouble, context_of};
ghost use Rattle.snap_why.specs.Troubles.{expr_trouble, values_trouble, where_trouble};

use crate::operands::{expr_trouble, first_of, term_trouble};
use crate::taker::Taker;
use crate::trouble::Trouble;
use snap_machine::Machine;
use snap_semantics::{Comparison, Condition, Expr};
use snap_words::Kind;

/// Returns a comparison that traps.
fn comparison_trouble<K: Kind>(
    machine: &Machine<K>,
    taker: Taker,
    comparison: &Comparison,
) -> Option<Trouble>
    requires { IsOneOf machine.now.shape.n taker.process }
    ensures { result ≡ comparison_trouble (context_of machine.now.shape machine.now.state taker)
        comparison.now }
{
    let left = term_trouble(machine, taker, &comparison.left);
    first_of(left, term_trouble(machine, taker, &comparison.right))
}

/// Returns the first of two comparisons that trap.
fn two_trouble<K: Kind>(
    machine: &Machine<K>,
    taker: Taker,
    first: &Comparison,
    second: &Comparison,
) -> Option<Trouble>
    requires { IsOneOf machine.now.shape.n taker.process }
    ensures { let c = context_of machine.now.shape machine.now.state taker in result
        ≡ or_else (comparison_trouble c first.now) (comparison_trouble c second.now) }
{
    let found = comparison_trouble(machine, taker, first);
    first_of(found, comparison_trouble(machine, taker, second))
}

/// Returns a condition that traps.
pub(crate) fn condition_trouble<K: Kind>(
    machine: &Machine<K>,
    taker: Taker,
    condition: &Condition,
) -> Option<Trouble>
    requires { IsOneOf machine.now.shape.n taker.process }
    ensures { result ≡ condition_trouble (context_of machine.now.shape machine.now.state taker)
        condition.now }
{
    match condition {
        Condition::One(a) => comparison_trouble(machine, taker, a),
        Condition::Two(_, a, b) => two_trouble(machine, taker, a, b),
        Condition::Three(_, a, b, c) => {
            let first = comparison_trouble(machine, taker, a);
            first_of(first, two_trouble(machine, taker, b, c))
        }
        Condition::Four(_, a, b, c, d) => {
            let first = comparison_trouble(machine, taker, a);
            let second = comparison_trouble(machine, taker, b);
            first_of(first, first_of(second, two_trouble(machine, taker, c, d)))
        }
    }
}

/// Returns the trouble of a condition, if there is one and it traps.
fn where_trouble<K: Kind>(
    machine: &Machine<K>,
    taker: Taker,
    condition: &Option<Condition>,
) -> Option<Trouble>
    requires { IsOneOf machine.now.shape.n taker.process }
    ensures { result ≡ where_trouble (context_of machine.now.shape machine.now.state taker)
        condition.now }
{
    match condition {
        Some(condition) => condition_trouble(machine, taker, condition),
        None => None,
    }
}

/// Returns the trouble at the first of `count` places at which a condition traps.
#[tactic(auto, using(crate::proofs::Places::condition_here, crate::proofs::Places::condition_later))]
pub(crate) fn conditions_trouble<K: Kind>(
    machine: &Machine<K>,
    taker: Taker,
    condition: &Condition,
    count: u64,
) -> Option<Trouble>
    requires process { IsOneOf machine.now.shape.n taker.process }
    requires few { count ≤ 64 }
    ensures { result ≡ conditions_trouble machine.now.shape machine.now.state taker condition.now 1
        count }
{
    let mut place = 1;
    let mut left = count;
    while left > 0 {
        let found = condition_trouble(machine, taker.at(place), condition);
        if let Some(trouble) = found {
            return Some(trouble);
        }
        place += 1;
        left -= 1;
    }
    None
}

/// Returns the new value of a place that traps.
fn value_trouble<K: Kind>(
    machine: &Machine<K>,
    taker: Taker,
    expr: &Expr,
    condition: &Option<Condition>,
) -> Option<Trouble>
    requires { IsOneOf machine.now.shape.n taker.process }
    ensures { let c = context_of machine.now.shape machine.now.state taker in result
        ≡ or_else (expr_trouble c expr.now) (where_trouble c condition.now) }
{
    let value = expr_trouble(machine, taker, expr);
    first_of(value, where_trouble(machine, taker, condition))
}

/// Returns the trouble at the first of `count` places whose new value traps.
#[tactic(auto, using(crate::proofs::Places::value_here, crate::proofs::Places::value_later))]
pub(crate) fn values_trouble<K: Kind>(
    machine: &Machine<K>,
    taker: Taker,
    expr: &Expr,
    condition: &Option<Condition>,
    count: u64,
) -> Option<Trouble>
    requires process { IsOneOf machine.now.shape.n taker.process }
    requires few { count ≤ 64 }
    ensures { result ≡ values_trouble machine.now.shape machine.now.state taker expr.now
        condition.now 1 count }
{
    let mut place = 1;
    let mut left = count;
    while left > 0 {
        let found = value_trouble(machine, taker.at(place), expr, condition);
        if let Some(trouble) = found {
            return Some(trouble);
        }
        place += 1;
        left -= 1;
    }
    None
}
