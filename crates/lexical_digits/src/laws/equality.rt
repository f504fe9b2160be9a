//! `==` and `clone` on the plain values of this crate: `==` answers `true` exactly if the two
//! values are the same, part by part, and a clone is the same value.

ghost use Rattle.std.specs.Prelude.{◌≡◌, true};

use crate::skip::{Class, Component, Rule, Run, Sight};

/// Two rules are equal exactly if they are the same.
pub fn same_rule(a: Rule, b: Rule) -> bool
    ensures same { result ≡ true → a ≡ b }
    ensures equal { a ≡ b → result ≡ true }
{
    a == b
}

/// Two components are equal exactly if they are the same.
pub fn same_component(a: Component, b: Component) -> bool
    ensures same { result ≡ true → a ≡ b }
    ensures equal { a ≡ b → result ≡ true }
{
    a == b
}

/// Two runs are equal exactly if they are the same.
pub fn same_run(a: Run, b: Run) -> bool
    ensures same { result ≡ true → a ≡ b }
    ensures equal { a ≡ b → result ≡ true }
{
    a == b
}

/// Two answers of `decide` are equal exactly if they are the same.
pub fn same_sight(a: Sight, b: Sight) -> bool
    ensures same { result ≡ true → a ≡ b }
    ensures equal { a ≡ b → result ≡ true }
{
    a == b
}

/// A clone is the same value.
pub fn clones_are_same(
    rule: Rule,
    class: Class,
    component: Component,
    run: Run,
    sight: Sight,
) -> (Rule, Class, Component, Run, Sight)
    ensures { result ≡ (rule, class, component, run, sight) }
{
    let rule = rule.clone().unwrap();
    let class = class.clone().unwrap();
    let component = component.clone().unwrap();
    (
        rule,
        class,
        component,
        run.clone().unwrap(),
        sight.clone().unwrap(),
    )
}
