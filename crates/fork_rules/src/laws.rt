//! Laws of the rules of the format.

ghost use Rattle.std.specs.Prelude.{◌≡◌, ◌↔◌, ℕ, List, [], None, true, false};
ghost use Rattle.fork_format.specs.Canonical.{canon, fits};
ghost use Rattle.fork_format.specs.Content.{Content, IsContent};
ghost use Rattle.fork_format.specs.Fork.{is_fork};
ghost use Rattle.fork_rules.specs.Breaking.{broken};
ghost use Rattle.fork_rules.specs.Regions.{differences};
ghost use Rattle.fork_rules.specs.Sharing.{shares_data, orders_data};

/// States that bytes break no rule of the format exactly where they are a resource fork.
///
/// *More Macintosh Toolbox*, chapter 1, "Resource File Format".
pub fn bytes_that_break_no_rule_are_a_fork()
    ensures { (bytes : List ℕ) → (broken bytes ≡ None) ↔ (is_fork bytes ≡ true) }
{}

/// States that bytes differ from a canonical fork in no region exactly where they are that fork.
///
/// *More Macintosh Toolbox*, chapter 1, "Resource File Format".
pub fn no_difference_is_the_canonical_fork()
    ensures { (bytes : List ℕ) (c : Content) → IsContent c → fits c ≡ true
        → (differences bytes (canon c) ≡ []) ↔ (bytes ≡ canon c) }
{}

/// States that no stored data of a canonical fork is that of two references, and that it stands in
/// the order of the references.
///
/// *More Macintosh Toolbox*, chapter 1, "Resource File Format".
pub fn a_canonical_fork_shares_no_data()
    ensures shared { (c : Content) → IsContent c → fits c ≡ true → shares_data (canon c) ≡ false }
    ensures ordered { (c : Content) → IsContent c → fits c ≡ true → orders_data (canon c) ≡ true }
{}
