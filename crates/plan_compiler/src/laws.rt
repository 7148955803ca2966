//! What holds of missing lists: the law is the contract of a function without a body.

ghost use Rattle.std.specs.Prelude.{◌≡◌, ◌++◌, List};
ghost use Rattle.std.specs.Option.{option_or};
ghost use Rattle.plan_compiler.specs.Missing.{Named, missing_among};
ghost use Rattle.plan_compiler.specs.NamedLists.{NamedLists};

/// The first missing list among some names and others is the first among the ones, or else the first among the others.
pub fn missing_law()
    ensures { (lists : NamedLists) (names others : List Named)
        → missing_among lists (names ++ others) ≡ option_or (missing_among lists names) (missing_among lists others) }
{}
