//! Tests that only words of one key pass, and tests that each word passes.

ghost use Rattle.std.specs.Prelude.{◌≡◌};
ghost use Rattle.std.specs.Option.{option_copied};
ghost use Rattle.plan_compiler.specs.ItemTests as tests;
ghost use Rattle.plan_kinds.specs.steps.AskedKeys as spec;

use match_options::WordTest;
use plan_compiler::ItemTest;

/// The one key that words have which pass, where the test asks for one.
pub fn asked_key(test: &ItemTest) -> Option<&str>
    ensures { option_copied result ≡ spec.asked_key test.now }
{
    match test {
        ItemTest::Any => None,
        ItemTest::ByForms(test) => key_of_forms(test),
        ItemTest::ByStem(_stem, _case) => None,
    }
}

fn key_of_forms(test: &WordTest) -> Option<&str>
    ensures { option_copied result ≡ spec.key_of_forms test.now }
{
    match test {
        WordTest::Any => None,
        WordTest::Same(_choice, query) => Some(query.key.as_str()),
        WordTest::Covered(_choice, _wild) => None,
        WordTest::Never => None,
    }
}

/// Whether each word passes, whatever it is.
pub fn asks_nothing(test: &ItemTest) -> bool
    ensures { result ≡ tests.asks_nothing test.now }
{
    match test {
        ItemTest::Any => true,
        ItemTest::ByForms(_test) => false,
        ItemTest::ByStem(_stem, _case) => false,
    }
}
