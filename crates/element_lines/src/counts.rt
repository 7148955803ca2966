ghost use Rattle.std.specs.Prelude.{◌≡◌, ◌+◌, ◌<◌, ◌^◌, ℕ, List, Some, IfOk, OnOk, if◌then◌else◌};
ghost use Rattle.std.specs.Str.{bytes_eq};
ghost use Rattle.element_lines.specs.steps.Counts.{count_among, count_of, is_last};

use ft_base::Memory;
use std::alloc::Global;
use std::collections::HashMap;

/// How many elements of each name there were. That of the name that came last is kept beside the others, so that elements of one name
/// that follow each other are counted without a search.
#[derive(Drop)]
pub(crate) struct Counts<'a> {
    last: Option<&'a str>,
    number: u32,
    others: HashMap<&'a str, u32>,
}

impl<'a> Counts<'a> {
    /// None of any name.
    pub(crate) fn new(alloc: Global) -> Counts<'a>
        ensures { (name : List ℕ) → count_of result name ≡ 0 }
    {
        Counts {
            last: None,
            number: 0,
            others: HashMap::new(alloc),
        }
    }
}

/// Counts one more element of the name, and answers its number among those of the name.
pub(crate) fn count_name<'a>(counts: &mut Counts<'a>, name: &'a str) -> Result<u32, Memory>
    requires { count_of counts.old name.now + 1 < 2 ^ 32 }
    ensures number { IfOk result (λ number. number ≡ count_of counts.old name.now + 1) }
    ensures counted { OnOk result ((other : List ℕ) →
        count_of counts.new other ≡ count_of counts.old other + (if bytes_eq other name.now then 1 else 0)) }
{
    turn_to(counts, name)?;
    counts.number += 1;
    Ok(counts.number)
}

/// Makes it the name that came last.
fn turn_to<'a>(counts: &mut Counts<'a>, name: &'a str) -> Result<(), Memory>
    ensures same { OnOk result ((other : List ℕ) → count_of counts.new other ≡ count_of counts.old other) }
    ensures last { OnOk result ((other : List ℕ) → is_last counts.new.last other ≡ bytes_eq name.now other) }
{
    if has_come_last(counts, name) {
        return Ok(());
    }
    put_last(counts)?;
    counts.number = counts.others.get(name).copied().unwrap_or(0);
    counts.last = Some(name);
    Ok(())
}

/// Puts the count of the name that came last to those of the others.
fn put_last(counts: &mut Counts<'_>) -> Result<(), Memory>
    ensures { OnOk result ((other : List ℕ) → count_among counts.new.others other ≡ count_of counts.old other) }
{
    if let Some(last) = counts.last {
        counts.others.insert(last, counts.number)?;
    }
    Ok(())
}

/// Whether it is the name that came last.
fn has_come_last(counts: &Counts<'_>, name: &str) -> bool
    ensures { result ≡ is_last counts.now.last name.now }
{
    match counts.last {
        Some(last) => last == name,
        None => false,
    }
}
