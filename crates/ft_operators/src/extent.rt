ghost use Rattle.std.specs.Prelude.{◌≡◌};
ghost use Rattle.ft_operators.specs.Extents.{extent_before, extent_behind, extent_in, extent_of_both, extent_of_either, greatest_value, in_same, lone_size};
ghost use Rattle.ft_operators.specs.Extents.{no_include, one_include, size_of, small, some_includes, spread, untold, where_limited};

use ft_base::{Filter, Range, Unit};

/// How many includes a way has at most, and how large an include is at most: how many words, sentences or paragraphs it has.
#[derive(Clone, Copy)]
pub(crate) struct Extent {
    pub(crate) includes: u32,
    pub(crate) size: u32,
}

/// What is told in words, in sentences and in paragraphs.
#[derive(Clone, Copy)]
pub(crate) struct UnitExtents {
    pub(crate) words: Option<Extent>,
    pub(crate) sentences: Option<Extent>,
    pub(crate) paragraphs: Option<Extent>,
}

/// Nothing is told.
pub(crate) fn untold() -> UnitExtents
    ensures { result ≡ untold }
{
    UnitExtents {
        words: None,
        sentences: None,
        paragraphs: None,
    }
}

/// What is told in the unit.
pub(crate) fn extent_in(unit: Unit, extents: &UnitExtents) -> Option<Extent>
    ensures { result ≡ extent_in unit extents.now }
{
    match unit {
        Unit::Words => extents.words,
        Unit::Sentences => extents.sentences,
        Unit::Paragraphs => extents.paragraphs,
    }
}

/// What a way without includes has.
pub(crate) fn no_include() -> Option<Extent>
    ensures { result ≡ no_include }
{
    Some(Extent {
        includes: 0,
        size: 0,
    })
}

/// What a way of one include has, where the size of this is known.
pub(crate) fn one_include(size: Option<u32>) -> Option<Extent>
    ensures { result ≡ one_include size }
{
    match size {
        None => None,
        Some(size) => Some(Extent { includes: 1, size }),
    }
}

/// A number that is known where it fits.
pub(crate) fn small(number: u64) -> Option<u32>
    ensures { result ≡ small number }
{
    u32::try_from(number).ok()
}

/// What the ways of one side or the other have.
pub(crate) fn extent_of_either(left: Option<Extent>, right: Option<Extent>) -> Option<Extent>
    ensures { result ≡ extent_of_either left right }
{
    let Some(left) = left else { return None };
    let Some(right) = right else { return None };
    Some(Extent {
        includes: left.includes.max(right.includes),
        size: left.size.max(right.size),
    })
}

/// What a way of the one side with a way of the other has.
pub(crate) fn extent_of_both(left: Option<Extent>, right: Option<Extent>) -> Option<Extent>
    ensures { result ≡ extent_of_both left right }
{
    let Some(left) = left else { return None };
    let Some(right) = right else { return None };
    let includes = small(u64::from(left.includes) + u64::from(right.includes));
    some_includes(includes, left.size.max(right.size))
}

fn some_includes(includes: Option<u32>, size: u32) -> Option<Extent>
    ensures { result ≡ some_includes includes size }
{
    match includes {
        None => None,
        Some(includes) => Some(Extent { includes, size }),
    }
}

/// What ways have behind a filter, in the unit.
pub(crate) fn extent_behind(unit: Unit, filter: &Filter, extent: Option<Extent>) -> Option<Extent>
    ensures { result ≡ extent_behind unit filter.now extent }
{
    match *filter {
        Filter::Window(size, other) => one_include(in_same(unit, other, Some(size))),
        Filter::Distance(range, other) => {
            one_include(in_same(unit, other, spread(extent, greatest_value(range))))
        }
        _ => extent,
    }
}

/// A number of one unit, where it is asked for in the same one.
fn in_same(unit: Unit, other: Unit, number: Option<u32>) -> Option<u32>
    ensures { result ≡ in_same unit other number }
{
    match unit {
        Unit::Words => match other {
            Unit::Words => number,
            Unit::Sentences | Unit::Paragraphs => None,
        },
        Unit::Sentences => match other {
            Unit::Sentences => number,
            Unit::Words | Unit::Paragraphs => None,
        },
        Unit::Paragraphs => match other {
            Unit::Paragraphs => number,
            Unit::Words | Unit::Sentences => None,
        },
    }
}

/// What matters of what ways have before a filter: where it is a distance in the unit that is limited, all.
pub(crate) fn extent_before(unit: Unit, filter: &Filter, extent: Option<Extent>) -> Option<Extent>
    ensures { result ≡ extent_before unit filter.now extent }
{
    match *filter {
        Filter::Distance(range, other) => {
            where_limited(in_same(unit, other, greatest_value(range)), extent)
        }
        _ => no_include(),
    }
}

/// The most that a distance in the unit leaves between neighbours, where the filter is one and there is such a number.
pub(crate) fn most_between(unit: Unit, filter: &Filter) -> Option<u32> {
    match *filter {
        Filter::Distance(range, other) => in_same(unit, other, greatest_value(range)),
        _ => None,
    }
}

fn where_limited(gap: Option<u32>, extent: Option<Extent>) -> Option<Extent>
    ensures { result ≡ where_limited gap extent }
{
    match gap {
        None => no_include(),
        Some(_) => extent,
    }
}

/// The greatest value of a range, where it has one.
pub(crate) fn greatest_value(range: Range) -> Option<u32>
    ensures { result ≡ greatest_value range }
{
    match range {
        Range::Exactly(n) | Range::AtMost(n) | Range::FromTo(_, n) => Some(n),
        Range::AtLeast(_) => None,
    }
}

/// How much lies from the first to the last include before a distance which leaves so much between neighbours.
pub(crate) fn spread(extent: Option<Extent>, gap: Option<u32>) -> Option<u32>
    ensures { result ≡ spread extent gap }
{
    let Some(extent) = extent else { return None };
    let Some(gap) = gap else { return None };
    size_of(extent, gap)
}

fn size_of(extent: Extent, gap: u32) -> Option<u32>
    ensures { result ≡ small (size_of extent.includes extent.size gap) }
{
    let includes = u64::from(extent.includes);
    let covered = includes.saturating_mul(u64::from(extent.size));
    let between = includes.saturating_sub(1).saturating_mul(u64::from(gap));
    small(covered.saturating_add(between))
}

/// The size of the one include that a way has, where it has no more.
pub(crate) fn lone_size(extent: Option<Extent>) -> Option<u32>
    ensures { result ≡ lone_size extent }
{
    let Some(extent) = extent else { return None };
    if extent.includes <= 1 {
        Some(extent.size)
    } else {
        None
    }
}
