//! Through which ways of a node a walk goes, and where it seeks hits.

ghost use Rattle.std.specs.Prelude.{◌≡◌, None};
ghost use Rattle.ft_operators.specs.Bounds.{everywhere, no_reach};
ghost use Rattle.ft_operators.specs.Course.{course_inside, every, firsts, tellings};

use crate::bounds::Bounds;
use crate::extent::{Extent, UnitExtents, untold};
use crate::narrowing::{bounds_inside, reach_inside};
use crate::reach::{Reach, no_reach};
use ft_base::{Filter, Span};

/// Through which ways of a node a walk goes: those in this item, with those windows, whose includes lie in the bounds, but for
/// those that the filters round the node don't let through.
#[derive(Clone, Copy)]
pub(crate) struct Course {
    pub(crate) item: Span,
    pub(crate) windows: Windows,
    pub(crate) bounds: Bounds,
    pub(crate) reach: Reach,
    /// What the ways have before the distances inside in each unit, where it is known.
    pub(crate) extents: UnitExtents,
    /// What the ways of right sides of mild nots have, where it is known.
    pub(crate) beside: Option<Extent>,
}

/// Which windows of a window filter a walk goes through, in each way of the filter's operand.
#[derive(Clone, Copy)]
pub(crate) enum Windows {
    /// Each.
    Each,
    /// Those that can tell whether some window leaves no exclude. One that begins before the first word keeps no
    /// less than the first one does, so that this stands for all of them.
    Telling,
    /// The first one. The includes after the filter are the same through each.
    First,
}

/// The course of a whole node, through each window.
pub(crate) fn every(item: Span) -> Course
    ensures { result ≡ every item }
{
    unbounded(item, Windows::Each, untold(), None)
}

/// The course of a whole node, through the windows that tell whether a way is clean, where the ways have so much before the
/// distances inside, and those of right sides of mild nots so much.
pub(crate) fn tellings(item: Span, extents: UnitExtents, beside: Option<Extent>) -> Course
    ensures { result ≡ tellings item extents beside }
{
    unbounded(item, Windows::Telling, extents, beside)
}

/// The course of the operand of a negated selection, through the first window of each filter, whose includes lie in the
/// bounds.
pub(crate) fn firsts(
    item: Span,
    bounds: Bounds,
    extents: UnitExtents,
    beside: Option<Extent>,
) -> Course
    ensures { result ≡ firsts item bounds extents beside }
{
    Course {
        item,
        windows: Windows::First,
        bounds,
        reach: no_reach(),
        extents,
        beside,
    }
}

fn unbounded(item: Span, windows: Windows, extents: UnitExtents, beside: Option<Extent>) -> Course
    ensures { result ≡ record { item = item; windows = windows; bounds = everywhere; reach = no_reach; extents = extents; beside = beside } }
{
    Course {
        item,
        windows,
        bounds: Bounds::everywhere(),
        reach: no_reach(),
        extents,
        beside,
    }
}

/// The course of the operand of a filter.
pub(crate) fn course_inside(course: Course, kind: &Filter) -> Course
    ensures { result ≡ course_inside kind.now course }
{
    Course {
        item: course.item,
        windows: course.windows,
        bounds: bounds_inside(course.windows, kind, course.bounds),
        reach: reach_inside(course.windows, course.extents, kind, course.reach),
        extents: course.extents,
        beside: course.beside,
    }
}
