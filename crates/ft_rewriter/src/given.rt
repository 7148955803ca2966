//! Options given to words.
#![tactic(auto, using(crate::proofs::Views::views), unfolding(crate::specs::Rewriting::given))]

ghost use Rattle.std.specs.Prelude.{◌≡◌, IfOk, map};
ghost use Rattle.all_matches.specs.Meaning as meaning;
ghost use Rattle.ft_rewriter.specs.Rewriting as spec;
ghost use Rattle.ft_rewriter.specs.Rewriting.{each_given};
ghost use Rattle.ft_syntax.specs.View.{form, forms_of};

use ft_base::{Items, Memory, Options, Words};
use ft_syntax::{Selection, Selections, copy_options, copy_words};
use std::alloc::Global;

/// The options that hold inside: of each group the one that stands further in.
fn inside(inner: Options, outer: Options) -> Options
    ensures { result ≡ meaning.inside inner outer }
{
    Options {
        case: inner.case.or(outer.case),
        diacritics_sensitive: inner.diacritics_sensitive.or(outer.diacritics_sensitive),
        stemming: inner.stemming.or(outer.stemming),
        thesaurus: inner.thesaurus.or(outer.thesaurus),
        stop_words: inner.stop_words.or(outer.stop_words),
        language: inner.language.or(outer.language),
        wildcards: inner.wildcards.or(outer.wildcards),
    }
}

/// The same of options that are lent.
fn inside_of(alloc: Global, inner: &Options, outer: &Options) -> Result<Options, Memory>
    ensures { IfOk result (λ options. options ≡ meaning.inside inner.now outer.now) }
{
    let inner = copy_options(alloc, inner)?;
    match copy_options(alloc, outer) {
        Ok(outer) => Ok(inside(inner, outer)),
        Err(fault) => {
            std::mem::drop(inner);
            Err(fault)
        }
    }
}

fn given_words(alloc: Global, outer: &Options, words: &Words) -> Result<Words, Memory>
    ensures { IfOk result (λ given. given ≡ record words.now { options = meaning.inside words.now.options outer.now }) }
{
    let words = copy_words(alloc, words)?;
    match copy_options(alloc, outer) {
        Ok(outer) => Ok(Words {
            options: inside(words.options, outer),
            ..words
        }),
        Err(fault) => {
            std::mem::drop(words);
            Err(fault)
        }
    }
}

/// A copy of a selection in which the options round it and those inside it are given to its words.
#[cycle(giving)]
pub(crate) fn given(
    alloc: Global,
    outer: &Options,
    selection: &Selection,
) -> Result<Selection, Memory>
    ensures { IfOk result (λ given. form given ≡ spec.given outer.now (form selection.now)) }
{
    match selection {
        Selection::Words(words) => Ok(Selection::Words(given_words(alloc, outer, words)?)),
        Selection::Or(parts) => Ok(Selection::Or(all_given(alloc, outer, parts)?)),
        Selection::And(parts) => Ok(Selection::And(all_given(alloc, outer, parts)?)),
        Selection::MildNot(left, right) => Ok(Selection::MildNot(
            boxed_given(alloc, outer, left)?,
            boxed_given(alloc, outer, right)?,
        )),
        Selection::Not(operand) => Ok(Selection::Not(boxed_given(alloc, outer, operand)?)),
        Selection::Filtered(operand, filter) => Ok(Selection::Filtered(
            boxed_given(alloc, outer, operand)?,
            *filter,
        )),
        Selection::With(operand, options) => given_inside(alloc, outer, options, operand),
    }
}

/// The options before the operand come between the outer ones and its words.
#[cycle(giving)]
fn given_inside(
    alloc: Global,
    outer: &Options,
    options: &Options,
    operand: &Box<Selection>,
) -> Result<Selection, Memory>
    ensures { IfOk result (λ given. form given ≡ spec.given (meaning.inside options.now outer.now) (form operand.now.value)) }
{
    let options = inside_of(alloc, options, outer)?;
    let given = given(alloc, &options, operand);
    std::mem::drop(options);
    given
}

#[cycle(giving)]
fn boxed_given(
    alloc: Global,
    outer: &Options,
    operand: &Box<Selection>,
) -> Result<Box<Selection>, Memory>
    ensures { IfOk result (λ given. form given.value ≡ spec.given outer.now (form operand.now.value)) }
{
    let given = given(alloc, outer, operand)?;
    Ok(Box::new(alloc, given)?)
}

#[cycle(giving)]
fn all_given(alloc: Global, outer: &Options, parts: &Selections) -> Result<Selections, Memory>
    ensures { IfOk result (λ all. forms_of (map form all) ≡ each_given outer.now (forms_of (map form parts.now))) }
{
    let mut all = Items::new(alloc);
    for part in parts.as_slice() {
        all.push(given(alloc, outer, part)?)?;
    }
    Ok(all)
}
