//! Plans: selections compiled with the lists that they name.

ghost use Rattle.std.specs.Prelude.{◌≡◌, IfErr, IfOk, IsTrue, None};
ghost use Rattle.ft_syntax.specs.View.{form};
ghost use Rattle.ft_base.specs.Selection.{no_options};
ghost use Rattle.counted_shapes.specs.Accepted.{is_accepted};
ghost use Rattle.plan_compiler.specs.CompiledSelection.{Compiles};
ghost use Rattle.plan_compiler.specs.Missing.{first_missing, IsMissing};
ghost use Rattle.plan_compiler.specs.Served.{is_served};

use crate::chosen::none_chosen;
use crate::compiling::compile;
use crate::fault::CompileFault;
use crate::lists::Lists;
use crate::looks::Looks;
use crate::missing::missing_list;
use crate::node::Node;
use crate::served::is_served;
use ft_base::{Line, Memory};
use ft_rewriter::rewrite;
use ft_syntax::{Selection, copy_selection};
use std::alloc::Global;

/// A selection, compiled with the lists that it names. Truth values and counts tell whether a text satisfies what stands outside filters
/// and `not in`; under them the ways tell it, in which hits may be chosen.
#[derive(Drop)]
pub struct Plan {
    selection: Selection,
    /// The lists with which it was compiled.
    pub lists: Lists,
    /// What it looks at of the words of a text.
    pub looks: Looks,
    /// The selection, compiled.
    pub root: Node,
    pub ghost accepted: { IsTrue (is_accepted (form selection)) },
    pub ghost sound: { Compiles looks lists no_options root (form selection) },
}

impl Plan {
    ghost use Rattle.plan_compiler.specs.PlanMeaning.{plan_form, plan_lists};

    /// The plan of a selection, as every selection is that is read. A list that it names and that isn't there is a fault: the first one in the
    /// order of its printed form. The plan shares the lists.
    pub fn compile(
        alloc: Global,
        selection: &Selection,
        lists: &Lists,
    ) -> Result<Plan, CompileFault>
        requires { IsTrue (is_accepted (form selection.now)) }
        ensures of { IfOk result (λ plan. plan_form plan ≡ form selection.now) }
        ensures lists { IfOk result (λ plan. plan_lists plan ≡ lists.now) }
        ensures there { IfOk result (λ _. first_missing lists.now (form selection.now) ≡ None) }
        ensures missing { IfErr result (λ fault. IsMissing fault (first_missing lists.now (form selection.now))) }
    {
        if let Some(name) = missing_list(selection, lists) {
            let name = Line::read(alloc, name)?;
            return Err(CompileFault::NoSuchList { name });
        }
        let (looks, root) = compile_rewritten(alloc, selection, lists)?;
        match copies_of(alloc, selection, lists) {
            Ok((selection, lists)) => Ok(Plan {
                selection,
                lists,
                looks,
                root,
            }),
            Err(_memory) => {
                drop(root);
                Err(CompileFault::Memory)
            }
        }
    }

    /// The selection with which it was compiled, as it was read.
    pub fn selection(&self) -> &Selection
        ensures { form result.now ≡ plan_form self.now }
    {
        &self.selection
    }
}

/// What is compiled in the place of the selection: a simpler one, which the same texts satisfy and which costs no more.
fn compile_rewritten(
    alloc: Global,
    selection: &Selection,
    lists: &Lists,
) -> Result<(Looks, Node), Memory>
    requires { IsTrue (is_accepted (form selection.now)) }
    ensures { IfOk result (λ made. Compiles made.0 lists.now no_options made.1 (form selection.now)) }
{
    let simple = rewrite(alloc, selection)?;
    let made = compile_simple(alloc, &simple, lists);
    drop(simple);
    made
}

/// The selection compiled, and what it looks at of each word of a text.
fn compile_simple(
    alloc: Global,
    selection: &Selection,
    lists: &Lists,
) -> Result<(Looks, Node), Memory>
    requires { IsTrue (is_accepted (form selection.now)) }
    ensures { IfOk result (λ made. Compiles made.0 lists.now no_options made.1 (form selection.now)) }
{
    let looks = looks_of(selection);
    let root = compile(alloc, lists, looks, &none_chosen(), selection)?;
    Ok((looks, root))
}

/// A copy of the selection, and one of the lists, which shares the lists themselves.
fn copies_of(
    alloc: Global,
    selection: &Selection,
    lists: &Lists,
) -> Result<(Selection, Lists), Memory>
    ensures selection { IfOk result (λ copies. form copies.0 ≡ form selection.now) }
    ensures lists { IfOk result (λ copies. copies.1 ≡ lists.now) }
{
    let lists = lists.copy()?;
    match copy_selection(alloc, selection) {
        Ok(selection) => Ok((selection, lists)),
        Err(memory) => {
            drop(lists);
            Err(memory)
        }
    }
}

/// The least that has to be looked at of each word of a text.
pub(crate) fn looks_of(selection: &Selection) -> Looks
    ensures { IsTrue (is_served result (form selection.now)) }
{
    let all_forms = !is_served(
        Looks {
            all_forms: false,
            stems: true,
        },
        selection,
    );
    let without_stems = Looks {
        all_forms,
        stems: false,
    };
    if is_served(without_stems, selection) {
        return without_stems;
    }
    Looks {
        all_forms,
        stems: true,
    }
}
