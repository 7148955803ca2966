//! Patterns with wildcards, ready to be compared with words.

ghost use Rattle.std.specs.Prelude.{◌≡◌, ◌≤◌, ◌++◌, ◌∷◌, [], ℕ, List, Err, Some, None, IfOk, OnErr, OnOk, map, option_map, length, chars, encode_utf8_all};
ghost use Rattle.match_options.specs.PlaceRows.{place_count};
ghost use Rattle.match_options.specs.declared.atom.Atom as the;
ghost use Rattle.match_options.specs.declared.atom.Atom.TheVariants.{Letter};
ghost use Rattle.match_options.specs.Wildcards as spec;

use crate::atom::Atom;
use crate::comparing::{case_of, is_on};
use crate::covering::{covers, covers_kept};
use crate::pattern::pattern_atoms;
use crate::place_row::PlaceRow;
use ft_base::{Case, Line, Memory, Options, letters_of, text_of};
use std::alloc::{AllocFailed, Global};
use text_forms::{exact, key, plain_case, plain_marks};

/// A pattern, its literals in the form that the options choose.
#[derive(Drop)]
pub struct Wild {
    alloc: Global,
    atoms: Vec<Atom>,
}

/// Why a pattern isn't read.
#[derive(Clone, Copy, PartialEq, Eq)]
pub enum WildFault {
    /// It is badly formed.
    BadWildcard,
    Memory,
}

impl From<Memory> for WildFault {
    ghost use Rattle.std.specs.Prelude.{◌≡◌};
    ghost use Rattle.match_options.specs.declared.wild.WildFault.TheVariants as Fault;

    ghost from_gives = { λ _ fault. fault ≡ Fault.Memory };

    fn from(_memory: Memory) -> WildFault {
        WildFault::Memory
    }
}

impl Wild {
    /// Reads a pattern. Each run of its literals is put through the form that the options choose.
    pub fn read(alloc: Global, pattern: &str, options: &Options) -> Result<Wild, WildFault>
        ensures read { IfOk result (λ wild. Some wild.atoms.items ≡ spec.pattern_of options.now pattern.now) }
        ensures bad { result ≡ Err WildFault.BadWildcard → spec.pattern_of options.now pattern.now ≡ None }
    {
        let case = case_of(options);
        let marks = is_on(options.diacritics_sensitive);
        match Wild::read_in(alloc, pattern, case, marks)? {
            Some(wild) => Ok(wild),
            None => Err(WildFault::BadWildcard),
        }
    }

    /// The pattern in the form that case and diacritics choose, unless it is badly formed.
    pub(crate) fn read_in(
        alloc: Global,
        pattern: &str,
        case: Case,
        marks: bool,
    ) -> Result<Option<Wild>, Memory>
        ensures { IfOk result (λ wild. option_map (λ w. w.atoms.items) wild ≡ spec.pattern_in case marks pattern.now) }
    {
        match pattern_atoms(alloc, pattern)? {
            None => Ok(None),
            Some(atoms) => {
                let atoms = formed(alloc, case, marks, &atoms)?;
                Ok(Some(Wild { alloc, atoms }))
            }
        }
    }

    /// Whether the pattern covers a word, given in the form that the options choose. It always answers. It takes as many steps at most as
    /// the pattern has atoms times the word has characters; it takes more only where a word of 1,024 characters or more meets want of memory.
    pub fn accepts(&self, form: &str) -> bool
        ensures { result ≡ spec.covers self.now.atoms.items (chars form.now) }
    {
        covers(self.alloc, self.atoms.as_slice(), form)
    }

    /// The same in a row of places that is kept from one word to the next. No place is looked at more often than the pattern has atoms, and
    /// memory runs out only where the row has no room for the word.
    pub fn accepts_in(&self, form: &str, row: &mut PlaceRow) -> Result<bool, Memory>
        ensures known { IfOk result (λ accepted. accepted ≡ spec.covers self.now.atoms.items (chars form.now)) }
        ensures short { OnErr result (place_count row.old ≤ length (chars form.now)) }
    {
        covers_kept(self.atoms.as_slice(), form, row)
    }
}

/// The atoms, each run of letters put through the form.
fn formed(alloc: Global, case: Case, marks: bool, atoms: &[Atom]) -> Result<Vec<Atom>, Memory>
    ensures { IfOk result (λ out. out.items ≡ spec.formed (spec.form_by case marks) [] atoms.now) }
{
    let mut out = Vec::new(alloc);
    let mut run = Vec::new(alloc);
    for atom in atoms {
        pass_atom(alloc, case, marks, &mut out, &mut run, *atom)?;
    }
    end_run(alloc, case, marks, &mut out, &run)?;
    Ok(out)
}

/// Adds a letter to the run, or ends the run before a gap.
fn pass_atom(
    alloc: Global,
    case: Case,
    marks: bool,
    out: &mut Vec<Atom>,
    run: &mut Vec<char>,
    atom: Atom,
) -> Result<(), Memory>
    ensures { OnOk result ((rest : List the.Atom) →
        out.new.items ++ spec.formed (spec.form_by case marks) run.new.items rest
        ≡ out.old.items ++ spec.formed (spec.form_by case marks) run.old.items (atom ∷ rest)) }
{
    match atom {
        Atom::Letter(letter) => {
            run.push(letter)?;
        }
        Atom::Gap(_low, _high) => {
            end_run(alloc, case, marks, out, run.as_slice())?;
            run.clear();
            out.push(atom)?;
        }
    }
    Ok(())
}

/// Puts the form of a run of letters to the end.
fn end_run(
    alloc: Global,
    case: Case,
    marks: bool,
    out: &mut Vec<Atom>,
    run: &[char],
) -> Result<(), Memory>
    ensures { OnOk result (out.new.items ≡ out.old.items ++ map Letter (spec.form_by case marks run.now)) }
{
    let text = text_of(alloc, run)?;
    let form = form_by(alloc, case, marks, text.as_str())?;
    let letters = letters_of(alloc, form.as_str())?;
    for letter in &letters {
        out.push(Atom::Letter(*letter))?;
    }
    Ok(())
}

/// The form of a text that case and diacritics choose.
#[tactic(auto, unfolding(
// a word as it is, and without marks
text_forms::specs::Forms::exact_of, text_forms::specs::Forms::plain_marks_of,
// without case, and without both
text_forms::specs::Forms::plain_case_of, text_forms::specs::Forms::key_of))]
fn form_by(alloc: Global, case: Case, marks: bool, text: &str) -> Result<Line, Memory>
    ensures { IfOk result (λ line. line ≡ encode_utf8_all (spec.form_by case marks (chars text.now))) }
{
    match (case, marks) {
        (Case::Sensitive, true) => exact(alloc, text),
        (Case::Sensitive, false) => plain_marks(alloc, text),
        (_, true) => plain_case(alloc, text),
        (_, false) => key(alloc, text),
    }
}
