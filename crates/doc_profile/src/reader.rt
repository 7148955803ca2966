ghost use Rattle.std.specs.Prelude.{◌≡◌, [], string_bytes};
ghost use Rattle.doc_grammar.specs.steps.Machine as m;
ghost use Rattle.doc_profile.specs.steps.View.{Goes, Stepped, outer_of, phase_in, place_of, state_of};

use crate::attributes::TagAttributes;
use crate::phase::Phase;
use ft_base::Memory;
use plain_tree::{Attr, Attrs, Kids, Tree};
use std::alloc::Global;
use std::mem;

/// An open element, with the content that stands before it in the element round it.
#[derive(Drop)]
pub struct Level {
    pub name: String,
    pub attrs: Vec<Attr>,
    pub kids: Vec<Tree>,
    pub text: String,
}

/// What is read of a document or a fragment.
#[derive(Drop)]
pub struct Reader {
    pub alloc: Global,
    /// Whether a fragment is read.
    pub fragment: bool,
    /// The open elements, the innermost last.
    pub levels: Vec<Level>,
    /// The nodes of the content under way, and the text after the last of them.
    pub kids: Vec<Tree>,
    pub text: String,
    pub phase: Phase,
    /// The name of the tag under way, its attributes, and the name and value of the one under way.
    pub name: String,
    pub attrs: TagAttributes,
    pub attr: String,
    pub value: String,
}

impl Reader {
    pub fn new(alloc: Global, fragment: bool) -> Reader
        ensures state { state_of result ≡ m.start (outer_of fragment []) }
        ensures kind { result.fragment ≡ fragment }
    {
        Reader {
            alloc,
            fragment,
            levels: Vec::new(alloc),
            kids: Vec::new(alloc),
            text: String::new(alloc),
            phase: Phase::Ready,
            name: String::new(alloc),
            attrs: TagAttributes::new(alloc),
            attr: String::new(alloc),
            value: String::new(alloc),
        }
    }

    /// Whether characters may stand here.
    #[tactic(auto, using(std::proofs::lemmas::Bool::Decides::nat_tests, crate::proofs::Readers::content_is))]
    pub fn is_content(&self) -> bool
        ensures { result ≡ m.is_content (place_of self.now).outer }
    {
        self.fragment || !self.levels.is_empty()
    }

    /// Takes one character; says whether it may stand here.
    #[tactic(auto, using(std::proofs::lemmas::Bool::Decides::nat_tests), unfolding(doc_grammar::specs::steps::Machine::step_at))]
    pub fn step(&mut self, c: char) -> Result<bool, Memory>
        ensures { Goes result (m.step (state_of self.old) c) (state_of self.new) }
    {
        match self.phase {
            Phase::Ready => self.from_ready(c),
            Phase::Opened => self.from_opened(c),
            Phase::Bang => Ok(self.only('-', c, Phase::BangDash)),
            Phase::BangDash => Ok(self.only('-', c, Phase::Comment { dashes: 0 })),
            Phase::Comment { dashes } => Ok(self.from_comment(dashes, c)),
            Phase::Instruction { mark } => Ok(self.from_instruction(mark, c)),
            Phase::Reference { refer } => self.from_reference(refer, c),
            Phase::EndName { read } => self.from_end_name(read, c),
            Phase::EndSpaced => self.from_end_spaced(c),
            Phase::StartName => self.from_start_name(c),
            Phase::Spaced => self.from_spaced(c),
            Phase::AttrName => self.from_attr_name(c),
            Phase::AttrNamed => Ok(self.from_attr_named(c)),
            Phase::Equals => Ok(self.from_equals(c)),
            Phase::Quoted { quote } => self.from_quoted(quote, c),
            Phase::QuotedReference { quote, refer } => self.from_quoted_reference(quote, refer, c),
            Phase::Valued => self.from_tag(c),
            Phase::Slashed => self.from_slashed(c),
        }
    }

    /// Goes to a phase if the character is the wanted one.
    pub fn only(&mut self, wanted: char, c: char, phase: Phase) -> bool
        ensures { Stepped result
            (m.only wanted c (place_of self.old)
            (phase_in phase (string_bytes self.old.name) self.old.attrs (string_bytes self.old.attr) (string_bytes self.old.value)))
            (state_of self.new) }
    {
        if c == wanted {
            self.phase = phase;
            true
        } else {
            false
        }
    }
}
