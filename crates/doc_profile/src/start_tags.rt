ghost use Rattle.std.specs.Prelude.{◌≡◌, OnOk};
ghost use Rattle.doc_grammar.specs.steps.Machine as m;
ghost use Rattle.doc_profile.specs.steps.View.{Goes, Stepped, attr_of, name_of, place_of, state_of};

use crate::attributes::TagAttributes;
use crate::end_tags::with_node;
use crate::phase::Phase;
use crate::reader::{Level, Reader};
use ft_base::{Items, Line, Memory, is_name_char, is_name_start, is_space};
use plain_tree::Tree;
use std::mem;

impl Reader {
    #[tactic(auto, using(std::proofs::lemmas::Bool::Decides::nat_tests), unfolding(doc_grammar::specs::steps::Machine::from_start_name))]
    pub fn from_start_name(&mut self, c: char) -> Result<bool, Memory>
        ensures { Goes result (m.from_start_name (place_of self.old) (name_of self.old) c) (state_of self.new) }
    {
        if is_name_char(c) {
            self.name.push(c)?;
            self.phase = Phase::StartName;
            Ok(true)
        } else {
            self.attrs = TagAttributes::new(self.alloc);
            self.from_tag(c)
        }
    }

    /// After a tag's name or one of its attributes, and perhaps white space.
    #[tactic(auto, using(std::proofs::lemmas::Bool::Decides::nat_tests), unfolding(doc_grammar::specs::steps::Machine::from_tag))]
    pub fn from_tag(&mut self, c: char) -> Result<bool, Memory>
        ensures { Goes result (m.from_tag (place_of self.old) (name_of self.old) self.old.attrs c) (state_of self.new) }
    {
        if c == '>' {
            self.enter()?;
            Ok(true)
        } else if c == '/' {
            self.phase = Phase::Slashed;
            Ok(true)
        } else {
            self.phase = Phase::Spaced;
            Ok(is_space(c))
        }
    }

    /// Enters the element whose start tag ends.
    #[tactic(auto, using(std::proofs::lemmas::Bool::Decides::nat_tests, crate::proofs::Readers::outer_push))]
    fn enter(&mut self) -> Result<(), Memory>
        ensures { OnOk result (m.at (m.entered (place_of self.old) (name_of self.old) self.old.attrs) m.ready ≡ Some (state_of self.new)) }
    {
        let level = Level {
            name: mem::replace(&mut self.name, String::new(self.alloc)),
            attrs: self.attrs.take_all(self.alloc),
            kids: mem::replace(&mut self.kids, Vec::new(self.alloc)),
            text: mem::replace(&mut self.text, String::new(self.alloc)),
        };
        self.levels.push(level)?;
        self.phase = Phase::Ready;
        Ok(())
    }

    #[tactic(auto, using(std::proofs::lemmas::Bool::Decides::nat_tests), unfolding(doc_grammar::specs::steps::Machine::from_spaced))]
    pub fn from_spaced(&mut self, c: char) -> Result<bool, Memory>
        ensures { Goes result (m.from_spaced (place_of self.old) (name_of self.old) self.old.attrs c) (state_of self.new) }
    {
        if is_name_start(c) {
            self.attr.clear();
            self.attr.push(c)?;
            self.phase = Phase::AttrName;
            Ok(true)
        } else {
            self.from_tag(c)
        }
    }

    #[tactic(auto, using(std::proofs::lemmas::Bool::Decides::nat_tests, plain_tree::proofs::Views::views), unfolding(
    // a tag that a slash ends
    doc_grammar::specs::steps::Machine::from_slashed))]
    pub fn from_slashed(&mut self, c: char) -> Result<bool, Memory>
        ensures { Goes result (m.from_slashed (place_of self.old) (name_of self.old) self.old.attrs c) (state_of self.new) }
    {
        if c != '>' {
            return Ok(false);
        }
        let element = Tree::Elem {
            name: Line::from_string(mem::replace(&mut self.name, String::new(self.alloc))),
            attrs: Items::from_vec(self.attrs.take_all(self.alloc)),
            kids: Items::new(self.alloc),
        };
        let kids = mem::replace(&mut self.kids, Vec::new(self.alloc));
        let text = mem::replace(&mut self.text, String::new(self.alloc));
        self.kids = with_node(kids, text, element)?;
        self.phase = Phase::Ready;
        Ok(true)
    }

    #[tactic(auto, using(std::proofs::lemmas::Bool::Decides::nat_tests), unfolding(doc_grammar::specs::steps::Machine::from_attr_name))]
    pub fn from_attr_name(&mut self, c: char) -> Result<bool, Memory>
        ensures { Goes result (m.from_attr_name (place_of self.old) (name_of self.old) self.old.attrs (attr_of self.old) c) (state_of self.new) }
    {
        if is_name_char(c) {
            self.attr.push(c)?;
            self.phase = Phase::AttrName;
            Ok(true)
        } else if self.attrs.has_name(self.attr.as_str()) {
            Ok(false)
        } else {
            Ok(self.from_attr_named(c))
        }
    }

    #[tactic(auto, using(std::proofs::lemmas::Bool::Decides::nat_tests), unfolding(doc_grammar::specs::steps::Machine::from_attr_named))]
    pub fn from_attr_named(&mut self, c: char) -> bool
        ensures { Stepped result (m.from_attr_named (place_of self.old) (name_of self.old) self.old.attrs (attr_of self.old) c) (state_of self.new) }
    {
        if c == '=' {
            self.phase = Phase::Equals;
            true
        } else {
            self.phase = Phase::AttrNamed;
            is_space(c)
        }
    }
}
