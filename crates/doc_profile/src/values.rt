ghost use Rattle.std.specs.Prelude.{◌≡◌, ◌++◌, ◌∷◌, [], OnOk};
ghost use Rattle.doc_grammar.specs.steps.Machine as m;
ghost use Rattle.doc_profile.specs.steps.View.{Goes, Stepped, attr_of, name_of, place_of, state_of, value_of};

use crate::attributes::TagAttributes;
use crate::phase::{Phase, Refer};
use crate::reader::Reader;
use ft_base::{Line, Memory, is_char, is_space};
use plain_tree::Attr;
use std::mem;

impl Reader {
    #[tactic(auto, using(std::proofs::lemmas::Bool::Decides::nat_tests), unfolding(doc_grammar::specs::steps::Machine::from_equals))]
    pub fn from_equals(&mut self, c: char) -> bool
        ensures { Stepped result (m.from_equals (place_of self.old) (name_of self.old) self.old.attrs (attr_of self.old) c) (state_of self.new) }
    {
        if c == '"' || c == '\'' {
            self.value.clear();
            self.phase = Phase::Quoted { quote: c };
            true
        } else {
            self.phase = Phase::Equals;
            is_space(c)
        }
    }

    #[tactic(auto, using(std::proofs::lemmas::Bool::Decides::nat_tests), unfolding(doc_grammar::specs::steps::Machine::from_quoted))]
    pub fn from_quoted(&mut self, quote: char, c: char) -> Result<bool, Memory>
        ensures { Goes result
            (m.from_quoted (place_of self.old) (name_of self.old) self.old.attrs (attr_of self.old) quote (value_of self.old) c) (state_of self.new) }
    {
        if c == quote {
            self.put_attribute()?;
            Ok(true)
        } else if c == '&' {
            self.phase = Phase::QuotedReference {
                quote,
                refer: Refer::Begun,
            };
            Ok(true)
        } else if c == '<' || !is_char(c) {
            Ok(false)
        } else {
            self.value.push(if is_space(c) { ' ' } else { c })?;
            self.phase = Phase::Quoted { quote };
            Ok(true)
        }
    }

    /// Puts the attribute, whose value ends, after the others.
    #[tactic(auto, using(std::proofs::lemmas::Bool::Decides::nat_tests))]
    fn put_attribute(&mut self) -> Result<(), Memory>
        ensures { OnOk result (state_of self.new
            ≡ record {
              place = place_of self.old;
              phase = m.valued (name_of self.old) (self.old.attrs ++ record { name = attr_of self.old; value = value_of self.old } ∷ []);
            }) }
    {
        let name = mem::replace(&mut self.attr, String::new(self.alloc));
        let value = mem::replace(&mut self.value, String::new(self.alloc));
        let attrs = mem::replace(&mut self.attrs, TagAttributes::new(self.alloc));
        let attr = Attr {
            name: Line::from_string(name),
            value: Line::from_string(value),
        };
        self.attrs = attrs.with(self.alloc, attr)?;
        self.phase = Phase::Valued;
        Ok(())
    }
}
