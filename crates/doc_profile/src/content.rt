ghost use Rattle.std.specs.Prelude.{◌≡◌};
ghost use Rattle.doc_grammar.specs.steps.Machine as m;
ghost use Rattle.doc_grammar.specs.Limits.{begins_text, element_here, text_here};
ghost use Rattle.doc_profile.specs.steps.View.{Goes, Stepped, content_of, place_of, start_of, state_of};

use crate::phase::{Phase, Refer};
use crate::reader::Reader;
use ft_base::{Memory, is_char, is_name_start, is_space};

impl Reader {
    #[tactic(auto, using(std::proofs::lemmas::Bool::Decides::nat_tests), unfolding(doc_grammar::specs::steps::Machine::from_ready))]
    pub fn from_ready(&mut self, c: char) -> Result<bool, Memory>
        ensures { Goes result (m.from_ready (place_of self.old) c) (state_of self.new) }
    {
        if c == '<' {
            self.phase = Phase::Opened;
            Ok(true)
        } else if self.is_content() {
            self.from_content(c)
        } else {
            self.phase = Phase::Ready;
            Ok(is_space(c))
        }
    }

    #[tactic(auto, using(std::proofs::lemmas::Bool::Decides::nat_tests))]
    fn from_content(&mut self, c: char) -> Result<bool, Memory>
        ensures { Goes result (content_of (place_of self.old) c) (state_of self.new) }
    {
        if c == '&' {
            self.phase = Phase::Reference {
                refer: Refer::Begun,
            };
            Ok(true)
        } else if is_char(c) {
            self.text.push(c)?;
            self.phase = Phase::Ready;
            Ok(true)
        } else {
            Ok(false)
        }
    }

    /// Whether an element may stand here: a document has one.
    #[tactic(auto, using(std::proofs::lemmas::Bool::Decides::nat_tests, crate::proofs::Readers::none_is))]
    pub fn takes_element(&self) -> bool
        ensures { result ≡ m.takes_element (place_of self.now) }
    {
        self.is_content() || self.kids.is_empty()
    }

    #[tactic(auto, using(std::proofs::lemmas::Bool::Decides::nat_tests), unfolding(doc_grammar::specs::steps::Machine::from_opened))]
    pub fn from_opened(&mut self, c: char) -> Result<bool, Memory>
        ensures { Goes result (m.from_opened (place_of self.old) c) (state_of self.new) }
    {
        match c {
            '!' => {
                self.phase = Phase::Bang;
                Ok(true)
            }
            '?' => {
                self.phase = Phase::Instruction { mark: false };
                Ok(true)
            }
            '/' => self.enter_end_tag(),
            _ => self.enter_start_tag(c),
        }
    }

    #[tactic(auto, using(std::proofs::lemmas::Bool::Decides::nat_tests))]
    fn enter_start_tag(&mut self, c: char) -> Result<bool, Memory>
        ensures { Goes result (start_of (place_of self.old) c) (state_of self.new) }
    {
        if is_name_start(c) && self.takes_element() {
            self.name.clear();
            self.name.push(c)?;
            self.phase = Phase::StartName;
            Ok(true)
        } else {
            Ok(false)
        }
    }

    #[tactic(auto, using(std::proofs::lemmas::Bool::Decides::nat_tests), unfolding(doc_grammar::specs::steps::Machine::from_comment))]
    pub fn from_comment(&mut self, dashes: u8, c: char) -> bool
        ensures { Stepped result (m.from_comment (place_of self.old) dashes c) (state_of self.new) }
    {
        if c == '-' {
            let dashes = if dashes == 0 { 1 } else { 2 };
            self.phase = Phase::Comment { dashes };
            true
        } else if c == '>' && dashes == 2 {
            self.phase = Phase::Ready;
            true
        } else {
            self.phase = Phase::Comment { dashes: 0 };
            is_char(c)
        }
    }

    #[tactic(auto, using(std::proofs::lemmas::Bool::Decides::nat_tests), unfolding(doc_grammar::specs::steps::Machine::from_instruction))]
    pub fn from_instruction(&mut self, mark: bool, c: char) -> bool
        ensures { Stepped result (m.from_instruction (place_of self.old) mark c) (state_of self.new) }
    {
        if c == '?' {
            self.phase = Phase::Instruction { mark: true };
            true
        } else if c == '>' && mark {
            self.phase = Phase::Ready;
            true
        } else {
            self.phase = Phase::Instruction { mark: false };
            is_char(c)
        }
    }
}

impl Reader {
    /// Whether an element begins with the character, after its `<`.
    pub fn begins_element(&self, c: char) -> bool
        ensures { result ≡ element_here (state_of self.now) c }
    {
        match self.phase {
            Phase::Opened => is_name_start(c) && self.takes_element(),
            _ => false,
        }
    }

    /// Whether a text begins with the character.
    pub fn begins_text(&self, after_return: bool, c: char) -> bool
        ensures { result ≡ text_here (state_of self.now) after_return c }
    {
        match self.phase {
            Phase::Ready => self.may_begin_text(after_return, c),
            _ => false,
        }
    }

    /// Whether a text begins with the character, between two items.
    #[tactic(auto, using(std::proofs::lemmas::Bool::Decides::nat_tests, crate::proofs::Readers::empty_is))]
    fn may_begin_text(&self, after_return: bool, c: char) -> bool
        ensures { result ≡ begins_text (place_of self.now) after_return c }
    {
        if c == '\n' && after_return {
            return false;
        }
        if c == '<' {
            return false;
        }
        self.is_content() && self.text.is_empty() && is_char(c)
    }
}
