ghost use Rattle.std.specs.Prelude.{◌≡◌, ◌≤◌, ◌+◌, ◌*◌, if◌then◌else◌, nat_le};
ghost use Rattle.ft_base.specs.Characters as chars;
ghost use Rattle.doc_grammar.specs.steps.Machine as m;
ghost use Rattle.doc_profile.specs.steps.View.{Goes, attr_of, judged_of, meaning_of, name_of, place_of, refer_of, spelling_of, state_of, value_of};

use crate::phase::{Entity, Phase, Refer};
use crate::reader::Reader;
use ft_base::{Memory, is_char};

/// What a character makes of a reference.
#[derive(Clone, Copy, PartialEq, Eq)]
pub enum Judged {
    /// It can't stand there.
    Refused,
    /// The reference goes on.
    Going(Refer),
    /// The reference ends and gives this character.
    Gives(char),
}

/// The name and its semicolon.
fn spelling(entity: Entity) -> &'static [u8]
    ensures { result.now ≡ spelling_of entity }
{
    match entity {
        Entity::Less => b"lt;",
        Entity::Greater => b"gt;",
        Entity::Ampersand => b"amp;",
        Entity::Quotation => b"quot;",
        Entity::Apostrophe => b"apos;",
    }
}

fn meaning(entity: Entity) -> char
    ensures { result ≡ meaning_of entity }
{
    match entity {
        Entity::Less => '<',
        Entity::Greater => '>',
        Entity::Ampersand => '&',
        Entity::Quotation => '"',
        Entity::Apostrophe => '\'',
    }
}

/// What the next character makes of a reference.
#[tactic(auto, using(std::proofs::lemmas::Bool::Decides::nat_tests), unfolding(doc_grammar::specs::steps::Machine::refer))]
pub fn judge(refer: Refer, c: char) -> Judged
    ensures { judged_of result ≡ m.refer (refer_of refer) c }
{
    match refer {
        Refer::Begun => judge_first(c),
        Refer::BegunA => judge_second(c),
        Refer::Named { entity, read } => judge_named(entity, read, c),
        Refer::Numbered => {
            if c == 'x' {
                Judged::Going(Refer::Hexed)
            } else {
                judge_first_digit(false, c)
            }
        }
        Refer::Hexed => judge_first_digit(true, c),
        Refer::Digits {
            hexadecimal,
            number,
        } => judge_digit(hexadecimal, number, c),
    }
}

#[tactic(auto, using(std::proofs::lemmas::Bool::Decides::nat_tests))]
fn judge_first(c: char) -> Judged
    ensures { judged_of result ≡ m.refer_begun c }
{
    match c {
        'l' => Judged::Going(Refer::Named {
            entity: Entity::Less,
            read: 1,
        }),
        'g' => Judged::Going(Refer::Named {
            entity: Entity::Greater,
            read: 1,
        }),
        'q' => Judged::Going(Refer::Named {
            entity: Entity::Quotation,
            read: 1,
        }),
        'a' => Judged::Going(Refer::BegunA),
        '#' => Judged::Going(Refer::Numbered),
        _ => Judged::Refused,
    }
}

#[tactic(auto, using(std::proofs::lemmas::Bool::Decides::nat_tests))]
fn judge_second(c: char) -> Judged
    ensures { judged_of result ≡ m.refer_begun_a c }
{
    match c {
        'm' => Judged::Going(Refer::Named {
            entity: Entity::Ampersand,
            read: 2,
        }),
        'p' => Judged::Going(Refer::Named {
            entity: Entity::Apostrophe,
            read: 2,
        }),
        _ => Judged::Refused,
    }
}

#[tactic(auto, using(std::proofs::lemmas::Bool::Decides::nat_tests))]
fn judge_named(entity: Entity, read: usize, c: char) -> Judged
    ensures { judged_of result ≡ m.refer (refer_of (Refer.Named entity read)) c }
{
    let name = spelling(entity);
    if read >= name.len() || name[read] as char != c {
        return Judged::Refused;
    }
    let read = read + 1;
    if read == name.len() {
        Judged::Gives(meaning(entity))
    } else {
        Judged::Going(Refer::Named { entity, read })
    }
}

fn base(hexadecimal: bool) -> u32
    ensures value { result ≡ m.base hexadecimal }
    ensures low { 2 ≤ result }
    ensures high { result ≤ 16 }
{
    if hexadecimal { 16 } else { 10 }
}

#[tactic(auto, using(std::proofs::lemmas::Bool::Decides::nat_tests))]
fn judge_first_digit(hexadecimal: bool, c: char) -> Judged
    ensures { judged_of result ≡ m.refer_first hexadecimal c }
{
    match c.to_digit(base(hexadecimal)) {
        Some(number) => Judged::Going(Refer::Digits {
            hexadecimal,
            number,
        }),
        None => Judged::Refused,
    }
}

#[tactic(auto, using(std::proofs::lemmas::Bool::Decides::nat_tests))]
fn judge_digit(hexadecimal: bool, number: u32, c: char) -> Judged
    ensures { judged_of result ≡ m.refer_digits hexadecimal number c }
{
    if c == ';' {
        return judge_number(number);
    }
    match c.to_digit(base(hexadecimal)) {
        Some(digit) => judge_next_digit(hexadecimal, number, digit),
        None => Judged::Refused,
    }
}

#[tactic(auto, using(std::proofs::lemmas::Bool::Decides::nat_tests))]
fn judge_next_digit(hexadecimal: bool, number: u32, digit: u32) -> Judged
    ensures { judged_of result
        ≡ (if nat_le (number * m.base hexadecimal + digit) 0x10_FFFF then m.going (m.digits hexadecimal (number * m.base hexadecimal + digit)) else m.refused) }
{
    let number = number as u64 * base(hexadecimal) as u64 + digit as u64;
    if number <= 0x10_FFFF {
        Judged::Going(Refer::Digits {
            hexadecimal,
            number: number as u32,
        })
    } else {
        Judged::Refused
    }
}

#[tactic(auto, using(std::proofs::lemmas::Bool::Decides::nat_tests, crate::proofs::Readers::out_of_range))]
fn judge_number(number: u32) -> Judged
    ensures { judged_of result ≡ (if chars.is_char number then m.gives number else m.refused) }
{
    match char::from_u32(number) {
        Some(c) => {
            if is_char(c) {
                Judged::Gives(c)
            } else {
                Judged::Refused
            }
        }
        None => Judged::Refused,
    }
}

impl Reader {
    #[tactic(auto, using(std::proofs::lemmas::Bool::Decides::nat_tests))]
    pub fn from_reference(&mut self, refer: Refer, c: char) -> Result<bool, Memory>
        ensures { Goes result (m.judged (place_of self.old) (m.refer (refer_of refer) c)) (state_of self.new) }
    {
        match judge(refer, c) {
            Judged::Refused => Ok(false),
            Judged::Going(refer) => {
                self.phase = Phase::Reference { refer };
                Ok(true)
            }
            Judged::Gives(c) => {
                self.text.push(c)?;
                self.phase = Phase::Ready;
                Ok(true)
            }
        }
    }

    pub fn from_quoted_reference(
        &mut self,
        quote: char,
        refer: Refer,
        c: char,
    ) -> Result<bool, Memory>
        ensures { Goes result
            (m.judged_quoted (place_of self.old) (name_of self.old) self.old.attrs (attr_of self.old) quote (value_of self.old)
            (m.refer (refer_of refer) c)) (state_of self.new) }
    {
        match judge(refer, c) {
            Judged::Refused => Ok(false),
            Judged::Going(refer) => {
                self.phase = Phase::QuotedReference { quote, refer };
                Ok(true)
            }
            Judged::Gives(c) => {
                self.value.push(c)?;
                self.phase = Phase::Quoted { quote };
                Ok(true)
            }
        }
    }
}
