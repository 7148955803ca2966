//! The text of a document's name, and of steps.

ghost use Rattle.std.specs.Prelude.{◌≡◌, ◌++◌, OnOk, codes, encode_utf8, flat_map, string_bytes};
ghost use Rattle.element_lines.specs.Lines.{name_byte, place_line, step_text};
ghost use Rattle.element_lines.specs.LocationSteps.{step};
ghost use Rattle.std.specs.Prelude.{[], ◌∷◌};

use ft_base::Memory;
use itoa::Buffer;

/// Puts a letter of a document's name to the end: a quotation mark twice.
#[tactic(auto, using(crate::proofs::NameLemmas::name_letter))]
fn push_letter(letter: char, text: &mut String) -> Result<(), Memory>
    ensures { OnOk result (string_bytes text.new ≡ string_bytes text.old ++ flat_map name_byte (encode_utf8 letter)) }
{
    if letter == '"' {
        text.push_str("\"\"")?;
    } else {
        text.push(letter)?;
    }
    Ok(())
}

/// Puts a document's name to the end, as it stands in quotation marks.
fn push_name(document: &str, text: &mut String) -> Result<(), Memory>
    ensures { OnOk result (string_bytes text.new ≡ string_bytes text.old ++ flat_map name_byte document.now) }
{
    for letter in document.chars() {
        push_letter(letter, text)?;
    }
    Ok(())
}

/// Puts `doc("NAME")` to the end.
pub(crate) fn push_document(document: &str, text: &mut String) -> Result<(), Memory>
    ensures { OnOk result (string_bytes text.new ≡ string_bytes text.old ++ codes "doc(\"" ++ flat_map name_byte document.now ++ codes "\")") }
{
    text.push_str("doc(\"")?;
    push_name(document, text)?;
    text.push_str("\")")?;
    Ok(())
}

/// Puts a step to the end.
pub(crate) fn push_step(name: &str, number: u32, text: &mut String) -> Result<(), Memory>
    ensures { OnOk result (string_bytes text.new ≡ string_bytes text.old ++ step_text (step name.now number)) }
{
    let mut digits = Buffer::new();
    text.push('/')?;
    text.push_str(name)?;
    text.push('[')?;
    text.push_str(digits.format(number))?;
    text.push(']')?;
    Ok(())
}

/// Puts a text to the end, and a step after it.
pub(crate) fn push_after(
    before: &str,
    name: &str,
    number: u32,
    text: &mut String,
) -> Result<(), Memory>
    ensures { OnOk result (string_bytes text.new ≡ string_bytes text.old ++ before.now ++ step_text (step name.now number)) }
{
    text.push_str(before)?;
    push_step(name, number, text)
}

/// Puts the line of a root to the end.
pub(crate) fn push_root(document: &str, name: &str, text: &mut String) -> Result<(), Memory>
    ensures { OnOk result (string_bytes text.new ≡ string_bytes text.old ++ place_line document.now (step name.now 1 ∷ [])) }
{
    push_document(document, text)?;
    push_step(name, 1, text)
}
