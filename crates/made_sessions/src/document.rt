ghost use Rattle.std.specs.Prelude.{◌≡◌, ◌≤◌, ◌++◌, OnOk, codes, string_bytes};
ghost use Rattle.std.specs.Fmt.{decimal};
ghost use Rattle.made_sessions.specs.Made as spec;
ghost use Rattle.made_sessions.specs.Made.{word};

use ft_base::Memory;
use itoa::Buffer;

fn push_number(text: &mut String, number: u32) -> Result<(), Memory>
    ensures { OnOk result (string_bytes text.new ≡ string_bytes text.old ++ decimal number) }
{
    let mut digits = Buffer::new();
    text.push_str(digits.format(number))?;
    Ok(())
}

fn push_word(text: &mut String, number: u32) -> Result<(), Memory>
    ensures { OnOk result (string_bytes text.new ≡ string_bytes text.old ++ word number) }
{
    text.push_str("t")?;
    push_number(text, number % 1000)
}

fn push_further_word(text: &mut String, number: u32) -> Result<(), Memory>
    ensures { OnOk result (string_bytes text.new ≡ string_bytes text.old ++ (codes " " ++ word number)) }
{
    text.push_str(" ")?;
    push_word(text, number)
}

/// Twenty words in a row, from the one of this number on.
fn push_words(text: &mut String, first: u32) -> Result<(), Memory>
    requires { first ≤ 5_000 }
    ensures { OnOk result (string_bytes text.new ≡ string_bytes text.old ++ spec.words first) }
{
    push_word(text, first)?;
    for further in 1..20 {
        push_further_word(text, first + further)?;
    }
    Ok(())
}

fn push_paragraph(text: &mut String, first: u32) -> Result<(), Memory>
    requires { first ≤ 5_000 }
    ensures { OnOk result (string_bytes text.new ≡ string_bytes text.old ++ spec.paragraph first) }
{
    text.push_str("<p>")?;
    push_words(text, first)?;
    text.push_str("</p>")?;
    Ok(())
}

#[tactic(auto, unfolding(crate::specs::Made::paragraphs))]
fn push_paragraphs(text: &mut String, first: u32) -> Result<(), Memory>
    requires { first ≤ 4_096 }
    ensures { OnOk result (string_bytes text.new ≡ string_bytes text.old ++ spec.paragraphs first) }
{
    for further in 0..10 {
        push_paragraph(text, first + 20 * further)?;
    }
    Ok(())
}

/// The command that loads the document of this number.
#[tactic(auto, unfolding(crate::specs::Made::document))]
pub(crate) fn push_document(text: &mut String, number: u32) -> Result<(), Memory>
    requires { number ≤ 4_096 }
    ensures { OnOk result (string_bytes text.new ≡ string_bytes text.old ++ spec.document number) }
{
    text.push_str("load d")?;
    push_number(text, number)?;
    text.push_str("\n<doc>")?;
    push_paragraphs(text, number)?;
    text.push_str("</doc>\n.\n")?;
    Ok(())
}
