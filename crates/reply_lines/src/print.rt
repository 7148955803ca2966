ghost use Rattle.std.specs.Prelude.{◌≡◌, ◌++◌, codes, length, string_bytes, IfOk, OnOk};
ghost use Rattle.std.specs.Fmt.{decimal};
ghost use Rattle.reply_lines.specs.Replies.{counted_lines, counted_pairs, counts_line, document_words, ended_line, full_words};
ghost use Rattle.reply_lines.specs.Replies.{limit_words, numbered_lines, query_words, refusal_line, reply_text};

use crate::{Counts, FullOf, LimitOf, MAX_WATCHES, Refusal, Reply};
use doc_profile::DocFault;
use ft_base::{Line, MAX_DOCUMENTS, MAX_LISTS, MAX_MARKS, Memory, QueryFault};
use std::alloc::Global;
use text_list::TextList;

/// The lines of a reply, each ended by a line feed. A refusal for want of memory isn't one, and is answered `Memory`.
pub fn print_reply(alloc: Global, reply: &Reply) -> Result<Line, Memory>
    ensures { IfOk result (λ text. text ≡ reply_text reply.now) }
{
    match reply {
        Reply::Done => Ok(Line::read(alloc, "ok\n")?),
        Reply::Nodes(lines) => print_counted(alloc, lines),
        Reply::Texts(lines) => print_counted(alloc, lines),
        Reply::Shown(lines) => print_pairs(alloc, lines),
        Reply::Changed(lines) => print_counted(alloc, lines),
        Reply::Explained(text) => print_named(alloc, "= ", text.as_str()),
        Reply::Counts(counts) => print_counts(alloc, counts),
        Reply::Refused(refusal) => print_refusal(alloc, refusal),
    }
}

/// How many lines there are, and the lines.
fn print_counted(alloc: Global, lines: &TextList) -> Result<Line, Memory>
    ensures { IfOk result (λ text. text ≡ counted_lines lines.now) }
{
    print_lines(alloc, lines.len(), lines)
}

/// How many pairs of lines there are, and the lines.
fn print_pairs(alloc: Global, lines: &TextList) -> Result<Line, Memory>
    ensures { IfOk result (λ text. text ≡ counted_pairs lines.now) }
{
    print_lines(alloc, lines.len() / 2, lines)
}

/// A number, and the lines.
fn print_lines(alloc: Global, count: usize, lines: &TextList) -> Result<Line, Memory>
    ensures { IfOk result (λ text. text ≡ numbered_lines count lines.now) }
{
    let mut text = format!(in alloc; "= {count}\n")?;
    for number in 0..lines.len() {
        text.push_str(lines.get(number))?;
        text.push('\n')?;
    }
    Ok(Line::from_string(text))
}

/// The counts, each after its word.
fn print_counts(alloc: Global, counts: &Counts) -> Result<Line, Memory>
    ensures { IfOk result (λ text. text ≡ ended_line (counts_line counts.now)) }
{
    let mut text = String::new(alloc);
    push_counted(&mut text, "= documents ", counts.documents)?;
    push_counted(&mut text, " tokens ", counts.tokens)?;
    push_counted(&mut text, " terms ", counts.terms)?;
    push_counted(&mut text, " marks ", counts.marks)?;
    push_counted(&mut text, " plans ", counts.plans)?;
    push_counted(&mut text, " hits ", counts.hits)?;
    text.push('\n')?;
    Ok(Line::from_string(text))
}

/// Adds words and a number.
fn push_counted(text: &mut String, words: &str, number: u64) -> Result<(), Memory>
    ensures { OnOk result (string_bytes text.new ≡ string_bytes text.old ++ words.now ++ decimal number) }
{
    write!(text, "{words}{number}")?;
    Ok(())
}

/// A line that ends with a name or a text.
fn print_named(alloc: Global, words: &str, name: &str) -> Result<Line, Memory>
    ensures { IfOk result (λ text. text ≡ ended_line (words.now ++ name.now)) }
{
    let mut text = String::from_str(alloc, words)?;
    text.push_str(name)?;
    text.push('\n')?;
    Ok(Line::from_string(text))
}

/// A line that ends with a number.
fn print_numbered(alloc: Global, words: &str, number: u64) -> Result<Line, Memory>
    ensures { IfOk result (λ text. text ≡ ended_line (words.now ++ decimal number)) }
{
    let text = format!(in alloc; "{words}{number}\n")?;
    Ok(Line::from_string(text))
}

/// The line of a refusal.
fn print_refusal(alloc: Global, refusal: &Refusal) -> Result<Line, Memory>
    ensures { IfOk result (λ text. text ≡ ended_line (refusal_line refusal.now)) }
{
    match refusal {
        Refusal::BadCommand { line } => print_numbered(alloc, "! 1 bad command at line ", *line),
        Refusal::BadName { line } => print_numbered(alloc, "! 2 bad name at line ", *line),
        Refusal::NameTaken { name } => print_named(alloc, "! 3 name taken: ", name.as_str()),
        Refusal::NoSuchName { name } => print_named(alloc, "! 4 no such name: ", name.as_str()),
        Refusal::Full { what } => print_full(alloc, *what),
        Refusal::Document(fault) => print_document(alloc, *fault),
        Refusal::TooManyTokens => print_named(alloc, "! 6 document: ", "tokens"),
        Refusal::List { line } => print_numbered(alloc, "! 6 list: bad line ", *line),
        Refusal::Query(fault) => print_query(alloc, *fault),
        Refusal::NoSuchDoc { name } => print_named(alloc, "! 8 no such document: ", name.as_str()),
        Refusal::NoSuchList { name } => print_named(alloc, "! 9 no such list: ", name.as_str()),
        Refusal::NoTarget => print_named(alloc, "! 10 ", "no target"),
        Refusal::ManyTargets { count } => print_numbered(alloc, "! 11 many targets: ", *count),
        Refusal::RootTarget => print_named(alloc, "! 12 ", "root target"),
        Refusal::Limit { what } => print_named(alloc, "! 13 limit: ", limit(*what)),
        Refusal::NothingToShow => print_named(alloc, "! 15 ", "nothing to show"),
    }
}

/// The line of a fault of a document.
fn print_document(alloc: Global, fault: DocFault) -> Result<Line, Memory>
    ensures { IfOk result (λ text. text ≡ ended_line (codes "! 6 document: " ++ document_words fault)) }
{
    match fault {
        DocFault::NotUtf8 { at } => print_numbered(alloc, "! 6 document: not utf-8 at ", at as u64),
        DocFault::Syntax { at } => print_numbered(alloc, "! 6 document: syntax at ", at as u64),
        DocFault::Depth { at } => print_numbered(alloc, "! 6 document: depth at ", at as u64),
        DocFault::Nodes { at } => print_numbered(alloc, "! 6 document: nodes at ", at as u64),
        DocFault::Memory => Err(Memory),
    }
}

/// The line of a fault of a path or a selection.
fn print_query(alloc: Global, fault: QueryFault) -> Result<Line, Memory>
    ensures { IfOk result (λ text. text ≡ ended_line (codes "! 7 query: " ++ query_words fault)) }
{
    match fault {
        QueryFault::Syntax { at } => print_numbered(alloc, "! 7 query: syntax at ", at as u64),
        QueryFault::Deep { at } => print_numbered(alloc, "! 7 query: deep at ", at as u64),
        QueryFault::Number { at } => print_numbered(alloc, "! 7 query: number at ", at as u64),
        QueryFault::Phrases { at } => print_numbered(alloc, "! 7 query: phrases at ", at as u64),
        QueryFault::OptionTwice { at } => {
            print_numbered(alloc, "! 7 query: option twice at ", at as u64)
        }
        QueryFault::BadWildcard { at } => {
            print_numbered(alloc, "! 7 query: bad wildcard at ", at as u64)
        }
        QueryFault::MildNotExclude { at } => {
            print_numbered(alloc, "! 7 query: mild not exclude at ", at as u64)
        }
        QueryFault::InsideFilter { at } => {
            print_numbered(alloc, "! 7 query: inside filter at ", at as u64)
        }
        QueryFault::Memory => Err(Memory),
    }
}

/// The line of what there is as many of as there may be.
fn print_full(alloc: Global, what: FullOf) -> Result<Line, Memory>
    ensures { IfOk result (λ text. text ≡ ended_line (codes "! 5 full at " ++ full_words what)) }
{
    match what {
        FullOf::Documents => print_most(alloc, MAX_DOCUMENTS, " documents"),
        FullOf::Marks => print_most(alloc, MAX_MARKS, " marks"),
        FullOf::StopLists => print_most(alloc, MAX_LISTS, " stop lists"),
        FullOf::Thesauri => print_most(alloc, MAX_LISTS, " thesauri"),
        FullOf::Watches => print_most(alloc, MAX_WATCHES, " watches"),
    }
}

/// The line of how many there may be, and of what.
fn print_most(alloc: Global, count: usize, words: &str) -> Result<Line, Memory>
    ensures { IfOk result (λ text. text ≡ ended_line (codes "! 5 full at " ++ decimal count ++ words.now)) }
{
    let mut text = String::new(alloc);
    push_counted(&mut text, "! 5 full at ", count as u64)?;
    text.push_str(words)?;
    text.push('\n')?;
    Ok(Line::from_string(text))
}

fn limit(what: LimitOf) -> &'static str
    ensures { result.now ≡ limit_words what }
{
    match what {
        LimitOf::Depth => "depth",
        LimitOf::Nodes => "nodes",
        LimitOf::Tokens => "tokens",
    }
}
