ghost use Rattle.std.specs.Prelude.{◌≡◌, bytes_eq};
ghost use Rattle.std.specs.List.{list_any};
ghost use Rattle.tokenizer.specs.Gaps.{is_block_element};

/// The names of the elements whose tags part paragraphs.
pub(crate) static BLOCK_ELEMENTS: [&str; 41] = [
    "abstract",
    "address",
    "article",
    "aside",
    "blockquote",
    "body",
    "book",
    "caption",
    "chapter",
    "dd",
    "div",
    "dl",
    "dt",
    "figure",
    "footer",
    "h1",
    "h2",
    "h3",
    "h4",
    "h5",
    "h6",
    "head",
    "header",
    "li",
    "main",
    "nav",
    "note",
    "ol",
    "p",
    "para",
    "part",
    "pre",
    "preface",
    "row",
    "section",
    "table",
    "td",
    "th",
    "title",
    "tr",
    "ul",
];

/// Whether the tags of an element of this name part paragraphs.
#[tactic(auto, unfolding(crate::specs::Gaps::is_block_element))]
pub(crate) fn is_block_element(name: &str) -> bool
    ensures { result ≡ is_block_element name.now }
{
    is_among(&BLOCK_ELEMENTS, name)
}

fn is_among(names: &[&str], name: &str) -> bool
    ensures { result ≡ list_any (λ known. bytes_eq known.now name.now) names.now }
{
    for known in names {
        if is_same(known, name) {
            return true;
        }
    }
    false
}

/// Whether the names are the same. Most differ in their lengths, and then no byte is looked at.
fn is_same(known: &str, name: &str) -> bool
    ensures { result ≡ bytes_eq known.now name.now }
{
    known.len() == name.len() && known == name
}
