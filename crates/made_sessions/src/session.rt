ghost use Rattle.std.specs.Prelude.{◌≡◌, ◌≤◌, IfOk};
ghost use Rattle.ft_base.specs.Limits.{max_documents};
ghost use Rattle.made_sessions.specs.Made.{made};

use crate::document::push_document;
use ft_base::{Bytes, Items, Memory};
use std::alloc::Global;

/// What is asked and changed after the documents.
const COMMANDS: &str = "query collection()/doc[. contains text \"t5\"]
query collection()//p[. contains text \"t5\" ftand \"t9\" window 5 words]
query collection()//p[. contains text \"t5\" ftand ftnot \"t6\"]
stats
delete collection()/doc[. contains text \"t5\"]/p[1]
query collection()/doc[. contains text \"t5\"]
stats
";

/// The text of a session that loads so many documents of 200 words, asks three queries over them, takes paragraphs out and asks again.
pub fn make_session(alloc: Global, count: u32) -> Result<Bytes, Memory>
    requires some { 1 ≤ count }
    requires within { count ≤ max_documents }
    ensures { IfOk result (λ bytes. bytes ≡ made count) }
{
    let mut text = String::new(alloc);
    for number in 1..count + 1 {
        push_document(&mut text, number)?;
    }
    text.push_str(COMMANDS)?;
    Ok(Items::from_vec(text.into_bytes()))
}
