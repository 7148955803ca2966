//! What holds of the lines that name elements, asked as paths: the law is the contract of a function without results.

ghost use Rattle.std.specs.Prelude.{◌≤◌, ℕ, List, Contains};
ghost use Rattle.ft_base.specs.Limits.{max_nodes};
ghost use Rattle.plain_tree.specs.Document.{Node};
ghost use Rattle.doc_grammar.specs.Limits.{node_count};
ghost use Rattle.doc_grammar.specs.Printed.{IsPrintable};
ghost use Rattle.path_meaning.specs.Elements.{Element, elements};
ghost use Rattle.element_lines.specs.Lines.{element_line};
ghost use Rattle.selection_round_trip.specs.Printable.{IsEncoded};
ghost use Rattle.line_round_trip.specs.SelectsJust.{SelectsJust};

use path_meaning::laws::{deep_step_law, order_law, places_law};
use path_subset::laws::{depth_law, spelled_law};
use query_lexer::laws::bound_law;
use selection_round_trip::laws::{names_read, numbers_read, strings_read};

/// The line that names an element of a document, asked as a path, selects just that element. The document is one that can be printed,
/// as each that was read, and has no more nodes than a document may have; its name is a text.
pub fn line_law()
    ensures { (document : List ℕ) (root : Node) (e : Element) → IsEncoded document → IsPrintable root → node_count root ≤ max_nodes
        → Contains (elements root) e → SelectsJust (element_line document root e) document root e }
{
    strings_read();
    names_read();
    numbers_read();
    bound_law();
    spelled_law();
    depth_law();
    order_law();
    deep_step_law();
    places_law();
}
