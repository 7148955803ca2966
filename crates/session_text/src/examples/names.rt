//! Names in quotation marks.

ghost use Rattle.std.specs.Prelude.{◌≡◌, ◌++◌, ◌∷◌, [], codes, false, true, None, Some};
ghost use Rattle.reply_lines.specs.declared.command.Command.TheVariants as command;
ghost use Rattle.session_text.specs.LineCommands.{named, query};
ghost use Rattle.session_text.specs.Quoted.{is_quoted, quoted};

/// A text ends at a quotation mark behind which no other stands.
pub fn texts_in_quotation_marks()
    ensures alone { quoted (codes "\"a\"") ≡ Some (codes "a", []) }
    ensures behind { quoted (codes "\"a\" b\"") ≡ Some (codes "a", codes " b\"") }
    ensures doubled { quoted (codes "\"a\"\"b\"") ≡ Some (codes "a\"b", []) }
    ensures doubled_alone { quoted (codes "\"\"\"\"") ≡ Some (codes "\"", []) }
    ensures empty { quoted (codes "\"\"") ≡ Some ([], []) }
    ensures open { quoted (codes "\"a") ≡ None }
    ensures open_at_once { quoted (codes "\"") ≡ None }
    ensures open_behind_a_doubled_one { quoted (codes "\"a\"\"") ≡ None }
    ensures later { is_quoted (codes "a\"b\"") ≡ false }
    ensures nothing { is_quoted [] ≡ false }
{}

/// A name may stand in quotation marks where they are read, and then nothing may stand behind it. In them it may have any characters but
/// controls.
pub fn names_in_quotation_marks()
    ensures blanks { named true 3 (codes "\"a b\"") command.Drop ≡ command.Drop (codes "a b") }
    ensures outside_ascii { named true 3 (34 ∷ 194 ∷ 128 ∷ 34 ∷ []) command.Drop ≡ command.Drop (194 ∷ 128 ∷ []) }
    ensures control { named true 3 (codes "\"a\tb\"") command.Drop ≡ command.BadName 3 }
    ensures last_control { named true 3 (34 ∷ 127 ∷ 34 ∷ []) command.Drop ≡ command.BadName 3 }
    ensures empty { named true 3 (codes "\"\"") command.Drop ≡ command.BadName 3 }
    ensures behind { named true 3 (codes "\"a\"b") command.Drop ≡ command.BadCommand 3 }
    ensures open { named true 3 (codes "\"a") command.Drop ≡ command.BadCommand 3 }
    ensures bare { named true 3 (codes "a-1") command.Drop ≡ command.Drop (codes "a-1") }
    ensures bare_with_one { named true 3 (codes "a\"b") command.Drop ≡ command.BadName 3 }
    ensures unread { named false 3 (codes "\"a\"") command.Drop ≡ command.BadName 3 }
    ensures unread_words { named false 3 (codes "\"a b\"") command.Drop ≡ command.BadCommand 3 }
{}

/// A blank parts a name in quotation marks from the path behind it.
pub fn queries_at_quoted_names()
    ensures words { query true 3 (codes "at \"m m\" //p") ≡ command.QueryAt (codes "m m") (codes "//p") }
    ensures no_blank { query true 3 (codes "at \"m\"//p") ≡ command.BadCommand 3 }
    ensures no_path { query true 3 (codes "at \"m\"") ≡ command.BadCommand 3 }
    ensures no_name { query true 3 (codes "at \"\" //p") ≡ command.BadName 3 }
    ensures open { query true 3 (codes "at \"m //p") ≡ command.BadCommand 3 }
    ensures bare { query true 3 (codes "at m //p") ≡ command.QueryAt (codes "m") (codes "//p") }
    ensures another_word { query true 3 (codes "\"at\" m") ≡ command.Query (codes "\"at\" m") }
    ensures unread { query false 3 (codes "at \"m\" //p") ≡ command.BadName 3 }
{}
