//! The commands and replies of watches, and of nodes that are shown, by computation.

ghost use Rattle.std.specs.Prelude.{◌≡◌, ◌∷◌, [], codes, false, true};
ghost use Rattle.reply_lines.specs.declared.command.Command.TheVariants as command;
ghost use Rattle.reply_lines.specs.declared.reply.FullOf.TheVariants as full;
ghost use Rattle.reply_lines.specs.declared.reply.Refusal.TheVariants as refusal;
ghost use Rattle.reply_lines.specs.declared.reply.Reply.TheVariants as reply;
ghost use Rattle.reply_lines.specs.Given.{block_length, is_readable};
ghost use Rattle.reply_lines.specs.Replies.{is_refusal, refusal_line, reply_text};

/// What came and what went is counted, and each stands in a line. There may be 64 watches.
pub fn texts_of_watches()
    ensures lines { reply_text (reply.Changed (codes "- a" ∷ codes "+ b" ∷ [])) ≡ codes "= 2\n- a\n+ b\n" }
    ensures no_lines { reply_text (reply.Changed []) ≡ codes "= 0\n" }
    ensures answers { is_refusal (reply.Changed []) ≡ false }
    ensures full { refusal_line (refusal.Full full.Watches) ≡ codes "! 5 full at 64 watches" }
{}

/// A watch has a name, and where it is set a path; no block follows it.
pub fn watches_that_are_read()
    ensures path { is_readable (command.Watch (codes "w") (codes "//p")) ≡ true }
    ensures no_path { is_readable (command.Watch (codes "w") []) ≡ false }
    ensures no_name { is_readable (command.Watch [] (codes "//p")) ≡ false }
    ensures quoted { is_readable (command.Changes (codes "w w")) ≡ true }
    ensures no_name_to_tell { is_readable (command.Changes []) ≡ false }
    ensures no_name_to_give_up { is_readable (command.Unwatch []) ≡ false }
    ensures block { block_length (command.Watch (codes "w") (codes "//p")) ≡ 0 }
{}

/// A node is shown by two lines, and counts once.
pub fn texts_of_shown_nodes()
    ensures pairs { reply_text (reply.Shown (codes "a" ∷ codes "[x] y" ∷ codes "b" ∷ [] ∷ [])) ≡ codes "= 2\na\n[x] y\nb\n\n" }
    ensures no_pairs { reply_text (reply.Shown []) ≡ codes "= 0\n" }
    ensures answers { is_refusal (reply.Shown []) ≡ false }
    ensures nothing { refusal_line refusal.NothingToShow ≡ codes "! 15 nothing to show" }
{}

/// Where nodes are shown, a path says which; no block follows it.
pub fn paths_that_are_shown()
    ensures path { is_readable (command.Show (codes "//p")) ≡ true }
    ensures no_path { is_readable (command.Show []) ≡ false }
    ensures block { block_length (command.Show (codes "//p")) ≡ 0 }
{}
