//! The commands of watches.

ghost use Rattle.std.specs.Prelude.{◌≡◌, ◌∷◌, [], codes, false, true, None};
ghost use Rattle.reply_lines.specs.declared.command.Command.TheVariants as command;
ghost use Rattle.session_text.specs.Commands.{commands};
ghost use Rattle.session_text.specs.LineCommands.{command_of_line, watch_command};
ghost use Rattle.session_text.specs.SizedBlocks.{block_size};

/// A watch is set under a name for a path, both of which are there, and the other commands of watches have nothing but a name.
pub fn watches_in_the_second_format()
    ensures set { watch_command 3 (codes "watch") (codes "w //p") ≡ command.Watch (codes "w") (codes "//p") }
    ensures set_under_words { watch_command 3 (codes "watch") (codes "\"w w\" \t//p q") ≡ command.Watch (codes "w w") (codes "//p q") }
    ensures no_path { watch_command 3 (codes "watch") (codes "w") ≡ command.BadCommand 3 }
    ensures no_path_behind_words { watch_command 3 (codes "watch") (codes "\"w w\"") ≡ command.BadCommand 3 }
    ensures bad_name { watch_command 3 (codes "watch") (codes "a/b //p") ≡ command.BadName 3 }
    ensures told { watch_command 3 (codes "changes") (codes "w") ≡ command.Changes (codes "w") }
    ensures told_under_words { watch_command 3 (codes "changes") (codes "\"w w\"") ≡ command.Changes (codes "w w") }
    ensures told_behind_its_name { watch_command 3 (codes "changes") (codes "w //p") ≡ command.BadCommand 3 }
    ensures told_under_no_name { watch_command 3 (codes "changes") [] ≡ command.BadCommand 3 }
    ensures given_up { watch_command 3 (codes "unwatch") (codes "w") ≡ command.Unwatch (codes "w") }
    ensures given_up_under_words { watch_command 3 (codes "unwatch") (codes "\"w w\"") ≡ command.Unwatch (codes "w w") }
    ensures another_word { watch_command 3 (codes "watches") (codes "w //p") ≡ command.BadCommand 3 }
{}

/// Sessions of format 1 have none of these commands.
pub fn watches_in_the_first_format()
    ensures second { command_of_line true 3 (codes "watch w //p") ≡ command.Watch (codes "w") (codes "//p") }
    ensures set { command_of_line false 3 (codes "watch w //p") ≡ command.BadCommand 3 }
    ensures told { command_of_line false 3 (codes "changes w") ≡ command.BadCommand 3 }
    ensures given_up { command_of_line false 3 (codes "unwatch w") ≡ command.BadCommand 3 }
{}

/// No block follows them, in either format.
pub fn lines_behind_watches()
    ensures length { block_size (codes "watch 3 //p") ≡ None }
    ensures second { commands (codes "session 2\nwatch 1 //p\nchanges 1\nunwatch 1\n") ≡ command.Watch (codes "1") (codes "//p") ∷ command.Changes (codes "1") ∷ command.Unwatch (codes "1") ∷ [] }
    ensures first { commands (codes "watch w //p\nstats\n.\n") ≡ command.BadCommand 1 ∷ command.Stats ∷ command.BadCommand 3 ∷ [] }
{}
