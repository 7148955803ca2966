//! The command that shows nodes.

ghost use Rattle.std.specs.Prelude.{◌≡◌, ◌∷◌, [], codes, false, true, None};
ghost use Rattle.reply_lines.specs.declared.command.Command.TheVariants as command;
ghost use Rattle.session_text.specs.Commands.{commands};
ghost use Rattle.session_text.specs.LineCommands.{command_of_line, second_command};
ghost use Rattle.session_text.specs.SizedBlocks.{block_size};

/// A path follows, and it may begin with any word. Sessions of format 1 don't have the command.
pub fn nodes_shown_in_both_formats()
    ensures path { second_command 3 (codes "show") (codes "//p q") ≡ command.Show (codes "//p q") }
    ensures no_path { second_command 3 (codes "show") [] ≡ command.BadCommand 3 }
    ensures another_word { second_command 3 (codes "shows") (codes "//p") ≡ command.BadCommand 3 }
    ensures at { second_command 3 (codes "show") (codes "at m //p") ≡ command.Show (codes "at m //p") }
    ensures second { command_of_line true 3 (codes "show //p") ≡ command.Show (codes "//p") }
    ensures first { command_of_line false 3 (codes "show //p") ≡ command.BadCommand 3 }
{}

/// No block follows it, in either format.
pub fn lines_behind_show()
    ensures length { block_size (codes "show 3 //p") ≡ None }
    ensures second { commands (codes "session 2\nshow 1 //p\nstats\n") ≡ command.Show (codes "1 //p") ∷ command.Stats ∷ [] }
    ensures first { commands (codes "show //p\nstats\n.\n") ≡ command.BadCommand 1 ∷ command.Stats ∷ command.BadCommand 3 ∷ [] }
{}
