//! Blocks that have lengths.

ghost use Rattle.std.specs.Prelude.{◌≡◌, ◌++◌, ◌∷◌, [], codes, false, true, None, Some};
ghost use Rattle.reply_lines.specs.declared.command.Command.TheVariants as command;
ghost use Rattle.plain_tree.specs.declared.place.How.TheVariants as how;
ghost use Rattle.session_text.specs.Commands.{commands, says_second, whole};
ghost use Rattle.session_text.specs.SizedBlocks.{block_size, said_size, size_in, sized_commands};

/// A length is a decimal without leading zeros, and no greater than a session may have bytes.
pub fn lengths()
    ensures zero { size_in (codes "0") ≡ Some 0 }
    ensures digits { size_in (codes "120") ≡ Some 120 }
    ensures leading_zero { size_in (codes "01") ≡ None }
    ensures plus { size_in (codes "+1") ≡ None }
    ensures no_digit { size_in (codes "1x") ≡ None }
    ensures no_word { size_in [] ≡ None }
    ensures most { size_in (codes "67108864") ≡ Some 67108864 }
    ensures one_more { size_in (codes "67108865") ≡ None }
{}

/// The length stands behind the word, where a block follows that word's command.
pub fn lengths_in_lines()
    ensures second { block_size (codes "load 5 a") ≡ Some 5 }
    ensures blanks { block_size (codes " \tstop \t 3 b\r") ≡ Some 3 }
    ensures without_a_rest { block_size (codes "stems 7") ≡ Some 7 }
    ensures abbreviations { block_size (codes "abbreviations 3") ≡ Some 3 }
    ensures third { block_size (codes "load a 5") ≡ None }
    ensures none { block_size (codes "abbreviations") ≡ None }
    ensures longer { block_size (codes "abbreviations3 3") ≡ None }
    ensures no_block { block_size (codes "drop 5") ≡ None }
    ensures not_text { block_size (codes "load 5 " ++ 255 ∷ []) ≡ None }
{}

/// To what a line says belong its line feed, its block, and the rest of the line in which that ends, all of them counted where they are missing.
pub fn sizes_of_first_lines()
    ensures line { said_size (codes "stats\nstats\n") ≡ 6 }
    ensures open_line { said_size (codes "stats") ≡ 6 }
    ensures block { said_size (codes "load 3 a\nxyz\nstats") ≡ 13 }
    ensures feeds { said_size (codes "load 3 a\n\n\n\n\r\nstats") ≡ 14 }
    ensures no_bytes { said_size (codes "load 0 a\n\nstats") ≡ 10 }
    ensures open_block { said_size (codes "load 5 a\nxyz") ≡ 15 }
    ensures no_length { said_size (codes "load a\nxyz\n") ≡ 7 }
{}

/// A block is exactly its bytes, and behind it its line has nothing but a carriage return.
pub fn blocks_of_lines()
    ensures bytes { sized_commands true 2 0 (codes "stop 5 s\nx\n.\ny\n") ≡ command.Stop (codes "s") (codes "x\n.\ny") ∷ [] }
    ensures no_bytes { sized_commands true 2 0 (codes "load 0 a\n\n") ≡ command.Load (codes "a") [] ∷ [] }
    ensures returns { sized_commands true 2 0 (codes "load 2 a\r\nx\r\r\n") ≡ command.Load (codes "a") (codes "x\r") ∷ [] }
    ensures behind { sized_commands true 2 0 (codes "load 2 a\nxyz\n") ≡ command.BadCommand 2 ∷ [] }
    ensures quoted { sized_commands true 2 0 (codes "load 1 \"a b\"\nx\n") ≡ command.Load (codes "a b") (codes "x") ∷ [] }
    ensures no_name { sized_commands true 2 0 (codes "load 1\nx\n") ≡ command.BadCommand 2 ∷ [] }
    ensures path { sized_commands true 2 0 (codes "insert 1 last //p q\nx\n") ≡ command.Insert how.Last (codes "//p q") (codes "x") ∷ [] }
{}

/// Lines of blocks are counted, and what no block follows is a command by itself.
pub fn commands_with_blocks()
    ensures counted { sized_commands true 2 0 (codes "stems 2\n\n\n\nx\nstats\n") ≡ command.Stems (codes "\n\n") ∷ command.BadCommand 6 ∷ command.Stats ∷ [] }
    ensures skipped { sized_commands true 2 0 (codes "# load 1 a\n\nstats") ≡ command.Stats ∷ [] }
    ensures no_length { sized_commands true 2 0 (codes "stems\nstats\n") ≡ command.BadCommand 2 ∷ command.Stats ∷ [] }
    ensures said_before { sized_commands true 2 2 (codes "x\ny\nx\n") ≡ command.BadCommand 3 ∷ command.BadCommand 4 ∷ [] }
{}

/// A block that the session ends in is a bad command; where the session goes on, a command is whole only with the line feed behind its block.
pub fn open_blocks()
    ensures within { sized_commands true 2 0 (codes "stems 3\nxy") ≡ command.BadCommand 2 ∷ [] }
    ensures within_yet { sized_commands false 2 0 (codes "stems 3\nxy") ≡ [] }
    ensures at_its_end { sized_commands true 2 0 (codes "stems 2\nxy") ≡ command.Stems (codes "xy") ∷ [] }
    ensures at_its_end_yet { sized_commands false 2 0 (codes "stems 2\nxy") ≡ [] }
    ensures before_it { sized_commands true 2 0 (codes "stems 0") ≡ command.Stems [] ∷ [] }
    ensures with_its_line { sized_commands false 2 0 (codes "stems 2\nxy\n") ≡ command.Stems (codes "xy") ∷ [] }
    ensures before_an_open_line { sized_commands false 2 0 (codes "stems 2\nxy\nstats") ≡ command.Stems (codes "xy") ∷ [] }
{}

/// Abbreviations come in a block that has a length, and in none that ends at a period.
pub fn abbreviations()
    ensures block { commands (codes "session 2\nabbreviations 3\ndr.\n") ≡ command.Abbreviations (codes "dr.") ∷ [] }
    ensures with_a_rest { commands (codes "session 2\nabbreviations 3 a\ndr.\n") ≡ command.BadCommand 2 ∷ [] }
    ensures no_length { commands (codes "session 2\nabbreviations\nstats\n") ≡ command.BadCommand 2 ∷ command.Stats ∷ [] }
    ensures first_format { commands (codes "abbreviations 5\nstats\n.\n") ≡ command.BadCommand 1 ∷ command.Stats ∷ command.BadCommand 3 ∷ [] }
    ensures first_format_alone { commands (codes "abbreviations\nstats\n.\n") ≡ command.BadCommand 1 ∷ command.Stats ∷ command.BadCommand 3 ∷ [] }
{}

/// The very first line says which format a session has.
pub fn first_lines()
    ensures second { says_second (codes "session 2") ≡ true }
    ensures ended { says_second (codes "session 2\r") ≡ true }
    ensures blank_before { says_second (codes " session 2") ≡ false }
    ensures blank_behind { says_second (codes "session 2 ") ≡ false }
    ensures another { says_second (codes "session 3") ≡ false }
    ensures mark { commands (239 ∷ 187 ∷ 191 ∷ codes "session 2\nstats") ≡ command.Stats ∷ [] }
    ensures yet_open { whole (codes "session 2") ≡ [] }
    ensures later { commands (codes "stats\nsession 2\n") ≡ command.Stats ∷ command.BadCommand 2 ∷ [] }
{}
