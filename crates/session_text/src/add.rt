ghost use Rattle.std.specs.Prelude.{◌≡◌, ◌++◌, OnOk};
ghost use Rattle.std.specs.Option.{option_to_list};

use crate::{Command, Commands};
use ft_base::Memory;

/// Adds the command, if there is one.
pub(crate) fn add(found: &mut Commands, command: Option<Command>) -> Result<(), Memory>
    ensures { OnOk result (found.new ≡ found.old ++ option_to_list command) }
{
    match command {
        Some(command) => found.push(command),
        None => Ok(()),
    }
}
