//! The rows that commands are written as.
ghost use Rattle.std.specs.Prelude.{◌≡◌, Ok};
ghost use Rattle.serde_json.specs.Written.{compact_text};
ghost use Rattle.amm_model.specs.CommandView.{CommandView};
ghost use Rattle.amm_model.specs.Reading.{command_of_line};
ghost use Rattle.amm_command.specs.Rows.{row_value};
ghost use Rattle.amm_rows.specs.Writable.{IsRow};

/// A law, which does nothing when it is called: the row of a command, as `serde_json` writes it
/// with no spaces, is a line that is read as that command. It holds for every command that has a
/// row: names are names at every level, numbers are within their limits, and loans nest no deeper
/// than those of a line may.
pub fn rows_read_back()
    ensures { (c : CommandView) → IsRow c → command_of_line (compact_text (row_value c)) ≡ Ok c }
{}
