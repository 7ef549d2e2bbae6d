//! What the lines are read as, and what none of them does.
ghost use Rattle.std.specs.Prelude.{◌≡◌, ◌≤◌, ℕ, Ok};
ghost use Rattle.std.specs.List.{AllByRecursion};
ghost use Rattle.serde_json.specs.Written.{compact_text};
ghost use Rattle.amm_model.specs.CommandView.{CommandView};
ghost use Rattle.amm_model.specs.Lines.{line_of};
ghost use Rattle.amm_model.specs.Reading.{command_of_line};
ghost use Rattle.amm_verdicts.specs.NoRoute.{LineTakesNoRoute};
ghost use Rattle.amm_command.specs.Rows.{row_value};
ghost use Rattle.amm_work.specs.Commands.{commands_of};

use amm_rows::rows_read_back;

/// A law, which does nothing when it is called: each line of `make`, without its newline, is read
/// as the command that it was made from.
pub fn lines_read_back()
    ensures { (seed count : ℕ) → count ≤ 100000 →
        AllByRecursion (λ (c : CommandView). command_of_line (compact_text (row_value c)) ≡ Ok c) (commands_of seed count) }
{
    rows_read_back();
}

/// A law as well: no line of `make` trades along a route that was found. None settles a quote,
/// sells a basket or takes a cycle.
pub fn lines_take_no_route()
    ensures { (seed count : ℕ) → count ≤ 100000 →
        AllByRecursion (λ (c : CommandView). LineTakesNoRoute (line_of (compact_text (row_value c)))) (commands_of seed count) }
{
    lines_read_back();
}
