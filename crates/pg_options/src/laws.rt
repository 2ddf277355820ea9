//! What follows from the definitions in `specs/`: laws of options, each the contract of a function that does nothing.

ghost use Rattle.std.specs.Prelude.{◌≡◌, ℕ, List, None};
ghost use Rattle.std.specs.List.{flat_map};
ghost use Rattle.pg_options.specs.Escaping.{words, options_with, switch_words};
ghost use Rattle.pg_options.specs.Options.{defaults, no_settings, options_from};

/// Parameters that were set on unset options are read by the server: `-c` and `name=value` for each, whatever bytes they hold.
pub fn set_parameters_are_read_back()
    ensures { (pairs : List (List ℕ × List ℕ)) → words (options_with None pairs) ≡ flat_map switch_words pairs }
{}

/// Where no setting is set, the options are the defaults.
pub fn no_settings_are_defaults()
    ensures { options_from no_settings ≡ defaults }
{}
