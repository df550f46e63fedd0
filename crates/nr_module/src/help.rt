//! What `help` and `version` write.

ghost use Rattle.std.specs.Prelude.{◌≡◌};
ghost use Rattle.nr_module.specs.Help.{help_text, version_text};

/// The words of the commands, a line for each.
pub(crate) fn help_text() -> &'static str
    ensures { result.now ≡ help_text }
{
    "near_module check CONFIG FILE\n\
    near_module run CONFIG FILE METHOD GAS\n\
    near_module trap CONFIG FILE METHOD GAS\n\
    near_module list FILE\n\
    near_module text FILE\n\
    near_module help\n\
    near_module version\n\
    near_module call CONFIG FILE METHOD ARGS GAS\n\
    near_module call CONFIG FILE METHOD ARGS GAS DEPOSIT\n\
    CONFIG is free or the name of a file, and GAS a number from 0 to 18446744073709551615.\n\
    ARGS is a text, or hex: and two digits for each byte, and DEPOSIT a number below 2^128.\n"
}

/// The program's name and its version.
pub(crate) fn version_text() -> &'static str
    ensures { result.now ≡ version_text }
{
    "near_module 0.1.0\n"
}
