//! What `help` and `version` write.

ghost use Rattle.std.specs.Prelude.{◌≡◌};
ghost use Rattle.nr_audit.specs.Help.{help_text, version_text};

/// The words of the commands, a line for each.
pub(crate) fn help_text() -> &'static str
    ensures { result.now ≡ help_text }
{
    "near_audit gather CONFIG GENESIS BLOCKS\n\
    near_audit help\n\
    near_audit version\n\
    CONFIG is free or the name of a file.\n"
}

/// The program's name and its version.
pub(crate) fn version_text() -> &'static str
    ensures { result.now ≡ version_text }
{
    "near_audit 0.1.0\n"
}
