//! What `help` and `version` write.

ghost use Rattle.std.specs.Prelude.{◌≡◌, option_map};
ghost use Rattle.nr_files.specs.Help.{check_help, explain_help, genesis_help, help_help, help_of, help_text};
ghost use Rattle.nr_files.specs.Help.{hex_help, run_help, serial_help, show_help, version_text};

/// The words of the commands, a line for each, without the last line feed.
pub(crate) fn help_text() -> &'static str
    ensures { result.now ≡ help_text }
{
    "near_files genesis CONFIG JSON\n\
    near_files blocks JSON\n\
    near_files hex FILE\n\
    near_files replay CONFIG GENESIS.json BLOCKS.json\n\
    near_files check CONFIG GENESIS.json BLOCKS.json SCHEDULE\n\
    near_files show genesis CONFIG FILE\n\
    near_files show blocks FILE\n\
    near_files show report FILE\n\
    near_files show part FILE\n\
    near_files show proof FILE\n\
    near_files show gathered FILE\n\
    near_files show --compact ..\n\
    near_files explain WORDS..\n\
    near_files help\n\
    near_files help COMMAND\n\
    near_files version\n\
    CONFIG is free or the name of a file. COMMAND is genesis, blocks, hex, replay, check, show, \
    explain, help or version, or the program near_serial, near_replay, near_audit or near_module."
}

/// The program's name and its version, without the line feed.
pub(crate) fn version_text() -> &'static str
    ensures { result.now ≡ version_text }
{
    "near_files 0.1.0"
}

/// The words of one command and what it does, or the words of a program, without the last line feed.
#[tactic(auto, unfolding(crate::specs::Help::help_of))]
pub(crate) fn help_of(command: &str) -> Option<&'static str>
    ensures { option_map (λ text. text.now) result ≡ help_of command.now }
{
    match command {
        "genesis" => Some(genesis_help()),
        "blocks" => Some(
            "near_files blocks JSON\nWrites the blocks file that the JSON text describes.",
        ),
        "hex" => Some(hex_help()),
        "replay" => Some(run_help()),
        "check" => Some(check_help()),
        "show" => Some(show_help()),
        "explain" => Some(explain_help()),
        "help" => Some(help_help()),
        "version" => Some("near_files version\nWrites the program's name and its version."),
        "near_serial" => Some(serial_help()),
        "near_replay" => Some(
            "near_replay replay CONFIG GENESIS BLOCKS\n\
            near_replay gen NUMBER SHARDS BLOCKS\n\
            CONFIG is free or the name of a file.",
        ),
        "near_audit" => Some("near_audit help\nWrites the words of near_audit."),
        "near_module" => Some("near_module help\nWrites the words of near_module."),
        _ => None,
    }
}

fn genesis_help() -> &'static str
    ensures { result.now ≡ genesis_help }
{
    "near_files genesis CONFIG JSON\n\
    Writes the genesis file that the JSON text describes, counted under CONFIG. An account may leave \
    out storage_usage and code_hash."
}

fn hex_help() -> &'static str
    ensures { result.now ≡ hex_help }
{
    "near_files hex FILE\n\
    Writes the bytes of FILE as a JSON text of hexadecimal digits, as code and args have them."
}

fn explain_help() -> &'static str
    ensures { result.now ≡ explain_help }
{
    "near_files explain WORDS..\n\
    Writes in one sentence what a line says that a program wrote, on standard output or standard \
    error. WORDS are the whole line, and may stand behind the program's name."
}

fn help_help() -> &'static str
    ensures { result.now ≡ help_help }
{
    "near_files help\n\
    near_files help COMMAND\n\
    Writes the words of all commands, or those of one and what it does, or those of another program."
}

fn run_help() -> &'static str
    ensures { result.now ≡ run_help }
{
    "near_files replay CONFIG GENESIS.json BLOCKS.json\n\
    Makes both files as genesis and blocks do, replays them as near_serial run does, and writes \
    the report as show report does. A refusal is told in words, one of CONFIG in numbers."
}

fn check_help() -> &'static str
    ensures { result.now ≡ check_help }
{
    "near_files check CONFIG GENESIS.json BLOCKS.json SCHEDULE\n\
    Makes both files as genesis and blocks do, drives them by the lines of SCHEDULE as \
    near_serial check does, and writes its lines as show report does. A refusal is told in words, \
    one of CONFIG in numbers."
}

fn show_help() -> &'static str
    ensures { result.now ≡ show_help }
{
    "near_files show genesis CONFIG FILE\n\
    near_files show blocks FILE\n\
    near_files show report FILE\n\
    near_files show part FILE\n\
    near_files show proof FILE\n\
    near_files show gathered FILE\n\
    near_files show --compact ..\n\
    Writes FILE as JSON: a genesis and blocks so that the same bytes can be made of the text, and of a \
    report an object for each line. With --compact a text has no spaces between its parts and stands on one line."
}

fn serial_help() -> &'static str
    ensures { result.now ≡ serial_help }
{
    "near_serial run CONFIG GENESIS BLOCKS\n\
    near_serial check CONFIG GENESIS BLOCKS SCHEDULE\n\
    near_serial gen NUMBER SHARDS BLOCKS\n\
    near_serial roots CONFIG GENESIS BLOCKS\n\
    near_serial prove CONFIG GENESIS BLOCKS HEIGHT SHARD KIND PLACE\n\
    near_serial verify ROOT PROOF\n\
    near_serial part CONFIG GENESIS BLOCKS HEIGHT SHARD COUNT NUMBER\n\
    near_serial checkpart ROOT FILE\n\
    near_serial joinparts ROOT COUNT PREFIX\n\
    near_serial gather CONFIG GENESIS BLOCKS HEIGHT SHARD\n\
    near_serial recheck CONFIG FILE\n\
    CONFIG is free or the name of a file."
}
