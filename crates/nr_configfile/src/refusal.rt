//! What a program answers where a configuration's file is refused.

ghost use Rattle.std.specs.Prelude.{◌≡◌, true};

/// What a program refuses a command with, a configuration's file among others.
pub trait ConfigRefusal: Drop {
    ghost use Rattle.std.specs.Prelude.{ℕ, Bool};

    /// Whether it refuses a command, where a program's statuses say other things too.
    ghost refuses: { Self → Bool };

    /// The refusal of a configuration, by kind and entry.
    ghost refusal: { ℕ → ℕ → Self };

    /// The refusal of a file that is no configuration. The kind is 0 where it is longer than 1 MiB, 1 where it is no
    /// JSON object, 2 where an entry is missing, 3 where it is no whole number, and 4 where it is outside its bounds.
    /// The entry counts from 1, and is 0 for the kinds 0 and 1.
    fn of_config(kind: u32, entry: u32) -> Self
        ensures value { result ≡ refusal kind entry }
        ensures refuses { refuses result ≡ true };
}
