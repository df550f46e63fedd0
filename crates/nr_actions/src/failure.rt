//! The seventeen ways in which an action can fail, with their numbers.

ghost use Rattle.std.specs.Prelude.{◌≡◌};
ghost use Rattle.nr_actions.specs.Failures.{number};

/// How an action of a receipt can fail, or the receipt behind its last action.
#[derive(Clone, Copy, Debug, PartialEq, Eq)]
pub enum Failure {
    /// The account to be made stands.
    AccountExists,
    /// The receiver has no account.
    NoAccount,
    /// The account is `system`, or its id is a short one without a dot, which only `registrar` makes.
    OnlyRegistrar,
    /// The id has a dot, and isn't a name, a dot and the predecessor's id.
    NotParent,
    /// Only the receiver itself may do this.
    NoPermission,
    /// The key to be deleted doesn't stand.
    NoSuchKey,
    /// The key to be added stands.
    KeyExists,
    /// The account to be deleted has locked tokens.
    Locked,
    /// The account to be deleted has too much state beside its code.
    LargeState,
    /// The receiver can't pay for its storage behind the last action.
    LackBalanceForState,
    /// The id is 64 hexadecimal digits: only a transfer makes such an account.
    OnlyImplicit,
    /// The called account has no code.
    NoCode,
    /// The called account's code is no valid module; the part says why.
    Code,
    /// The code has no such method.
    NoMethod,
    /// The call ended in a trap; the part says which.
    Trap,
    /// The call asked for what it can't have; the part says what.
    HostFault,
    /// The call used up its gas.
    GasExceeded,
}

impl Failure {
    /// Its number, from 1 to 17.
    pub fn number(self) -> u32
        ensures { result ≡ number self }
    {
        match self {
            Failure::AccountExists => 1,
            Failure::NoAccount => 2,
            Failure::OnlyRegistrar => 3,
            Failure::NotParent => 4,
            Failure::NoPermission => 5,
            Failure::NoSuchKey => 6,
            Failure::KeyExists => 7,
            Failure::Locked => 8,
            Failure::LargeState => 9,
            Failure::LackBalanceForState => 10,
            Failure::OnlyImplicit => 11,
            Failure::NoCode => 12,
            Failure::Code => 13,
            Failure::NoMethod => 14,
            Failure::Trap => 15,
            Failure::HostFault => 16,
            Failure::GasExceeded => 17,
        }
    }
}
