//! The fees, and what each is paid for.

ghost use Rattle.std.specs.Prelude.{◌≡◌, ◌<◌};
ghost use Rattle.nr_fees.specs.Table.{number, column};

/// What a fee is paid for.
#[derive(Clone, Copy, Debug, PartialEq, Eq)]
pub enum Payment {
    /// Sending to the sender itself.
    SendLocal,
    /// Sending to another account.
    SendRemote,
    /// Executing at the receiver.
    Execute,
}

/// The fees, in the order in which the configuration has them. Each is a number of gas.
#[derive(Clone, Copy, Debug, PartialEq, Eq)]
pub enum Fee {
    /// A receipt of actions, whatever they are.
    ActionReceipt,
    /// A datum for another receipt.
    DataBase,
    /// Each byte of a datum.
    DataByte,
    /// Making an account.
    CreateAccount,
    /// Giving an account code.
    DeployBase,
    /// Each byte of the code.
    DeployByte,
    /// Calling a method.
    CallBase,
    /// Each byte of the method's name and of its arguments.
    CallByte,
    /// Giving an account tokens.
    Transfer,
    /// Giving an account a key that may do all that the account may.
    AddFullKey,
    /// Giving an account a key that may only call one contract.
    AddCallKeyBase,
    /// Each byte of the key's methods, and one more for each method.
    AddCallKeyByte,
    /// Taking a key from an account.
    DeleteKey,
    /// Removing an account.
    DeleteAccount,
}

/// The number of a fee, from 0 to 13.
pub(crate) fn number_of(fee: Fee) -> u32
    ensures value { result ≡ number fee }
    ensures in_table { result < 14 }
{
    match fee {
        Fee::ActionReceipt => 0,
        Fee::DataBase => 1,
        Fee::DataByte => 2,
        Fee::CreateAccount => 3,
        Fee::DeployBase => 4,
        Fee::DeployByte => 5,
        Fee::CallBase => 6,
        Fee::CallByte => 7,
        Fee::Transfer => 8,
        Fee::AddFullKey => 9,
        Fee::AddCallKeyBase => 10,
        Fee::AddCallKeyByte => 11,
        Fee::DeleteKey => 12,
        Fee::DeleteAccount => 13,
    }
}

/// The column of a payment, from 0 to 2.
pub(crate) fn column_of(payment: Payment) -> u32
    ensures value { result ≡ column payment }
    ensures in_table { result < 3 }
{
    match payment {
        Payment::SendLocal => 0,
        Payment::SendRemote => 1,
        Payment::Execute => 2,
    }
}
