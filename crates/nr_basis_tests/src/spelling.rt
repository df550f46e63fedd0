//! Records written, read back and copied.

use nr_bytes::{Blob, List, Text};
use nr_ids::{AccountId, Hash32, PublicKey};
use nr_records::{
    AccessKey, Account, Action, ActionReceipt, Body, CallPermission, DataReceipt, DataReceiver,
    Permission, Receipt, RecordFault, Spelled, Transaction, decode, encode, hash_of,
};
use std::alloc::Global;
use std::fmt::Debug;
use std::process::Abort;
use std::test::Fail;

/// A transaction with each kind of action, by the table of fields.
const TRANSACTION: &[u8] = b"\
    \x05\0\0\0alice\0kkkkkkkkkkkkkkkkkkkkkkkkkkkkkkkk\
    \x02\x01\0\0\0\0\0\0\x03\0\0\0bob\
    hhhhhhhhhhhhhhhhhhhhhhhhhhhhhhhh\
    \x08\0\0\0\
    \0\
    \x01\x04\0\0\0\0asm\
    \x02\x02\0\0\0go\x02\0\0\0{}\x03\0\0\0\0\x01\0\0\x07\0\0\0\0\0\0\0\0\0\0\0\0\0\0\0\
    \x03\x09\0\0\0\0\0\0\0\x01\0\0\0\0\0\0\0\
    \x05\x01ssssssssssssssssssssssssssssssssssssssssssssssssssssssssssssssss\
    \x04\0\0\0\0\0\0\0\0\x01,\x01\0\0\0\0\0\0\0\0\0\0\0\0\0\0\x03\0\0\0con\x02\0\0\0\x01\0\0\0a\x02\0\0\0bc\
    \x05\0ffffffffffffffffffffffffffffffff\0\0\0\0\0\0\0\0\x01\
    \x06\0dddddddddddddddddddddddddddddddd\
    \x07\x05\0\0\0carol\
";

/// Its SHA-256.
const TRANSACTION_HASH: &[u8] = b"\
    8=\x13\xc9\xebTL\xf7\x12\x1c\xce\x14GU\xd4*v\xfb\xd3Te\xaau?f\xc2\xcc\x07\xf5\xf9E\x22\
";

/// A receipt of actions.
const ACTIONS: &[u8] = b"\
    \x05\0\0\0alice\x03\0\0\0bobrrrrrrrrrrrrrrrrrrrrrrrrrrrrrrrr\
    \0\x05\0\0\0carol\0kkkkkkkkkkkkkkkkkkkkkkkkkkkkkkkk\
    d\0\0\0\0\0\0\0\0\0\0\0\0\0\0\0\
    \x01\0\0\0oooooooooooooooooooooooooooooooo\x03\0\0\0dan\
    \x02\0\0\0iiiiiiiiiiiiiiiiiiiiiiiiiiiiiiii\
    jjjjjjjjjjjjjjjjjjjjjjjjjjjjjjjj\
    \x01\0\0\0\x03\x05\0\0\0\0\0\0\0\0\0\0\0\0\0\0\0\
";

/// A receipt of a result.
const DATUM: &[u8] = b"\
    \x03\0\0\0bob\x05\0\0\0alicerrrrrrrrrrrrrrrrrrrrrrrrrrrrrrrr\
    \x01dddddddddddddddddddddddddddddddd\
    \x01\x03\0\0\0yes\
";

/// A receipt of no result.
const NO_DATUM: &[u8] = b"\
    \x03\0\0\0bob\x05\0\0\0alicerrrrrrrrrrrrrrrrrrrrrrrrrrrrrrrr\
    \x01dddddddddddddddddddddddddddddddd\
    \0\
";

/// An account.
const ACCOUNT: &[u8] = b"\
    \0\0\0\0\0\0\0\0\0\0\0\0\0\0\0\x80\
    \x01\0\0\0\0\0\0\0\0\0\0\0\0\0\0\0\
    cccccccccccccccccccccccccccccccc\
    \xb6\0\0\0\0\0\0\0\
";

/// The account id of this name.
pub(crate) fn id(alloc: Global, name: &str) -> Result<AccountId, Fail> {
    Ok(AccountId::parse(alloc, name.as_bytes())?)
}

fn text(alloc: Global, text: &str) -> Result<Text, Fail> {
    Ok(Text::of(String::from_str(alloc, text)?))
}

fn blob(alloc: Global, bytes: &[u8]) -> Result<Blob, Fail> {
    Ok(Blob::of(Vec::from_slice(alloc, bytes)?))
}

fn call_key(alloc: Global) -> Result<AccessKey, Fail> {
    let methods = vec![in alloc; text(alloc, "a")?, text(alloc, "bc")?]?;
    Ok(AccessKey {
        nonce: 4,
        permission: Permission::Call(CallPermission {
            allowance: Some(300),
            receiver: text(alloc, "con")?,
            methods: List::of(methods),
        }),
    })
}

fn call(alloc: Global) -> Result<Action, Fail> {
    Ok(Action::FunctionCall {
        method: text(alloc, "go")?,
        args: blob(alloc, b"{}")?,
        gas: 1099511627779,
        deposit: 7,
    })
}

fn keys(alloc: Global, actions: &mut Vec<Action>) -> Result<(), Fail> {
    actions.push(Action::AddKey {
        public_key: PublicKey::Secp256k1([b's'; 64]),
        access_key: call_key(alloc)?,
    })?;
    actions.push(Action::AddKey {
        public_key: PublicKey::Ed25519([b'f'; 32]),
        access_key: AccessKey {
            nonce: 0,
            permission: Permission::Full,
        },
    })?;
    actions.push(Action::DeleteKey {
        public_key: PublicKey::Ed25519([b'd'; 32]),
    })?;
    Ok(())
}

fn transaction(alloc: Global) -> Result<Transaction, Fail> {
    let mut actions = Vec::new(alloc);
    actions.push(Action::CreateAccount)?;
    actions.push(Action::DeployContract {
        code: blob(alloc, b"\0asm")?,
    })?;
    actions.push(call(alloc)?)?;
    actions.push(Action::Transfer {
        deposit: 18446744073709551625,
    })?;
    keys(alloc, &mut actions)?;
    actions.push(Action::DeleteAccount {
        beneficiary: id(alloc, "carol")?,
    })?;
    Ok(Transaction {
        signer: id(alloc, "alice")?,
        public_key: PublicKey::Ed25519([b'k'; 32]),
        nonce: 258,
        receiver: id(alloc, "bob")?,
        block_hash: Hash32([b'h'; 32]),
        actions: List::of(actions),
    })
}

fn action_receipt(alloc: Global) -> Result<Receipt, Fail> {
    let outputs = vec![in alloc;
        DataReceiver {
            data_id: Hash32([b'o'; 32]),
            receiver: id(alloc, "dan")?,
        },
    ]?;
    let act = ActionReceipt {
        signer: id(alloc, "carol")?,
        signer_key: PublicKey::Ed25519([b'k'; 32]),
        gas_price: 100,
        outputs: List::of(outputs),
        inputs: List::of(vec![in alloc; Hash32([b'i'; 32]), Hash32([b'j'; 32])]?),
        actions: List::of(vec![in alloc; Action::Transfer { deposit: 5 }]?),
    };
    Ok(Receipt {
        predecessor: id(alloc, "alice")?,
        receiver: id(alloc, "bob")?,
        receipt_id: Hash32([b'r'; 32]),
        body: Body::Act(act),
    })
}

fn data_receipt(alloc: Global, bytes: Option<Blob>) -> Result<Receipt, Fail> {
    let data_id = Hash32([b'd'; 32]);
    Ok(Receipt {
        predecessor: id(alloc, "bob")?,
        receiver: id(alloc, "alice")?,
        receipt_id: Hash32([b'r'; 32]),
        body: Body::Datum(DataReceipt { data_id, bytes }),
    })
}

fn is_spelled<T: Spelled + PartialEq + Debug>(
    rt: &impl Abort,
    alloc: Global,
    value: &T,
    bytes: &[u8],
) -> Result<(), Fail> {
    assert_eq!(rt; &decode::<T>(alloc, bytes)?, value);
    assert_eq!(rt; encode(alloc, value)?.inner(), bytes);
    assert_eq!(rt; &value.duplicate(alloc)?, value);
    Ok(())
}

#[test]
fn records_are_read_and_written_alike(rt: HostRuntime) -> Result<(), Fail> {
    let alloc = rt.alloc();
    let account = Account {
        amount: 170141183460469231731687303715884105728,
        locked: 1,
        code_hash: Hash32([b'c'; 32]),
        storage_usage: 182,
    };
    is_spelled(&rt, alloc, &account, ACCOUNT)?;
    is_spelled(&rt, alloc, &transaction(alloc)?, TRANSACTION)?;
    is_spelled(&rt, alloc, &action_receipt(alloc)?, ACTIONS)?;
    let datum = Some(blob(alloc, b"yes")?);
    is_spelled(&rt, alloc, &data_receipt(alloc, datum)?, DATUM)?;
    is_spelled(&rt, alloc, &data_receipt(alloc, None)?, NO_DATUM)?;
    Ok(())
}

#[test]
fn a_transaction_has_its_hash(rt: HostRuntime) -> Result<(), Fail> {
    let hash = hash_of(rt.alloc(), &transaction(rt.alloc())?)?;
    assert_eq!(rt; hash.0.as_slice(), TRANSACTION_HASH);
    Ok(())
}

#[test]
fn the_first_bad_field_is_named(rt: HostRuntime) {
    let cases: [(&[u8], RecordFault); 13] = [
        (b"\x01\0\0\0\x08", RecordFault::BadOrdinal { at: 4 }),
        (b"\x02\0\0\0\0\x04", RecordFault::Stake { at: 5 }),
        (
            b"\x01\0\0\0\x07\x02\0\0\0aB",
            RecordFault::BadAccountId { at: 5 },
        ),
        (
            b"\x01\0\0\0\x07\x02\0\0\0a\xff",
            RecordFault::BadUtf8 { at: 5 },
        ),
        (b"\x01\0\0\0\x07\x03\0\0\0aB", RecordFault::Short { at: 5 }),
        (b"\x01\0\0\0\x06\x02", RecordFault::BadOrdinal { at: 5 }),
        (b"\x02\0\0\0\0", RecordFault::Short { at: 5 }),
        (b"\0\0\0\0\x09", RecordFault::BadByte { at: 4, byte: 9 }),
        (b"\x02\0\0", RecordFault::Short { at: 0 }),
        (b"\x01\0\0\0\x03\0\0\0", RecordFault::Short { at: 5 }),
        (
            b"\x01\0\0\0\x05\0ffffffffffffffffffffffffffffffff\0\0\0\0\0\0\0\0\x02",
            RecordFault::BadOrdinal { at: 46 },
        ),
        (
            b"\x01\0\0\0\x05\0ffffffffffffffffffffffffffffffff\0\0\0\0\0\0\0\0\0\x02",
            RecordFault::BadByte { at: 47, byte: 2 },
        ),
        (
            b"\x01\0\0\0\x05\0ffffffffffffffffffffffffffffffff\0\0\0\0\0\0\0\0\0\0\x01\0\0\0\xff",
            RecordFault::BadUtf8 { at: 48 },
        ),
    ];
    for (bytes, want) in cases {
        assert_eq!(rt;
            decode::<List<Action>>(rt.alloc(), bytes),
            Err(want),
            "{bytes:?}"
        );
    }
    let body = decode::<Body>(rt.alloc(), b"\x02");
    assert_eq!(rt; body, Err(RecordFault::BadOrdinal { at: 0 }));
}
