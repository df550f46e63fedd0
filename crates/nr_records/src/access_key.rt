//! Access keys and what they permit: reading, writing, copying.

ghost use Rattle.nr_records.specs.AccessKeys.{call_permission_at, call_permission_bytes, IsCallPermission};
ghost use Rattle.nr_records.specs.AccessKeys.{permission_at, permission_bytes, IsPermission, access_key_at};
ghost use Rattle.nr_records.specs.AccessKeys.{access_key_bytes, IsAccessKey};
ghost use Rattle.nr_records.specs.AccessKeyLaws.{call_permission_law, permission_law, access_key_law};

use crate::fault::RecordFault;
use crate::fields::u8_of;
use crate::spelled::Spelled;
use nr_bytes::{List, Reader, Text, Writer};
use std::alloc::{AllocError, Global};

/// What an account's key was used for last, and what it may do.
#[derive(Debug, PartialEq, Eq, Drop)]
pub struct AccessKey {
    /// The nonce of the last transaction that the key signed.
    pub nonce: u64,
    pub permission: Permission,
}

/// What a key may do.
#[derive(Debug, PartialEq, Eq, Drop)]
pub enum Permission {
    /// It may only call one contract.
    Call(CallPermission),
    /// It may do all that its account may.
    Full,
}

/// The calls that a key may make.
#[derive(Debug, PartialEq, Eq, Drop)]
pub struct CallPermission {
    /// What the key may still spend on gas, in the smallest unit of the ledger. `None` is no limit.
    pub allowance: Option<u128>,
    /// The name of the account that may be called. Any text may stand here.
    pub receiver: Text,
    /// The methods that may be called. The empty list stands for each method.
    pub methods: List<Text>,
}

impl Spelled for CallPermission {
    ghost spelling = { call_permission_bytes };

    ghost fits = { IsCallPermission };

    ghost reading = { call_permission_at };

    ghost law = { call_permission_law };

    #[tactic(auto, unfolding(crate::specs::AccessKeys::call_permission_at))]
    fn read(alloc: Global, reader: &mut Reader<'_>) -> Result<CallPermission, RecordFault> {
        let mut ahead = reader.fork();
        let allowance = Option::<u128>::read(alloc, &mut ahead)?;
        let receiver = Text::read(alloc, &mut ahead)?;
        let methods = List::<Text>::read(alloc, &mut ahead)?;
        *reader = ahead;
        Ok(CallPermission {
            allowance,
            receiver,
            methods,
        })
    }

    fn write(&self, writer: &mut Writer) -> Result<(), AllocError> {
        self.allowance.write(writer)?;
        self.receiver.write(writer)?;
        self.methods.write(writer)
    }

    fn duplicate(&self, alloc: Global) -> Result<CallPermission, AllocError> {
        Ok(CallPermission {
            allowance: self.allowance,
            receiver: self.receiver.duplicate(alloc)?,
            methods: self.methods.duplicate(alloc)?,
        })
    }
}

impl Spelled for Permission {
    ghost spelling = { permission_bytes };

    ghost fits = { IsPermission };

    ghost reading = { permission_at };

    ghost law = { permission_law };

    #[tactic(auto, unfolding(crate::specs::AccessKeys::permission_at))]
    fn read(alloc: Global, reader: &mut Reader<'_>) -> Result<Permission, RecordFault> {
        let at = reader.at();
        let mut ahead = reader.fork();
        let permission = match u8_of(&mut ahead)? {
            0 => Permission::Call(CallPermission::read(alloc, &mut ahead)?),
            1 => Permission::Full,
            _ => return Err(RecordFault::BadOrdinal { at }),
        };
        *reader = ahead;
        Ok(permission)
    }

    fn write(&self, writer: &mut Writer) -> Result<(), AllocError> {
        match self {
            Permission::Call(calls) => {
                writer.put_u8(0)?;
                calls.write(writer)
            }
            Permission::Full => writer.put_u8(1),
        }
    }

    fn duplicate(&self, alloc: Global) -> Result<Permission, AllocError> {
        match self {
            Permission::Call(calls) => Ok(Permission::Call(calls.duplicate(alloc)?)),
            Permission::Full => Ok(Permission::Full),
        }
    }
}

impl Spelled for AccessKey {
    ghost spelling = { access_key_bytes };

    ghost fits = { IsAccessKey };

    ghost reading = { access_key_at };

    ghost law = { access_key_law };

    #[tactic(auto, unfolding(crate::specs::AccessKeys::access_key_at))]
    fn read(alloc: Global, reader: &mut Reader<'_>) -> Result<AccessKey, RecordFault> {
        let mut ahead = reader.fork();
        let nonce = u64::read(alloc, &mut ahead)?;
        let permission = Permission::read(alloc, &mut ahead)?;
        *reader = ahead;
        Ok(AccessKey { nonce, permission })
    }

    fn write(&self, writer: &mut Writer) -> Result<(), AllocError> {
        self.nonce.write(writer)?;
        self.permission.write(writer)
    }

    fn duplicate(&self, alloc: Global) -> Result<AccessKey, AllocError> {
        Ok(AccessKey {
            nonce: self.nonce,
            permission: self.permission.duplicate(alloc)?,
        })
    }
}
