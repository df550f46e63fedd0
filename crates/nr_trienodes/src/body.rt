//! What a node holds: a value, children, or both.

ghost use Rattle.std.specs.Prelude.{◌≡◌, ◌==◌, length, count_by, is_some, slice_set, ◌<◌, Some, IfOk};
ghost use Rattle.std.specs.Option.{option_copied};
ghost use Rattle.nr_trienodes.specs.Shape.{no_children};
ghost use Rattle.nr_trienodes.specs.Packing.{IsPackable, none_number};
ghost use Rattle.nr_trienodes.specs.Bodies.{value_of, row_of, row_in};

use crate::node_bytes::NodeBytes;
use crate::packed::{Packed, Row};
use crate::spare::Spare;
use std::alloc::{AllocError, Global};

/// A value and children.
#[derive(Drop)]
pub(crate) struct Both {
    pub(crate) value: NodeBytes,
    pub(crate) row: Packed,
}

/// What stands at and below a node.
#[derive(Drop)]
pub(crate) enum Body {
    Bare,
    Value(NodeBytes),
    Children(Box<Packed>),
    Both(Box<Both>),
}

/// Whether no child is there.
#[tactic(auto, using(crate::proofs::Rows::all_none, crate::proofs::Rows::some_child, crate::proofs::Rows::no_child))]
pub(crate) fn is_alone(row: &Row) -> bool
    ensures { result ≡ (count_by is_some row.now == 0) }
{
    for i in 0..16 {
        if row[i].is_some() {
            return false;
        }
    }
    true
}

// What has no children.
fn alone(value: Option<NodeBytes>) -> Body
    ensures value { value_of result ≡ value }
    ensures row { row_of result ≡ no_children }
{
    match value {
        None => Body::Bare,
        Some(value) => Body::Value(value),
    }
}

/// What has a value, or none, and children.
pub(crate) fn with_row(
    alloc: Global,
    spare: &mut Spare,
    value: Option<NodeBytes>,
    row: Packed,
) -> Result<Body, AllocError>
    ensures value { IfOk result (λ body. value_of body ≡ value) }
    ensures row { IfOk result (λ body. row_of body ≡ row) }
{
    match value {
        None => {
            let row = spare.boxed(alloc, row)?;
            Ok(Body::Children(row))
        }
        Some(value) => {
            let both = Box::new(alloc, Both { value, row })?;
            Ok(Body::Both(both))
        }
    }
}

impl Body {
    /// What has this value and these children.
    pub(crate) fn of(
        alloc: Global,
        spare: &mut Spare,
        value: Option<NodeBytes>,
        row: &Row,
    ) -> Result<Body, AllocError>
        requires { IsPackable row.now }
        ensures value { IfOk result (λ body. value_of body ≡ value) }
        ensures row { IfOk result (λ body. row_of body ≡ row.now) }
        ensures sixteen { length row.now ≡ 16 }
    {
        if is_alone(row) {
            return Ok(alone(value));
        }
        let body = with_row(alloc, spare, value, Packed::of(row))?;
        Ok(body)
    }

    /// The value once more, for another node.
    pub(crate) fn value_again(&self) -> Result<Option<NodeBytes>, AllocError>
        ensures { IfOk result (λ value. value ≡ value_of self.now) }
    {
        match self.value() {
            None => Ok(None),
            Some(value) => {
                let other = value.try_clone()?;
                Ok(Some(other))
            }
        }
    }

    /// The children with another one.
    pub(crate) fn row_with(&self, nibble: u8, below: u32) -> Packed
        requires nibble { nibble < 16 }
        requires below { below < none_number }
        ensures { result ≡ slice_set (row_of self.now) nibble (Some below) }
    {
        match self.children() {
            None => Packed::none().with(nibble, below),
            Some(row) => row.with(nibble, below),
        }
    }

    /// The value.
    pub(crate) fn value(&self) -> Option<&NodeBytes>
        ensures { option_copied result ≡ value_of self.now }
    {
        match self {
            Body::Bare => None,
            Body::Value(value) => Some(value),
            Body::Children(_) => None,
            Body::Both(both) => Some(&both.value),
        }
    }

    /// The children.
    pub(crate) fn children(&self) -> Option<&Packed>
        ensures { row_in (option_copied result) ≡ row_of self.now }
    {
        match self {
            Body::Bare => None,
            Body::Value(_) => None,
            Body::Children(row) => Some(&**row),
            Body::Both(both) => Some(&both.row),
        }
    }
}
