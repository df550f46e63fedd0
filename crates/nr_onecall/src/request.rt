//! What is called.

/// What is called, and with what.
#[derive(Clone, Copy, Debug)]
pub struct CallRequest<'a> {
    /// The name of the function.
    pub method: &'a str,
    /// Its arguments: any bytes, or none.
    pub args: &'a [u8],
    /// The gas that the call can burn or promise.
    pub gas: u64,
    /// Tokens that come with the call.
    pub deposit: u128,
}
