//! A gathered chunk in memory, with ample memory. The bytes and the text are written by hand from the formats.

use crate::files::ended;
use std::test::Fail;

/// A chunk with a transfer, a receipt of each kind and one text, at the greatest price.
pub(crate) const GATHERED: &[u8] = b"\
    NRS133333333333333333333333333333333\
    \x01\0\0\0\x02\0\0\0mm\
    \x02\0\0\0\0\0\0\0\x07\0\0\0\0\0\0\0\x01\xff\xff\xff\xff\xff\xff\xff\xff\x01\0\0\0\
    \x01\0\0\0\x05\0\0\0alice\011111111111111111111111111111111\x09\0\0\0\0\0\0\0\x03\0\0\0bob\
    22222222222222222222222222222222\x01\0\0\0\x03\x05\0\0\0\0\0\0\0\0\0\0\0\0\0\0\0\
    \x03\0\0\0\
    \x05\0\0\0alice\x03\0\0\0bob44444444444444444444444444444444\0\
    \x05\0\0\0alice\011111111111111111111111111111111\x05\0\0\0\0\0\0\0\0\0\0\0\0\0\0\0\
    \x01\0\0\055555555555555555555555555555555\x05\0\0\0carol\
    \x01\0\0\066666666666666666666666666666666\x01\0\0\0\0\
    \x05\0\0\0alice\x03\0\0\0bob77777777777777777777777777777777\x01\
    88888888888888888888888888888888\x01\x02\0\0\0\0\xff\
    \x05\0\0\0alice\x03\0\0\0bob99999999999999999999999999999999\x01\
    88888888888888888888888888888888\0\
    \x01\0\0\0\x01\0\0\0\xff\
";

/// This chunk as it is shown.
const GATHERED_JSON: &str = "{
  \"boundaries\": [
    \"mm\"
  ],
  \"height\": 2,
  \"price\": 18446744073709551615,
  \"prior_root\": \"3333333333333333333333333333333333333333333333333333333333333333\",
  \"receipts\": [
    {
      \"predecessor_id\": \"alice\",
      \"receipt\": {
        \"Action\": {
          \"actions\": [
            \"CreateAccount\"
          ],
          \"gas_price\": \"5\",
          \"input_data_ids\": [
            \"3636363636363636363636363636363636363636363636363636363636363636\"
          ],
          \"output_data_receivers\": [
            {
              \"data_id\": \"3535353535353535353535353535353535353535353535353535353535353535\",
              \"receiver_id\": \"carol\"
            }
          ],
          \"signer_id\": \"alice\",
          \"signer_public_key\": \"ed25519:3131313131313131313131313131313131313131313131313131313131313131\"
        }
      },
      \"receipt_id\": \"3434343434343434343434343434343434343434343434343434343434343434\",
      \"receiver_id\": \"bob\"
    },
    {
      \"predecessor_id\": \"alice\",
      \"receipt\": {
        \"Data\": {
          \"data\": \"00ff\",
          \"data_id\": \"3838383838383838383838383838383838383838383838383838383838383838\"
        }
      },
      \"receipt_id\": \"3737373737373737373737373737373737373737373737373737373737373737\",
      \"receiver_id\": \"bob\"
    },
    {
      \"predecessor_id\": \"alice\",
      \"receipt\": {
        \"Data\": {
          \"data\": null,
          \"data_id\": \"3838383838383838383838383838383838383838383838383838383838383838\"
        }
      },
      \"receipt_id\": \"3939393939393939393939393939393939393939393939393939393939393939\",
      \"receiver_id\": \"bob\"
    }
  ],
  \"shard\": 1,
  \"texts\": [
    \"ff\"
  ],
  \"timestamp\": 7,
  \"transactions\": [
    {
      \"actions\": [
        {
          \"Transfer\": {
            \"deposit\": \"5\"
          }
        }
      ],
      \"block_hash\": \"3232323232323232323232323232323232323232323232323232323232323232\",
      \"nonce\": 9,
      \"public_key\": \"ed25519:3131313131313131313131313131313131313131313131313131313131313131\",
      \"receiver_id\": \"bob\",
      \"signer_id\": \"alice\"
    }
  ]
}
";

#[test]
fn a_gathered_chunk_is_shown(rt: HostRuntime) -> Result<(), Fail> {
    let alloc = rt.alloc();
    let (shown, text) = ended(alloc, &["show", "gathered", "F"], GATHERED)?;
    assert_eq!(rt; shown.exit_status(), 0);
    assert_eq!(rt; text.as_slice(), GATHERED_JSON.as_bytes());
    Ok(())
}
