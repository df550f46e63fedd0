//! JSON texts of chains, and what their runs come to. The hashes are those of an independent program; the objects are
//! written by hand from the lines of its reports.

/// Alice has 100 and a key, Bob has 20. What may be left out is left out.
pub(crate) const GENESIS: &str = "{\"boundaries\": [], \"entries\": [\
    {\"kind\": \"account\", \"account_id\": \"alice\", \"amount\": \"100\", \"locked\": \"0\"},\
    {\"kind\": \"account\", \"account_id\": \"bob\", \"amount\": \"20\", \"locked\": \"0\"},\
    {\"kind\": \"key\", \"account_id\": \"alice\",\
    \"public_key\": \"ed25519:0101010101010101010101010101010101010101010101010101010101010101\",\
    \"access_key\": {\"nonce\": 0, \"permission\": \"FullAccess\"}}]}";

/// Alice sends 5 to Bob in block 1; block 2 is empty.
pub(crate) const TRANSFER: &str = "{\"blocks\": [\
    {\"height\": 1, \"timestamp\": 0, \"chunks\": [[{\"signer_id\": \"alice\",\
    \"public_key\": \"ed25519:0101010101010101010101010101010101010101010101010101010101010101\",\
    \"nonce\": 1, \"receiver_id\": \"bob\",\
    \"actions\": [{\"Transfer\": {\"deposit\": \"5\"}}]}]]},\
    {\"height\": 2, \"timestamp\": 0, \"chunks\": [[]]}]}";

/// The report of this chain.
pub(crate) const TRANSFER_REPORT: &str = "\
{\"line\":\"chunk\",\"height\":1,\"shard\":0,\
\"state_root\":\"fe170e308d93871477cdecdbb8010805a138e10446ccaab0ce64313b79886e32\",\"gas\":0,\"burnt\":\"0\"}
{\"line\":\"tx\",\
\"transaction_hash\":\"923475a294f1ed3815d5e18071828f002f4190a1afa36e7d5adb41e226af71d2\",\
\"status\":\"ok\",\"receipt_id\":\"1db49a92f6565af840d649a74ad2eacfc1d2c593723750fc7a83746f38e0c950\"}
{\"line\":\"out\",\"shard\":0,\
\"receipt_id\":\"1db49a92f6565af840d649a74ad2eacfc1d2c593723750fc7a83746f38e0c950\",\
\"receipt_hash\":\"cc4b3fa3598b60d747c37afc920f1c9ef7456e774c36c53fca5ca167ca6df6e0\"}
{\"line\":\"chunk\",\"height\":2,\"shard\":0,\
\"state_root\":\"92320917050449af130cdb3b2e0fd713aae8154575253e0513b30f32d6d5fa43\",\"gas\":0,\"burnt\":\"0\"}
{\"line\":\"run\",\
\"receipt_id\":\"1db49a92f6565af840d649a74ad2eacfc1d2c593723750fc7a83746f38e0c950\",\
\"status\":\"value\",\"value\":\"\",\"gas\":0,\"burnt\":\"0\"}
{\"line\":\"total\",\"total\":\"supply\",\"tokens\":\"120\"}
{\"line\":\"total\",\"total\":\"accounts\",\"tokens\":\"120\"}
{\"line\":\"total\",\"total\":\"receipts\",\"tokens\":\"0\"}
{\"line\":\"total\",\"total\":\"burnt\",\"tokens\":\"0\"}
{\"line\":\"total\",\"total\":\"places\",\"routed\":1,\"executed\":1,\"postponed\":0,\"delayed\":0,\"in_flight\":0}
";

/// `aa` has 100 and a key, `zz` has 20.
pub(crate) const OTHER_GENESIS: &str = "{\"boundaries\": [], \"entries\": [\
    {\"kind\": \"account\", \"account_id\": \"aa\", \"amount\": \"100\", \"locked\": \"0\"},\
    {\"kind\": \"account\", \"account_id\": \"zz\", \"amount\": \"20\", \"locked\": \"0\"},\
    {\"kind\": \"key\", \"account_id\": \"aa\",\
    \"public_key\": \"ed25519:0101010101010101010101010101010101010101010101010101010101010101\",\
    \"access_key\": {\"nonce\": 0, \"permission\": \"FullAccess\"}}]}";

/// In block 1 `aa` sends 5 to `zz`, and from block 2 on there is the boundary `mm`.
pub(crate) const RESHARDED: &str =
    "{\"version\": 3, \"reshard\": {\"height\": 2, \"boundaries\": [\"mm\"]}, \"blocks\": [\
    {\"height\": 1, \"timestamp\": 0, \"price\": 0, \"chunks\": [[{\"signer_id\": \"aa\",\
    \"public_key\": \"ed25519:0101010101010101010101010101010101010101010101010101010101010101\",\
    \"nonce\": 1, \"receiver_id\": \"zz\",\
    \"actions\": [{\"Transfer\": {\"deposit\": \"5\"}}]}]]},\
    {\"height\": 2, \"timestamp\": 0, \"price\": 0, \"chunks\": [[], []]}]}";

/// Steps of both legs; two of them aren't made.
pub(crate) const STEPS: &str =
    "open 0\nseal 0\nreshard\npublish 0\nopen 1\nreshard\nopen 1\nseal 1\n";

/// What becomes of these steps.
pub(crate) const STEPS_LINES: &str = "\
{\"line\":\"ok\"}
{\"line\":\"ok\"}
{\"line\":\"chunk\",\"height\":1,\"shard\":0,\
\"state_root\":\"7757743af9852ef5e2f4552a5c1e3a235e2cee28f01b976a9f3cae12fac9314a\",\"gas\":0,\"burnt\":\"0\"}
{\"line\":\"tx\",\
\"transaction_hash\":\"68ba1b92cfc77daf015212a50bbe064742146c91f6794aabc05f12e46e67c808\",\
\"status\":\"ok\",\"receipt_id\":\"c2d22bdf02078d767c38be7392e2ecedb8f563b9364388a4772a04cf76425e1f\"}
{\"line\":\"out\",\"shard\":0,\
\"receipt_id\":\"c2d22bdf02078d767c38be7392e2ecedb8f563b9364388a4772a04cf76425e1f\",\
\"receipt_hash\":\"e4f5b20417e49d09c23379c016b1365b1b791630557da21028132b012c67500b\"}
{\"line\":\"no\",\"number\":5,\"first\":0,\"second\":0}
{\"line\":\"ok\"}
{\"line\":\"no\",\"number\":7,\"first\":1,\"second\":0}
{\"line\":\"ok\"}
{\"line\":\"ok\"}
{\"line\":\"ok\"}
{\"line\":\"chunk\",\"height\":2,\"shard\":1,\
\"state_root\":\"15b163b25276c7daa508b4f99c2b8aae11c51d9d8cb0f86a4c72696459992e88\",\"gas\":0,\"burnt\":\"0\"}
{\"line\":\"run\",\
\"receipt_id\":\"c2d22bdf02078d767c38be7392e2ecedb8f563b9364388a4772a04cf76425e1f\",\
\"status\":\"value\",\"value\":\"\",\"gas\":0,\"burnt\":\"0\"}
{\"line\":\"total\",\"total\":\"supply\",\"tokens\":\"120\"}
{\"line\":\"total\",\"total\":\"accounts\",\"tokens\":\"120\"}
{\"line\":\"total\",\"total\":\"receipts\",\"tokens\":\"0\"}
{\"line\":\"total\",\"total\":\"burnt\",\"tokens\":\"0\"}
{\"line\":\"total\",\"total\":\"places\",\"routed\":1,\"executed\":1,\"postponed\":0,\"delayed\":0,\"in_flight\":0}
";
